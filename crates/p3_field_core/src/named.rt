//! Types with a name, which the steps of a protocol carry.
ghost use Rattle.std.specs.Prelude.{◌≡◌, ℕ, List, codes};

/// A type with a name, by which readers distinguish the steps of different types.
///
/// Not in the Rust crate, which uses the compiler's names of types.
pub trait Named {
    /// The name of the type.
    const NAME: &'static str;

    // The bytes of the name.
    ghost name_bytes: { List ℕ };

    /// Returns the name, [`NAME`](Named::NAME), for code whose contract speaks of its bytes.
    fn type_name() -> &'static str
        ensures { result.now ≡ name_bytes };
}

impl Named for u8 {
    const NAME: &'static str = "u8";

    ghost name_bytes = { codes "u8" };

    fn type_name() -> &'static str {
        Self::NAME
    }
}

impl Named for usize {
    const NAME: &'static str = "usize";

    ghost name_bytes = { codes "usize" };

    fn type_name() -> &'static str {
        Self::NAME
    }
}

impl Named for () {
    const NAME: &'static str = "()";

    ghost name_bytes = { codes "()" };

    fn type_name() -> &'static str {
        Self::NAME
    }
}
