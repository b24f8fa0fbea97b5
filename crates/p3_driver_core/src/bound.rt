//! A value that a transcript has bound, because it was observed or drawn.
ghost use Rattle.std.specs.Prelude.{◌≡◌};
ghost use Rattle.p3_driver_core.specs.Bound.{bound_value};

/// Holds a value that a transcript has bound: the value was absorbed or drawn.
///
/// The drivers return such values, and users have no other way to make one: [`bind`] and
/// [`Steps::bind`](crate::Steps::bind) are for drivers.
///
/// Corresponds to the Rust crate's `TranscriptBound`.
#[derive(Clone, Copy, Debug, PartialEq, Eq, PartialOrd, Ord, Hash)]
pub struct TranscriptBound<T>(pub(crate) T);

impl<T> TranscriptBound<T> {
    /// Returns a reference to the value.
    pub fn as_inner(&self) -> &T
        ensures { result.now ≡ bound_value self.now }
    {
        &self.0
    }

    /// Returns the value itself.
    pub fn into_inner(self) -> T
        ensures { result ≡ bound_value self }
    {
        self.0
    }
}

impl<T: PartialEq> TranscriptBound<T> {
    ghost use Rattle.p3_field_core.specs.Equality.{IsExact};

    /// Two bound values compare as their values do. So they compare equal exactly where they are the same, if values
    /// do.
    ///
    /// A law: the body is empty, and a caller cites the clause.
    pub fn compared_by_values()
        ensures value { (x y : _) → ⟦<TranscriptBound<T> as PartialEq>⟧.eq x y
            ≡ T.eq (bound_value x) (bound_value y) }
        ensures exact { IsExact T.eq → IsExact ⟦<TranscriptBound<T> as PartialEq>⟧.eq }
    {}
}

/// Marks a value of a list as bound. For drivers: a step with a single value closes by
/// [`Steps::bind`](crate::Steps::bind). In the Rust crate the function is private.
pub fn bind<T>(value: T) -> TranscriptBound<T>
    ensures { bound_value result ≡ value }
{
    TranscriptBound(value)
}
