//! The parts of a step of an interactive protocol: hierarchy, kind, length and type.

ghost use Rattle.std.specs.{Prelude.{◌≡◌, Some}, Str.IsAscii};
ghost use Rattle.p3_field_core.specs.Equality.{IsExact};
ghost use Rattle.p3_fs_core.specs.StepTexts.{hierarchy_text, kind_text, length_text, type_tag_text, hex_text};
ghost use Rattle.p3_fs_core.specs.StepTexts.{hex_number};

use std::fmt;

/// Says whether a step opens or closes a container, or stands alone.
///
/// Corresponds to the Rust crate's `Hierarchy`.
#[derive(Clone, Copy, Debug, PartialEq, Eq, PartialOrd, Ord, Hash)]
pub enum Hierarchy {
    /// A step that is no opener or closer.
    Atomic,
    /// The opener of a container.
    Begin,
    /// The closer of a container.
    End,
}

/// The purpose of a step.
///
/// Corresponds to the Rust crate's `Kind`.
#[derive(Clone, Copy, Debug, PartialEq, Eq, PartialOrd, Ord, Hash)]
pub enum Kind {
    /// A container of steps of any kind.
    Protocol,
    /// Values that both sides know beforehand.
    Public,
    /// Values that the prover sends and that later challenges depend on.
    Message,
    /// Values that the prover sends and that no challenge depends on.
    Hint,
    /// Values that both sides draw.
    Challenge,
    /// A proof of work.
    Pow,
    /// Random bytes that hide what the prover sends later.
    Salt,
}

/// The number of values that a step carries.
///
/// Corresponds to the Rust crate's `Length`.
#[derive(Clone, Copy, Debug, PartialEq, Eq, PartialOrd, Ord, Hash)]
pub enum Length {
    /// No value.
    None,
    /// One value, not in a list.
    Scalar,
    /// A list of exactly this many values; for a proof of work, its number of bits.
    Fixed(usize),
    /// A list of at most this many values, sent after its length. The length takes as few bytes as the
    /// greatest one needs.
    Bounded(usize),
}

/// The type of a step's values, independent of machine and compiler.
///
/// The Rust crate's `TypeTag` is `#[non_exhaustive]`.
#[derive(Clone, Copy, Debug, PartialEq, Eq, PartialOrd, Ord, Hash)]
pub enum TypeTag {
    /// No type: the step opens or closes a container.
    Marker,
    /// Bytes as they are.
    Bytes,
    /// Elements of an algebra over a prime field.
    Algebra {
        /// The order of the field.
        modulus: u64,
        /// The number of coefficients of an element.
        degree: usize,
        /// The digest of the identity of the algebra and its basis.
        basis: [u8; 32],
    },
    /// Elements of an algebra over a field in a tower of binary fields.
    BinaryTower {
        /// The number of bits of a field element.
        bits: usize,
        /// The number of coefficients of an element.
        degree: usize,
        /// The digest of the identity of the algebra and its basis.
        basis: [u8; 32],
    },
    /// Elements of an algebra over a binary field of polynomials.
    BinaryPolynomial {
        /// The number of bits of a field element.
        bits: usize,
        /// The modulus of the field, a polynomial without its highest term.
        modulus: u128,
        /// The number of coefficients of an element.
        degree: usize,
        /// The digest of the identity of the algebra and its basis.
        basis: [u8; 32],
    },
    /// A value that only the challenger knows how to observe.
    Opaque,
    /// Numbers of `width` bits, possibly drawn with a bias.
    Bits {
        /// The number of bits of each number.
        width: usize,
    },
    /// Numbers of `width` bits, all equally likely.
    UniformBits {
        /// The number of bits of each number.
        width: usize,
    },
}

impl Hierarchy {
    /// Two hierarchies compare equal exactly where they are the same.
    ///
    /// A law: the body is empty, and a caller cites the clause.
    #[tactic(auto, using(crate::proofs::StepEquality::equal_hierarchies))]
    pub fn compared_exactly()
        ensures { IsExact ⟦<Hierarchy as PartialEq>⟧.eq }
    {}
}

impl Kind {
    /// Two kinds compare equal exactly where they are the same.
    ///
    /// A law: the body is empty, and a caller cites the clause.
    #[tactic(auto, using(crate::proofs::StepEquality::equal_kinds))]
    pub fn compared_exactly()
        ensures { IsExact ⟦<Kind as PartialEq>⟧.eq }
    {}
}

impl Length {
    /// Two lengths compare equal exactly where they are the same.
    ///
    /// A law: the body is empty, and a caller cites the clause.
    #[tactic(auto, using(crate::proofs::StepEquality::equal_lengths))]
    pub fn compared_exactly()
        ensures { IsExact ⟦<Length as PartialEq>⟧.eq }
    {}
}

impl TypeTag {
    /// Two tags compare equal exactly where they are the same.
    ///
    /// A law: the body is empty, and a caller cites the clause.
    #[tactic(auto, using(crate::proofs::StepEquality::equal_type_tags))]
    pub fn compared_exactly()
        ensures { IsExact ⟦<TypeTag as PartialEq>⟧.eq }
    {}
}

impl fmt::Display for Hierarchy {
    ghost output = { λ hierarchy. Some (hierarchy_text hierarchy) };

    fn fmt<W: fmt::Write>(&self, f: &mut fmt::Formatter<W>) -> fmt::Result {
        match self {
            Hierarchy::Atomic => write!(f, "Atomic"),
            Hierarchy::Begin => write!(f, "Begin"),
            Hierarchy::End => write!(f, "End"),
        }
    }
}

impl fmt::Display for Kind {
    ghost output = { λ kind. Some (kind_text kind) };

    fn fmt<W: fmt::Write>(&self, f: &mut fmt::Formatter<W>) -> fmt::Result {
        match self {
            Kind::Protocol => write!(f, "Protocol"),
            Kind::Public => write!(f, "Public"),
            Kind::Message => write!(f, "Message"),
            Kind::Hint => write!(f, "Hint"),
            Kind::Challenge => write!(f, "Challenge"),
            Kind::Pow => write!(f, "Pow"),
            Kind::Salt => write!(f, "Salt"),
        }
    }
}

impl fmt::Display for Length {
    ghost output = { λ length. Some (length_text length) };

    fn fmt<W: fmt::Write>(&self, f: &mut fmt::Formatter<W>) -> fmt::Result {
        match self {
            Length::None => write!(f, "None"),
            Length::Scalar => write!(f, "Scalar"),
            Length::Fixed(count) => write!(f, "Fixed({count})"),
            Length::Bounded(most) => write!(f, "Bounded({most})"),
        }
    }
}

impl fmt::Display for TypeTag {
    ghost output = { λ tag. Some (type_tag_text tag) };

    fn fmt<W: fmt::Write>(&self, f: &mut fmt::Formatter<W>) -> fmt::Result {
        match self {
            TypeTag::Marker => write!(f, "Marker"),
            TypeTag::Bytes => write!(f, "Bytes"),
            TypeTag::Algebra {
                modulus,
                degree,
                basis,
            } => { write!(f, "Algebra({modulus}^{degree};{})", Hex(basis)) }
            TypeTag::BinaryTower {
                bits,
                degree,
                basis,
            } => { write!(f, "BinaryTower({bits}^{degree};{})", Hex(basis)) }
            TypeTag::BinaryPolynomial {
                bits,
                modulus,
                degree,
                basis,
            } => {
                let modulus = HexNumber(*modulus);
                write!(
                    f,
                    "BinaryPolynomial({bits},0x{modulus}^{degree};{})",
                    Hex(basis)
                )
            }
            TypeTag::Opaque => write!(f, "Opaque"),
            TypeTag::Bits { width } => write!(f, "Bits({width})"),
            TypeTag::UniformBits { width } => write!(f, "UniformBits({width})"),
        }
    }
}

// A digest that prints as two digits for each byte.
#[derive(Clone, Copy)]
struct Hex<'a>(&'a [u8; 32]);

impl fmt::Display for Hex<'_> {
    ghost output = { λ hex. Some (hex_text hex.0.now) };

    // All digits go out in one write. A formatted write for each byte would take most of the time of printing a
    // pattern.
    fn fmt<W: fmt::Write>(&self, f: &mut fmt::Formatter<W>) -> fmt::Result {
        let digits = hex_digits(*self.0);
        f.write_str(str::from_utf8(&digits).unwrap())
    }
}

// Two digits for each byte.
fn hex_digits(digest: [u8; 32]) -> [u8; 64]
    ensures digits { result ≡ hex_text digest }
    ensures ascii { IsAscii result }
{
    let mut digits = [0; 64];
    hex::encode_to_slice(digest.as_slice(), &mut digits).unwrap();
    digits
}

// A number that prints in base 16. The contract of `{:x}` ends at 64 bits, so each half is written by itself.
#[derive(Clone, Copy)]
struct HexNumber(u128);

impl fmt::Display for HexNumber {
    ghost output = { λ number. Some (hex_number number.0) };

    fn fmt<W: fmt::Write>(&self, f: &mut fmt::Formatter<W>) -> fmt::Result {
        let high = (self.0 >> 64) as u64;
        let low = (self.0 % (1 << 64)) as u64;
        if high == 0 {
            write!(f, "{low:x}")
        } else {
            write!(f, "{high:x}{low:016x}")
        }
    }
}
