//! One step of an interactive protocol.
ghost use Rattle.std.specs.Prelude.{◌≡◌, ◌↔◌, true, Some, codes, IsTrue};
ghost use Rattle.p3_fs_core.specs.Steps.{tag_of, step_with, marker_of, Closes, carried_by, plain_text, alternate_text};
ghost use Rattle.p3_fs_core.specs.StepFits.{FitsLength, IsEnd, FitsTag, IsProgramStep};
ghost use Rattle.p3_fs_core.specs.StepFitLaws.{IsProgramStep-prop};

use crate::{Declared, Hierarchy, Kind, Length, TranscriptField, TypeTag};
use p3_field_core::{AlgebraIdentity, Named};
use p3_symmetric::DigestHasher;
use std::fmt;

/// The name of a step: a static string of the program.
///
/// Corresponds to the Rust crate's `Label`.
pub type Label = &'static str;

/// One step of an interactive protocol: its hierarchy, its purpose, its label, and what it carries.
///
/// Two steps are equal where all six of their parts are, the name of their type included.
///
/// Corresponds to the Rust crate's `Interaction`. Here [`Named`] supplies the names of types, and a [`DigestHasher`]
/// the digests.
#[derive(Clone, Copy, Debug, PartialEq, Eq, PartialOrd, Ord, Hash)]
pub struct Interaction {
    hierarchy: Hierarchy,
    kind: Kind,
    label: Label,
    type_tag: TypeTag,
    type_name: &'static str,
    length: Length,
    /// The numbers of the step fit their types, and its texts are bytes.
    pub ghost fits: { IsProgramStep (step_with hierarchy kind label.now type_tag type_name.now
        length) } by { IsProgramStep-prop _ },
}

impl Interaction {
    ghost use Rattle.p3_fs_core.specs.Interactions.{step_of};

    // The step of these parts.
    fn with_parts(
        hierarchy: Hierarchy,
        kind: Kind,
        label: Label,
        type_tag: TypeTag,
        type_name: &'static str,
        length: Length,
    ) -> Self
        ensures { step_of result
            ≡ step_with hierarchy kind label.now type_tag type_name.now length }
    {
        fits_tag(type_tag);
        fits_length(length);
        Interaction {
            hierarchy,
            kind,
            label,
            type_tag,
            type_name,
            length,
        }
    }

    /// Returns a step that carries elements of an algebra `A` over the field `F`. `D` digests the identity of the
    /// algebra. For scalars, `A` is `F`. The hash function is Keccak-256 in the Rust crate.
    pub fn algebra<F: TranscriptField, A: AlgebraIdentity<F> + Named, D: DigestHasher>(
        hierarchy: Hierarchy,
        kind: Kind,
        label: Label,
        length: Length,
    ) -> Self
        ensures { let algebra = ⟦<A as Declared<F, D>>⟧.algebra in step_of result
            ≡ step_with hierarchy kind label.now (tag_of algebra) algebra.name length }
    {
        let type_tag = F::algebra_tag(A::DIMENSION, D::digest(A::algebra_id()));
        Self::with_parts(hierarchy, kind, label, type_tag, A::type_name(), length)
    }

    /// Returns a step that carries bytes as they are. The name of its type is `u8`.
    pub fn bytes(hierarchy: Hierarchy, kind: Kind, label: Label, length: Length) -> Self
        ensures { step_of result
            ≡ step_with hierarchy kind label.now TypeTag.Bytes (codes "u8") length }
    {
        Self::with_parts(
            hierarchy,
            kind,
            label,
            TypeTag::Bytes,
            u8::type_name(),
            length,
        )
    }

    /// Returns a step of an opaque value, which only the challenger knows how to observe. The name of its type is
    /// `opaque`.
    pub fn opaque(hierarchy: Hierarchy, kind: Kind, label: Label, length: Length) -> Self
        ensures { step_of result
            ≡ step_with hierarchy kind label.now TypeTag.Opaque (codes "opaque") length }
    {
        Self::with_parts(hierarchy, kind, label, TypeTag::Opaque, "opaque", length)
    }

    /// Returns a step that draws numbers of `width` bits by the challenger's own rule, possibly with a bias. The name
    /// of its type is `usize`.
    pub fn bits(
        hierarchy: Hierarchy,
        kind: Kind,
        label: Label,
        width: usize,
        length: Length,
    ) -> Self
        ensures { step_of result
            ≡ step_with hierarchy kind label.now (TypeTag.Bits width) (codes "usize") length }
    {
        Self::with_parts(
            hierarchy,
            kind,
            label,
            TypeTag::Bits { width },
            usize::type_name(),
            length,
        )
    }

    /// Returns a step that draws numbers of `width` bits, all equally likely. The name of its type is `usize`.
    pub fn uniform_bits(
        hierarchy: Hierarchy,
        kind: Kind,
        label: Label,
        width: usize,
        length: Length,
    ) -> Self
        ensures { step_of result ≡ step_with hierarchy kind label.now (TypeTag.UniformBits width)
            (codes "usize") length }
    {
        Self::with_parts(
            hierarchy,
            kind,
            label,
            TypeTag::UniformBits { width },
            usize::type_name(),
            length,
        )
    }

    /// Returns the opener or the closer of a container, which carries nothing. `T` names the container in the text of
    /// the step.
    pub fn marker<T: Named>(hierarchy: Hierarchy, kind: Kind, label: Label) -> Self
        ensures { step_of result ≡ marker_of hierarchy kind label.now T.name_bytes }
    {
        Self::with_parts(
            hierarchy,
            kind,
            label,
            TypeTag::Marker,
            T::type_name(),
            Length::None,
        )
    }

    /// Returns a step that carries values of the same type as this one. It hashes nothing, so that many steps of one
    /// algebra need only one digest of its identity. For a marker the result is a marker, whatever the length. Not in
    /// the Rust crate.
    pub fn of_same_type(
        &self,
        hierarchy: Hierarchy,
        kind: Kind,
        label: Label,
        length: Length,
    ) -> Self
        ensures { step_of result ≡ step_with hierarchy kind label.now (step_of self.now).type_tag
            (step_of self.now).type_name (carried_by (step_of self.now).type_tag length) }
    {
        let length = match self.type_tag {
            TypeTag::Marker => Length::None,
            _ => length,
        };
        Self::with_parts(
            hierarchy,
            kind,
            label,
            self.type_tag,
            self.type_name,
            length,
        )
    }

    /// Returns whether the step opens or closes a container, or stands alone.
    pub fn hierarchy(&self) -> Hierarchy
        ensures { result ≡ (step_of self.now).hierarchy }
    {
        self.hierarchy
    }

    /// Returns the purpose of the step.
    pub fn kind(&self) -> Kind
        ensures { result ≡ (step_of self.now).kind }
    {
        self.kind
    }

    /// Returns the name of the step.
    pub fn label(&self) -> Label
        ensures { result.now ≡ (step_of self.now).label }
    {
        self.label
    }

    /// Returns the tag of the step's values, as its digest has it.
    pub fn type_tag(&self) -> TypeTag
        ensures { result ≡ (step_of self.now).type_tag }
    {
        self.type_tag
    }

    /// Returns the name of the type of the step's values, as its printed text has it.
    pub fn type_name(&self) -> &'static str
        ensures { result.now ≡ (step_of self.now).type_name }
    {
        self.type_name
    }

    /// Returns how many values the step carries.
    pub fn length(&self) -> Length
        ensures { result ≡ (step_of self.now).length }
    {
        self.length
    }

    /// Returns whether this step closes the other: whether this one is an End and the other a Begin, with all other
    /// parts the same. The other parts include the name of the type.
    pub fn closes(&self, other: &Self) -> bool
        ensures { IsTrue result ↔ Closes (step_of self.now) (step_of other.now) }
    {
        self.hierarchy == Hierarchy::End
            && other.hierarchy == Hierarchy::Begin
            && self.kind == other.kind
            && self.label == other.label
            && self.type_tag == other.type_tag
            && self.type_name == other.type_name
            && self.length == other.length
    }

    /// A program can hold each of its steps: the numbers fit their types, and the texts are bytes.
    ///
    /// A law: the body is empty, and a caller cites the clause.
    pub fn each_fits_its_types()
        ensures { (i : Interaction) → IsProgramStep (step_of i) }
    {}

    /// Two steps compare equal exactly where their six parts are the same, wherever their texts lie. Order and hash
    /// agree with equality, as for every type.
    ///
    /// A law: the body is empty, and a caller cites the clause.
    #[tactic(auto, using(crate::proofs::StepEquality::equal_steps))]
    pub fn compared_by_parts()
        ensures { (a b : Interaction) →
            (⟦<Interaction as PartialEq>⟧.eq a b ≡ true ↔ step_of a ≡ step_of b) }
    {}
}

impl fmt::Display for Interaction {
    ghost use Rattle.p3_fs_core.specs.{Interactions.step_of, Steps.plain_text};

    ghost output = { λ i. Some (plain_text (step_of i)) };

    // The alternate form, `{:#}`, is the one that is hashed.
    fn fmt<W: fmt::Write>(&self, f: &mut fmt::Formatter<W>) -> fmt::Result {
        if f.alternate() {
            write!(f, "{}", Alternate(self))
        } else {
            write!(
                f,
                "{} {} {} {} {}",
                self.hierarchy, self.kind, self.label, self.length, self.type_name
            )
        }
    }
}

/// Prints a step as it is hashed, as `{:#}` does. The length of the label stands before the label, and the tag of the
/// type in place of its name.
///
/// Not in the Rust crate, where only `{:#}` prints this text.
#[derive(Clone, Copy)]
pub struct Alternate<'a>(pub &'a Interaction);

impl fmt::Display for Alternate<'_> {
    ghost use Rattle.p3_fs_core.specs.{Interactions.step_of, Steps.alternate_text};

    ghost output = { λ alternate. Some (alternate_text (step_of alternate.0.now)) };

    fn fmt<W: fmt::Write>(&self, f: &mut fmt::Formatter<W>) -> fmt::Result {
        write!(
            f,
            "{} {} {} {} {} {}",
            self.0.hierarchy,
            self.0.kind,
            self.0.label.len(),
            self.0.label,
            self.0.length,
            self.0.type_tag
        )
    }
}

// The number of a length fits its type. It does nothing but tell so.
fn fits_length(length: Length)
    ensures { FitsLength length }
{}

// The numbers of a tag fit their types. It does nothing but tell so.
fn fits_tag(tag: TypeTag)
    ensures { FitsTag tag }
{
    match tag {
        TypeTag::Algebra { degree, basis, .. }
        | TypeTag::BinaryTower { degree, basis, .. }
        | TypeTag::BinaryPolynomial { degree, basis, .. } => fits_end(degree, basis),
        TypeTag::Marker
        | TypeTag::Bytes
        | TypeTag::Opaque
        | TypeTag::Bits { .. }
        | TypeTag::UniformBits { .. } => {}
    }
}

// A degree fits its type, and a basis is 32 bytes.
fn fits_end(degree: usize, basis: [u8; 32])
    ensures { IsEnd degree basis }
{}
