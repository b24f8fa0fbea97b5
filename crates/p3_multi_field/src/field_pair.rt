//! The obligations of the two fields.
use p3_field_bridge::FieldBridge;
use p3_field_core::PrimeField64;

/// The view of contracts on a field of cells, which implements this trait, and a field `F` of scalars. It has both
/// fields, and the packing and drawing of elements.
///
/// Not in the Rust crate.
pub trait HasFieldPair<F> {
    ghost use Rattle.p3_multi_field.specs.MultiFieldCalls.{FieldPair};

    ghost field_pair: { FieldPair F Self };
}

impl<F: PrimeField64, PF: PrimeField64 + FieldBridge<F, PF>> HasFieldPair<F> for PF {
    ghost field_pair = { record {
      inner = F.residues;
      outer = PF.residues;
      bits = PF.RADIX_BITS;
      absorb = PF.ABSORB_COUNT;
      squeeze = PF.SQUEEZE_COUNT;
    } };
}
