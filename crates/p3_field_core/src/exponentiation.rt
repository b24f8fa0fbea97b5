//! Powers by squaring.
ghost use Rattle.std.specs.Prelude.{◌≡◌};
ghost use Rattle.p3_field_core.specs.Residues.{power_of};

use crate::PrimeCharacteristicRing;

// The power of an element, by squaring.
pub(crate) fn power<R: PrimeCharacteristicRing>(base: R, exponent: u64) -> R
    ensures { result ≡ power_of R.residues base exponent }
{
    let mut square = base;
    let mut product = R::ONE;
    let mut left = exponent;
    while left > 0 {
        if left % 2 == 1 {
            product = product * square;
        }
        square = square * square;
        left /= 2;
    }
    product
}
