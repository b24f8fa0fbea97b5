ghost use Rattle.std.specs.Prelude.{◌≡◌, ◌↔◌, ◌+◌, ◌*◌, ◌-◌, ◌%◌, ◌^◌, ◌<◌, ◌≤◌, ◌∷◌, IsTrue, Some, None, replicate};
ghost use Rattle.std.specs.Prelude.{sum_by};
ghost use Rattle.p3_field.specs.GoldilocksResidues as goldilocks;
ghost use Rattle.p3_field.specs.Residues.{plus};

use p3_field::{
    Algebra, BabyBear, BasedVectorSpace, Coeffs, F257, Field, Goldilocks, KoalaBear,
    PrimeCharacteristicRing, PrimeField32, PrimeField64, ScalarField, UniformSamplingField,
    residues_are_a_ring, uniform_bounds_are_whole,
};
use std::test::Fail;

// ---- what generic code knows: each of these is proved from its bound alone

fn double<F: PrimeField64>(x: F) -> F
    ensures { F.residues.number result ≡ (2 * F.residues.number x) % F.residues.order }
{
    x + x
}

fn plus_number<F: PrimeField64>(x: F, n: u64) -> F
    ensures { result ≡ plus F.residues x n }
{
    x + F::from_u64(n)
}

fn total<F: PrimeField64>(values: &[F]) -> F
    ensures { F.residues.number result ≡ sum_by F.residues.number values.now % F.residues.order }
{
    let mut total = F::ZERO;
    for value in values {
        total = total + *value;
    }
    total
}

fn difference_from_one<R: PrimeCharacteristicRing>(x: R) -> R
    ensures { R.residues.number result ≡ (1 + (R.residues.order - R.residues.number x)) % R.residues.order }
{
    R::ONE - x
}

fn product_with_minus_one<R: PrimeCharacteristicRing>(x: R) -> R
    ensures { result ≡ R.residues.of (R.residues.number x * (R.residues.order - 1)) }
{
    x * R::NEG_ONE
}

fn number_of<F: PrimeField64>(x: F) -> u64
    ensures { result < F.residues.order }
{
    x.as_canonical_u64()
}

fn round_trip<F: PrimeField64>(x: F) -> F
    ensures { result ≡ x }
{
    F::from_canonical(x.as_canonical_u64())
}

fn short_round_trip<F: PrimeField32>(x: F) -> F
    ensures { result ≡ x }
{
    F::from_canonical_u32(x.as_canonical_u32())
}

fn canonical<F: PrimeField32>(n: u32) -> Option<F>
    ensures below { n < F.residues.order → result ≡ Some (F.residues.of n) }
    ensures other { F.residues.order ≤ n → result ≡ None }
{
    F::from_canonical_u32_checked(n)
}

fn added_and_taken<R: PrimeCharacteristicRing>(x: R, y: R) -> R
    ensures { result ≡ x }
{
    residues_are_a_ring::<R>();
    x + y - y
}

fn coefficient_count<F: ScalarField>() -> usize
    ensures { result ≡ 1 }
{
    F::DIMENSION
}

fn own_coefficient<F: ScalarField>(x: F) -> F
    ensures { result ≡ x }
{
    x.as_basis_coefficients_slice()[0]
}

fn is_below(x: Goldilocks, y: Goldilocks) -> bool
    ensures { IsTrue result ↔ goldilocks.number x < goldilocks.number y }
{
    Goldilocks::ordered_and_hashed_by_numbers();
    x < y
}

fn default_of<F: Field>() -> F
    ensures { result ≡ F.residues.of 0 }
{
    F::default()
}

fn element_of<F: Field, A: Algebra<F>>(value: F) -> A
    ensures { A.coefficients result ≡ value ∷ replicate (A.DIMENSION - 1) (F.residues.of 0) }
{
    A::from(value)
}

fn same<F: PrimeField64>(x: F, y: F) -> bool
    ensures { IsTrue result ↔ x ≡ y }
{
    x == y
}

fn same_element<F: Field, A: Algebra<F>>(x: A, y: A) -> bool
    ensures { IsTrue result ↔ x ≡ y }
{
    x == y
}

fn same_coefficients<F: Field, const D: usize>(x: Coeffs<F, D>, y: Coeffs<F, D>) -> bool
    ensures { IsTrue result ↔ x ≡ y }
{
    Coeffs::<F, D>::compared_by_coefficients();
    x == y
}

fn whole_bound<F: UniformSamplingField>(bits: usize) -> u64
    ensures within { result ≤ F.residues.order }
    ensures whole { result % 2 ^ bits ≡ 0 }
    ensures positive { bits ≤ F.MAX_SINGLE_SAMPLE_BITS → 0 < result }
{
    uniform_bounds_are_whole::<F>();
    F::sampling_bits_m(bits)
}

// ---- the same at each field, with numbers from elsewhere

fn number<F: PrimeField64>(x: F) -> u64
    ensures { result ≡ F.residues.number x }
{
    x.as_canonical_u64()
}

// What generic code makes of a few elements, by their numbers.
fn numbers<F: ScalarField>() -> [u64; 10] {
    let (three, last) = (F::from_u64(3), F::NEG_ONE);
    [
        number(double(last)),
        number(plus_number(last, 258)),
        number(total(&[last, F::from_u64(5), F::ONE])),
        number(difference_from_one(three)),
        number(product_with_minus_one(three)),
        number_of(round_trip(three)),
        number(default_of::<F>()),
        number(own_coefficient(last)),
        number(added_and_taken(three, last)),
        coefficient_count::<F>() as u64,
    ]
}

#[test]
fn generic_code_runs_at_each_field(rt: HostRuntime) {
    let seen = [
        numbers::<F257>(),
        numbers::<BabyBear>(),
        numbers::<KoalaBear>(),
        numbers::<Goldilocks>(),
    ];
    let (bb, kb, gl) = (2013265921, 2130706433, 18446744069414584321);
    let expected = [
        [255, 0, 5, 255, 254, 3, 0, 256, 3, 1],
        [bb - 2, 257, 5, bb - 2, bb - 3, 3, 0, bb - 1, 3, 1],
        [kb - 2, 257, 5, kb - 2, kb - 3, 3, 0, kb - 1, 3, 1],
        [gl - 2, 257, 5, gl - 2, gl - 3, 3, 0, gl - 1, 3, 1],
    ];
    assert_eq!(rt; seen, expected);
}

// Whether this is the largest number of an element.
fn is_last<F: PrimeField32>(last: u32) -> bool {
    canonical::<F>(last) == Some(F::NEG_ONE)
        && canonical::<F>(last.wrapping_add(1)).is_none()
        && short_round_trip(F::NEG_ONE) == F::NEG_ONE
}

#[test]
fn canonical_numbers_and_bounds_of_uniform_bits(rt: HostRuntime) {
    let last = [
        is_last::<F257>(256),
        is_last::<BabyBear>(2013265920),
        is_last::<KoalaBear>(2130706432),
    ];
    assert_eq!(rt; last, [true; 3]);
    let bounds = [
        whole_bound::<F257>(9),
        whole_bound::<BabyBear>(30),
        whole_bound::<KoalaBear>(25),
        whole_bound::<Goldilocks>(63),
    ];
    assert_eq!(rt; bounds, [0, 1073741824, 2113929216, 9223372036854775808]);
}

#[test]
fn comparisons(rt: HostRuntime) {
    let (one, two) = (BabyBear::ONE, BabyBear::from_u64(2));
    let x: Coeffs<BabyBear, 4> = element_of(two);
    let hold = [
        same(F257::from_u64(300), F257::from_u64(43)),
        same(BabyBear::from_u64(2013265921), BabyBear::ZERO),
        same_element(x, x.with_coefficient(0, two)),
        same_coefficients(Coeffs::new([one, two]), Coeffs::new([one, two])),
        is_below(Goldilocks::ONE, Goldilocks::NEG_ONE),
        F257::ONE < F257::NEG_ONE,
        BabyBear::from_u64(2013265919) < BabyBear::NEG_ONE,
    ];
    let do_not = [
        same(Goldilocks::ONE, Goldilocks::NEG_ONE),
        same_element(x, x.with_coefficient(3, one)),
        same_coefficients(Coeffs::new([one, two]), Coeffs::new([two, one])),
        is_below(Goldilocks::NEG_ONE, Goldilocks::ONE),
        is_below(Goldilocks::ONE, Goldilocks::ONE),
    ];
    assert_eq!(rt; (hold, do_not), ([true; 7], [false; 5]));
}

#[test]
fn elements_are_shown_by_the_names_of_their_fields(rt: HostRuntime) -> Result<(), Fail> {
    let coefficients = Coeffs::new([F257::ONE]).clone()?;
    let elements = (F257::NEG_ONE, BabyBear::ONE, KoalaBear::NEG_ONE);
    let shown = format!(in rt.alloc(); "{elements:?} {coefficients:?}")?;
    assert_eq!(rt;
        shown.as_str(),
        "(F257 { value: 256 }, BabyBear { value: 1 }, KoalaBear { value: 2130706432 }) \
         Coeffs { coefficients: [F257 { value: 1 }] }"
    );
    Ok(())
}
