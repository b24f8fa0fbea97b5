// Sums, differences and products in the extensions of degree 4, through the bound and against rows from Python.
ghost use Rattle.std.specs.Prelude.{◌≡◌};
ghost use Rattle.p3_field.specs.BinomialExtensions.{polynomial_sum, polynomial_difference, polynomial_product};

use p3_field::{
    BabyBear, BasedVectorSpace, BinomialExtensionField, BinomialModulus, KoalaBear, PrimeField64,
    extensions_are_rings,
};

// ---- what generic code knows: each of these is proved from its bound alone

fn sum<F: BinomialModulus<4>>(
    x: BinomialExtensionField<F, 4>,
    y: BinomialExtensionField<F, 4>,
) -> BinomialExtensionField<F, 4>
    ensures { result ≡ polynomial_sum F.residues x y }
{
    x + y
}

fn difference<F: BinomialModulus<4>>(
    x: BinomialExtensionField<F, 4>,
    y: BinomialExtensionField<F, 4>,
) -> BinomialExtensionField<F, 4>
    ensures { result ≡ polynomial_difference F.residues x y }
{
    x - y
}

fn product<F: BinomialModulus<4>>(
    x: BinomialExtensionField<F, 4>,
    y: BinomialExtensionField<F, 4>,
) -> BinomialExtensionField<F, 4>
    ensures { result ≡ polynomial_product F.residues (F.residues.of F.W) y x }
{
    extensions_are_rings::<F>();
    x * y
}

// ---- the same at each field, with numbers from elsewhere

fn element<F: PrimeField64>(numbers: [u64; 4]) -> BinomialExtensionField<F, 4> {
    let [a, b, c, d] = numbers;
    BinomialExtensionField::new([
        F::from_u64(a),
        F::from_u64(b),
        F::from_u64(c),
        F::from_u64(d),
    ])
}

fn numbers<F: PrimeField64>(x: BinomialExtensionField<F, 4>) -> [u64; 4] {
    let coefficients = x.as_basis_coefficients_slice();
    let mut numbers = [0; 4];
    for i in 0..coefficients.len() {
        numbers[i] = coefficients[i].as_canonical_u64();
    }
    numbers
}

// Two elements, their sum, their difference and their product.
type Row = [[u64; 4]; 5];

// The row of the two elements that this one begins with.
fn baby_bear_row(known: Row) -> Row {
    let (x, y) = (element::<BabyBear>(known[0]), element(known[1]));
    [
        known[0],
        known[1],
        numbers(sum(x, y)),
        numbers(difference(x, y)),
        numbers(product(x, y)),
    ]
}

// The same over the other field.
fn koala_bear_row(known: Row) -> Row {
    let (x, y) = (element::<KoalaBear>(known[0]), element(known[1]));
    [
        known[0],
        known[1],
        numbers(sum(x, y)),
        numbers(difference(x, y)),
        numbers(product(x, y)),
    ]
}

const BABY_BEAR: [Row; 4] = [
    [
        [506909419, 651328766, 221547363, 1548801510],
        [850528596, 1028383521, 332800429, 193488809],
        [1357438015, 1679712287, 554347792, 1742290319],
        [1669646744, 1636211166, 1902012855, 1355312701],
        [1141505621, 1148650250, 784803262, 215679735],
    ],
    [
        [142840088, 42557065, 862410139, 1179831475],
        [1971293444, 621429685, 1718958335, 1643174188],
        [100867611, 663986750, 568102553, 809739742],
        [184812565, 1434393301, 1156717725, 1549923208],
        [802883325, 465161550, 990469869, 96443699],
    ],
    [
        [2013265920, 2013265920, 2013265920, 2013265920],
        [2013265920, 2013265920, 2013265920, 2013265920],
        [2013265919, 2013265919, 2013265919, 2013265919],
        [0, 0, 0, 0],
        [34, 24, 14, 4],
    ],
    [
        [0, 1, 0, 0],
        [0, 0, 0, 1],
        [0, 1, 0, 1],
        [0, 1, 0, 2013265920],
        [11, 0, 0, 0],
    ],
];

const KOALA_BEAR: [Row; 4] = [
    [
        [126373091, 476587126, 1117420075, 1152511543],
        [773620057, 594171453, 1674490825, 370794245],
        [899993148, 1070758579, 661204467, 1523305788],
        [1483459467, 2013122106, 1573635683, 781717298],
        [845173472, 270497330, 1719800128, 930085547],
    ],
    [
        [1775693413, 228026887, 562038512, 460421413],
        [2024989799, 1991738756, 55060788, 1780092246],
        [1669976779, 89059210, 617099300, 109807226],
        [1881410047, 366994564, 506977724, 811035600],
        [1513918426, 804179495, 1342161971, 9368674],
    ],
    [
        [2130706432, 2130706432, 2130706432, 2130706432],
        [2130706432, 2130706432, 2130706432, 2130706432],
        [2130706431, 2130706431, 2130706431, 2130706431],
        [0, 0, 0, 0],
        [10, 8, 6, 4],
    ],
    [
        [0, 1, 0, 0],
        [0, 0, 0, 1],
        [0, 1, 0, 1],
        [0, 1, 0, 2130706432],
        [3, 0, 0, 0],
    ],
];

// The rows are from Python's integers: two loops add x_i y_j at place (i + j) % 4, and W times that where i + j is at
// least 4, and then each number is reduced. Two rows of random elements, of -1 in all places, and of X and X^3.
#[test]
fn extensions_compute_as_polynomials_do(rt: HostRuntime) {
    for i in 0..4 {
        assert_eq!(rt; baby_bear_row(BABY_BEAR[i]), BABY_BEAR[i]);
        assert_eq!(rt; koala_bear_row(KOALA_BEAR[i]), KOALA_BEAR[i]);
    }
}
