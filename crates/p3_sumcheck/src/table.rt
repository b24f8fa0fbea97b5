//! Tables of values: their sums, and their folds in place.
ghost use Rattle.std.specs.Prelude.{◌≡◌, ◌≤◌, ◌/◌, ◌↔◌, IsTrue, length, take};
ghost use Rattle.p3_field.specs.Residues.{sum_of};
ghost use Rattle.p3_sumcheck.specs.Tables as tables;

use p3_field::PrimeField64;

/// Returns the value at `x` of the line through `a` at 0 and `b` at 1.
pub(crate) fn value_at<F: PrimeField64>(x: F, a: F, b: F) -> F
    ensures { result ≡ tables.value_at F.residues x a b }
{
    a + x * (b - a)
}

/// Returns whether the pair adds up to the claim.
pub(crate) fn adds<F: PrimeField64>(first: F, second: F, claim: F) -> bool
    ensures { IsTrue result ↔ sum_of F.residues first second ≡ claim }
{
    first + second == claim
}

/// Returns the sum of the values: the claim of a sumcheck of a table.
pub fn sum<F: PrimeField64>(values: &[F]) -> F
    ensures { result ≡ tables.total F.residues values.now }
{
    let mut total = F::ZERO;
    for value in values {
        total = total + *value;
    }
    total
}

/// Returns the sums of the two halves of a table, in one pass over both.
pub(crate) fn sums_of_halves<F: PrimeField64>(table: &[F]) -> (F, F)
    ensures first { result.0 ≡ tables.total F.residues (tables.low_half table.now) }
    ensures second { result.1 ≡ tables.total F.residues (tables.high_half table.now) }
{
    let (low, high) = table.split_at(table.len() / 2);
    let (front, rest) = high.split_at(low.len());
    let (first, second) = sums_of_two(low, front);
    (first, second + sum(rest))
}

// The sums of two lists of one length. In one pass, since then the additions of one list do not
// wait for those of the other.
fn sums_of_two<F: PrimeField64>(first: &[F], second: &[F]) -> (F, F)
    requires { length first.now ≡ length second.now }
    ensures first { result.0 ≡ tables.total F.residues first.now }
    ensures second { result.1 ≡ tables.total F.residues second.now }
{
    let mut one = F::ZERO;
    let mut other = F::ZERO;
    for i in 0..first.len() {
        one = one + first[i];
        other = other + second[i];
    }
    (one, other)
}

/// Folds a table at `x` in place, in one pass, and returns the sums of the two halves of the
/// result.
pub(crate) fn fold<F: PrimeField64>(table: &mut Vec<F>, x: F) -> (F, F)
    ensures folded { table.new.items ≡ tables.folded F.residues x table.old.items }
    ensures first { result.0 ≡ tables.total F.residues (tables.low_half table.new.items) }
    ensures second { result.1 ≡ tables.total F.residues (tables.high_half table.new.items) }
{
    let half = table.len() / 2;
    let sums = fold_halves(table, half, x);
    table.truncate(half);
    sums
}

// Folds the high half of a table onto its low one, and gives the sums of the two halves of that.
fn fold_halves<F: PrimeField64>(table: &mut [F], half: usize, x: F) -> (F, F)
    requires { half ≡ length table.old / 2 }
    ensures folded { take half table.new ≡ tables.folded F.residues x table.old }
    ensures len { length table.new ≡ length table.old }
    ensures first { let folded = tables.folded F.residues x table.old in
        result.0 ≡ tables.total F.residues (tables.low_half folded) }
    ensures second { let folded = tables.folded F.residues x table.old in
        result.1 ≡ tables.total F.residues (tables.high_half folded) }
{
    let quarter = half / 2;
    let (low, high) = table.split_at_mut(half);
    let (low_front, low_back) = low.split_at_mut(quarter);
    let (high_front, high_back) = high.split_at(quarter);
    let first = fold_onto(low_front, high_front, x);
    let second = fold_onto(low_back, high_back, x);
    (first, second)
}

// Folds the values of `high` onto those of `low`, place by place, and gives the sum of what is
// there then.
fn fold_onto<F: PrimeField64>(low: &mut [F], high: &[F], x: F) -> F
    requires { length low.old ≤ length high.now }
    ensures folded { low.new ≡ tables.fold_pairs F.residues x low.old high.now }
    ensures sum { result ≡ tables.total F.residues low.new }
{
    let mut total = F::ZERO;
    for i in 0..low.len() {
        let value = value_at(x, low[i], high[i]);
        low[i] = value;
        total = total + value;
    }
    total
}
