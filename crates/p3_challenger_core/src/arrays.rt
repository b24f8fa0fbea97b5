//! Arrays drawn from a challenger, place 0 first.
ghost use Rattle.std.specs.Prelude.{◌≡◌, [], length, Some, OnOk, IfOk, IfErr};
ghost use Rattle.p3_challenger_core.specs.Sampling.{draws, after_draws, RefusesDraws};

use crate::{CanSample, ChallengerError};

/// Draws `N` values in order, as [`sample`](CanSample::sample) of each does.
///
/// The errors are those of `sample`. After an error the draws before the refused one are done. In the Rust crate the
/// function is a member of `CanSample`. Here the values are `Copy`.
pub fn sample_array<T: Copy, C: CanSample<T>, const N: usize>(
    challenger: &mut C,
) -> Result<[T; N], ChallengerError>
    ensures drawn { IfOk result
        (λ values. draws C.sampling N (C.state challenger.old) ≡ Some values) }
    ensures places { IfOk result (λ values. length values ≡ N) }
    ensures after { OnOk result
        (C.state challenger.new ≡ after_draws C.sampling N (C.state challenger.old)) }
    ensures err { IfErr result
        (λ e. RefusesDraws C.sampling N e (C.state challenger.old) (C.state challenger.new)) }
{
    if N == 0 {
        return drawn_array(empty_array());
    }
    let mut values = [challenger.sample()?; N];
    for i in 1..N {
        values[i] = challenger.sample()?;
    }
    drawn_array(values)
}

/// An array of length `N` has `N` values, whoever made it.
///
/// A law: the body does nothing, and a caller cites the clause.
pub fn array_has_places<T, const N: usize>(values: &[T; N])
    ensures { length values.now ≡ N }
{
    let _ = &values[..];
}

// The array of no values.
fn empty_array<T: Copy, const N: usize>() -> [T; N]
    requires { N ≡ 0 }
    ensures { result ≡ [] }
{
    let values: &[T] = &[];
    match <[T; N]>::try_from(values) {
        Ok(values) => values,
        Err(_) => unreachable!(),
    }
}

// A result that holds an array of a length that is a parameter.
fn drawn_array<T, const N: usize>(values: [T; N]) -> Result<[T; N], ChallengerError>
    ensures { result ≡ Ok values }
{
    Ok(values)
}
