//! The commit phase of FRI, and its queries, on any challenger. A prover of a polynomial commitment calls the
//! challenger itself here: its proof is a struct, and no typed transcript is played.
//!
//! Merkle caps are observed one after another, and a challenge in an extension is drawn after each. A proof of work
//! follows, and then distinct indices are drawn as uniform bits. [`prove`] and [`verify`] differ in one call, and have
//! one contract: their results are drawn from what was observed, in this order.
ghost use Rattle.std.specs.Prelude.{◌≡◌, ◌≤◌, List, true, IfOk, IfSome, OnOk};
ghost use Rattle.p3_challenger.specs.{Checks.{all_zero, check_of}, Sampling.in_row};
ghost use Rattle.uses.specs.CommitPhase.{AreDrawnInTurn, AreQueries, IsCommitPhase, kept_with};
ghost use Rattle.uses.specs.declared.commit_phase.{Challenges.Challenges, Demands.Demands};

use p3_challenger::{
    CanObserve, CanSampleUniformBits, ChallengerError, FieldChallenger, GrindingChallenger,
    UniformBitsError,
};
use p3_field::{BasedVectorSpace, PrimeField64};
use std::alloc::Global;

/// The parameters of a commit phase.
#[derive(Clone, Copy)]
pub struct Demands {
    /// The number of bits of the proof of work.
    pub work_bits: usize,
    /// The number of bits of an index.
    pub index_bits: usize,
    /// The number of indices to draw.
    pub queries: usize,
}

/// The values drawn in a commit phase.
#[derive(Debug, Drop)]
pub struct Challenges<EF> {
    /// The challenge after each cap, at which the prover folds.
    pub folds: Vec<EF>,
    /// The indices that the verifier queries.
    pub queries: Vec<usize>,
}

/// A commit phase, as contracts see it. Every challenger of the calls below implements this trait, so no function needs
/// the bound.
pub trait CommitPhase<EF, Cap>: GrindingChallenger {
    // After each cap its challenge is drawn. Then the witness passes, and the queries are drawn.
    ghost is_phase: { Demands → List Cap → Self.Witness → Challenges EF → Self.State → Self.State → Type 0 };
}

impl<
    EF: BasedVectorSpace<C::Witness>,
    Cap: Copy,
    C: GrindingChallenger
        + FieldChallenger<C::Witness>
        + CanObserve<Cap>
        + CanSampleUniformBits<C::Witness>,
> CommitPhase<EF, Cap> for C {
    ghost is_phase = { λ demands caps witness challenges. IsCommitPhase
        (AreDrawnInTurn ⟦<C as CanObserve<Cap>>⟧.observation.observed (in_row C.sampling EF.DIMENSION)
        EF.coefficients caps challenges.folds.items)
        (check_of C.before_witness ⟦<C as CanObserve<C::Witness>>⟧.observation
        (all_zero (C.bits_sampling demands.work_bits)) demands.work_bits witness)
        (AreQueries (C.uniform true demands.index_bits).draw demands.queries challenges.queries.items) };
}

/// Observes the caps of a prover, and searches for its witness. A cap is the value observed in a round, usually a
/// `&MerkleCap`. The number of roots in a cap is not absorbed with the cap. So the protocol has to fix that number, or
/// the caller has to observe it first: caps of different lengths are no prefix code.
///
/// The errors are those of the challenger, including a missing witness and out of memory. The error is
/// [`ChallengerError::DrawLimit`] where fewer than 1000 draws do not find the queries.
///
/// Condition: the challenger can draw as many bits at once as the work and an index have.
pub fn prove<
    EF: BasedVectorSpace<C::Witness> + Drop,
    Cap: Copy,
    C: GrindingChallenger
        + FieldChallenger<C::Witness>
        + CanObserve<Cap>
        + CanSampleUniformBits<C::Witness>,
>(
    alloc: Global,
    challenger: &mut C,
    caps: &[Cap],
    demands: Demands,
) -> Result<(C::Witness, Challenges<EF>), UniformBitsError>
    requires work { demands.work_bits ≤ C.most_bits }
    requires index { demands.index_bits ≤ C.most_bits }
    ensures { IfOk result (λ sent. ⟦<C as CommitPhase<EF, Cap>>⟧.is_phase demands caps.now sent.0 sent.1
        (C.state challenger.old) (C.state challenger.new)) }
{
    let folds = fold_challenges::<C::Witness, EF, Cap, C>(alloc, challenger, caps)?;
    let witness = challenger.grind(demands.work_bits)?;
    let queries = query_indices::<C::Witness, C>(alloc, challenger, demands)?;
    Ok((witness, Challenges { folds, queries }))
}

/// Observes the caps of a proof, and checks its witness. The result is `None` where the witness does not pass.
///
/// The errors are those of the challenger, including out of memory. The error is [`ChallengerError::DrawLimit`] where
/// fewer than 1000 draws do not find the queries.
///
/// Condition: the challenger can draw as many bits at once as the work and an index have.
pub fn verify<
    EF: BasedVectorSpace<C::Witness> + Drop,
    Cap: Copy,
    C: GrindingChallenger
        + FieldChallenger<C::Witness>
        + CanObserve<Cap>
        + CanSampleUniformBits<C::Witness>,
>(
    alloc: Global,
    challenger: &mut C,
    caps: &[Cap],
    witness: C::Witness,
    demands: Demands,
) -> Result<Option<Challenges<EF>>, UniformBitsError>
    requires work { demands.work_bits ≤ C.most_bits }
    requires index { demands.index_bits ≤ C.most_bits }
    ensures { IfOk result (λ found. IfSome found (λ challenges. ⟦<C as CommitPhase<EF, Cap>>⟧.is_phase demands caps.now
        witness challenges (C.state challenger.old) (C.state challenger.new))) }
{
    let folds = fold_challenges::<C::Witness, EF, Cap, C>(alloc, challenger, caps)?;
    if !challenger.check_witness(demands.work_bits, witness)? {
        return Ok(None);
    }
    let queries = query_indices::<C::Witness, C>(alloc, challenger, demands)?;
    Ok(Some(Challenges { folds, queries }))
}

// Both sides observe the caps, and draw a challenge after each.
fn fold_challenges<
    F: PrimeField64,
    EF: BasedVectorSpace<F> + Drop,
    Cap: Copy,
    C: FieldChallenger<F> + CanObserve<Cap>,
>(alloc: Global, challenger: &mut C, caps: &[Cap]) -> Result<Vec<EF>, ChallengerError>
    ensures { IfOk result (λ folds. AreDrawnInTurn ⟦<C as CanObserve<Cap>>⟧.observation.observed
        (in_row C.sampling EF.DIMENSION) EF.coefficients caps.now folds.items
        (C.state challenger.old) (C.state challenger.new)) }
{
    let mut folds = Vec::new(alloc);
    for cap in caps {
        challenger.observe(*cap)?;
        folds.push(challenger.sample_algebra_element::<EF>()?)?;
    }
    Ok(folds)
}

// Fewer draws than these are to find the queries.
const DRAWS: u64 = 1000;

// Both sides draw indices until there are enough, and pass over those that came before.
fn query_indices<F, C: CanSampleUniformBits<F>>(
    alloc: Global,
    challenger: &mut C,
    demands: Demands,
) -> Result<Vec<usize>, UniformBitsError>
    requires { demands.index_bits ≤ C.most_bits }
    ensures { IfOk result (λ queries. AreQueries (C.uniform true demands.index_bits).draw demands.queries queries.items
        (C.state challenger.old) (C.state challenger.new)) }
{
    let mut queries: Vec<usize> = Vec::new(alloc);
    for _ in 0..DRAWS {
        if queries.len() == demands.queries {
            return Ok(queries);
        }
        keep(
            &mut queries,
            challenger.sample_uniform_bits(demands.index_bits, true)?,
        )?;
    }
    Err(ChallengerError::DrawLimit.into())
}

// Keeps an index that did not come before.
fn keep(queries: &mut Vec<usize>, index: usize) -> Result<(), ChallengerError>
    ensures { OnOk result (queries.new.items ≡ kept_with queries.old.items index) }
{
    if !queries.contains(&index) {
        queries.push(index)?;
    }
    Ok(())
}
