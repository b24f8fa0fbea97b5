// One body that plays either side, over a serializing challenger, with a rule that looks at what was kept before.
//
// The other program's challenger, fed the elements of the seed and the values, draws these numbers.
use p3_challenger::fs::{
    DomainSeparator, FieldToFieldCodec, FieldUnit, Hierarchy, Interaction, InteractionPattern,
    Kind, Label, Length, ProverState, SymmetricSteps, TranscriptError, VerifierState,
};
use p3_challenger::{
    CanObserve, CanSample, CanSampleBits, CanSampleUniformBits, ChallengerError, HashChallenger,
    SerializingChallenger32,
};
use p3_field::{BabyBear, BasedVectorSpace, Coeffs, PrimeCharacteristicRing, PrimeField64};
use p3_symmetric::Sha256Hasher;
use std::alloc::{AllocError, Global};
use std::process::Abort;

// An element of the extension.
type Wide = Coeffs<BabyBear, 4>;

// A coefficient is observed as it is, and is four bytes in the proof.
type Coefficients = FieldToFieldCodec<BabyBear>;

type Separator = DomainSeparator<FieldUnit<BabyBear>, Sha256Hasher>;

type Serializing = SerializingChallenger32<BabyBear, HashChallenger<u8, Sha256Hasher, 32>>;

// What is drawn: an element of four coefficients, two more, and three numbers of four bits.
const DRAWN: [u64; 15] = [
    1250614863, 1432800228, 1677125203, 118615328, 1677720219, 1176659458, 1720940073, 1127836365,
    1495140393, 1834639136, 243065744, 187914306, 5, 12, 7,
];

// What the challenger draws next.
const NEXT: [u64; 2] = [186768178, 1985032048];

fn element(kind: Kind, label: Label, length: Length) -> Interaction {
    Interaction::algebra::<BabyBear, Wide, Sha256Hasher>(Hierarchy::Atomic, kind, label, length)
}

fn separator(alloc: Global) -> Result<Separator, TranscriptError> {
    let pattern = InteractionPattern::new(vec![in alloc;
        Interaction::marker::<()>(Hierarchy::Begin, Kind::Protocol, "block"),
        Interaction::opaque(
            Hierarchy::Atomic,
            Kind::Message,
            "commitment",
            Length::Scalar
        ),
        element(Kind::Message, "value", Length::Scalar),
        element(Kind::Challenge, "point", Length::Scalar),
        element(Kind::Challenge, "points", Length::Fixed(2)),
        Interaction::uniform_bits(
            Hierarchy::Atomic,
            Kind::Challenge,
            "indices",
            4,
            Length::Fixed(3),
        ),
        Interaction::marker::<()>(Hierarchy::End, Kind::Protocol, "block"),
    ]?)?;
    DomainSeparator::new(alloc, 0, b"symmetric-steps", pattern)
}

// ---- by either side

// Observes 7, and 9 in the extension.
fn observe<S: SymmetricSteps>(driver: &mut S) -> Result<(), TranscriptError>
where
    S::Challenger: CanObserve<BabyBear> + CanSample<BabyBear>,
{
    driver.begin_protocol::<()>("block")?;
    driver.observe_opaque("commitment", BabyBear::from_u32(7))?;
    let nine = Wide::from(BabyBear::from_u32(9));
    driver.observe_extension::<BabyBear, Wide, Coefficients>("value", &nine)?;
    Ok(())
}

// Adds the numbers of an element's coefficients.
fn push_numbers(numbers: &mut Vec<u64>, element: &Wide) -> Result<(), AllocError> {
    for coefficient in element.as_basis_coefficients_slice() {
        numbers.push(coefficient.as_canonical_u64())?;
    }
    Ok(())
}

fn draw_points<S: SymmetricSteps>(
    driver: &mut S,
    numbers: &mut Vec<u64>,
) -> Result<(), TranscriptError>
where
    S::Challenger: CanObserve<BabyBear> + CanSample<BabyBear>,
{
    let point = driver.challenge_extension::<BabyBear, Wide, Coefficients>("point")?;
    push_numbers(numbers, point.as_inner())?;
    let is_new = |candidate: &Wide, kept: &[Wide]| !kept.contains(candidate);
    let points = driver.challenge_extensions_rejecting::<BabyBear, Wide, Coefficients, _>(
        "points", 2, &is_new, 8,
    )?;
    for point in points {
        push_numbers(numbers, point.as_inner())?;
    }
    Ok(())
}

fn draw_indices<S: SymmetricSteps>(
    driver: &mut S,
    numbers: &mut Vec<u64>,
) -> Result<(), TranscriptError>
where
    S::Challenger: CanSampleUniformBits<BabyBear>,
{
    let width = S::Challenger::max_bits().min(4);
    for index in driver.challenge_uniform_bits::<BabyBear>("indices", width, 3)? {
        numbers.push(index.into_inner() as u64)?;
    }
    Ok(())
}

// Gives the numbers of all that is drawn.
fn play<S: SymmetricSteps>(driver: &mut S, alloc: Global) -> Result<Vec<u64>, TranscriptError>
where
    S::Challenger: CanObserve<BabyBear> + CanSample<BabyBear> + CanSampleUniformBits<BabyBear>,
{
    let mut numbers = Vec::new(alloc);
    observe(driver)?;
    draw_points(driver, &mut numbers)?;
    draw_indices(driver, &mut numbers)?;
    driver.end_protocol::<()>("block")?;
    Ok(numbers)
}

// ---- by both

// Whether this was drawn, and the numbers of the next two elements are these.
fn drew_all<C: CanSample<BabyBear>>(
    drawn: &[u64],
    challenger: &mut C,
) -> Result<bool, ChallengerError> {
    let first = challenger.sample()?.as_canonical_u64();
    let second = challenger.sample()?.as_canonical_u64();
    Ok(drawn == DRAWN.as_slice() && [first, second] == NEXT)
}

fn proves(
    alloc: Global,
    challenger: Serializing,
    separator: &Separator,
) -> Result<bool, TranscriptError> {
    let mut prover = ProverState::new(alloc, challenger, separator)?;
    let proved = play(&mut prover, alloc);
    let (narg, mut challenger) = prover.finish()?;
    Ok(narg.is_empty() && drew_all(proved?.as_slice(), &mut challenger)?)
}

fn verifies(
    alloc: Global,
    challenger: Serializing,
    separator: &Separator,
) -> Result<bool, TranscriptError> {
    let mut verifier = VerifierState::new(alloc, challenger, separator, b"")?;
    let verified = play(&mut verifier, alloc);
    let mut challenger = verifier.finish()?;
    Ok(drew_all(verified?.as_slice(), &mut challenger)?)
}

fn serializing(alloc: Global) -> Serializing {
    SerializingChallenger32::new(HashChallenger::new(Vec::new(alloc), Sha256Hasher), 1000)
}

fn plays(alloc: Global) -> Result<bool, TranscriptError> {
    let separator = separator(alloc)?;
    let proved = proves(alloc, serializing(alloc), &separator)?;
    Ok(proved && verifies(alloc, serializing(alloc), &separator)?)
}

#[test]
fn one_body_plays_both_sides_over_a_serializing_challenger(rt: HostRuntime) {
    assert!(rt; plays(rt.alloc()) == Ok(true));
}
