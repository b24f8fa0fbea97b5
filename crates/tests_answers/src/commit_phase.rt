// The commit phase of FRI as the script of `uses` plays it.
//
// The other program's challenger, fed the seed and the values, draws these challenges; the layers were folded, and the
// roots hashed, by a program apart from this one.
ghost use Rattle.p3_challenger.specs.{Runs.AreAdmitted, Scripts.play_of};

use p3_challenger::HashChallenger;
use p3_challenger::fs::script::{
    Drawn, Fault, Meaning, ProveByError, Sent, Step, Suite, admitted, carried_len, prove_by,
};
use p3_challenger::fs::{PatternError, TranscriptError};
use p3_field::{BabyBear, PrimeCharacteristicRing, PrimeField64};
use p3_symmetric::Sha256Hasher;
use std::alloc::{AllocError, Global};
use std::process::Abort;
use uses::fri_script::{FoldError, Fri, Separator, prove, separator, steps, verify};

// The values of the first layer.
const FIRST: [u32; 8] = [3, 1, 4, 1, 5, 9, 2, 6];

// What folds each layer.
const BETAS: [u64; 3] = [1411869441, 2011504951, 95296078];

// The first four bytes of each root, and the value that is left.
const ROOTS: [[u8; 4]; 3] = [
    [0x6d, 0x6a, 0x11, 0x8c],
    [0x88, 0x09, 0x6f, 0x03],
    [0xc2, 0x75, 0xa4, 0x00],
];

const CONSTANT: u64 = 1690340231;

// ---- what is proved

// Whether these are the roots and the constant.
fn are_messages(sent: &[Sent<Fri>]) -> bool {
    match sent {
        [
            Sent::Bytes(first),
            Sent::Bytes(second),
            Sent::Bytes(third),
            Sent::Scalar(constant),
        ] => {
            let [one, two, three] = ROOTS;
            first.starts_with(&one)
                && second.starts_with(&two)
                && third.starts_with(&three)
                && constant.as_canonical_u64() == CONSTANT
        }
        _ => false,
    }
}

// Whether these are the challenges.
fn are_betas(challenges: &[Drawn<Fri>]) -> bool {
    let mut expected = BETAS.iter();
    for drawn in challenges {
        let Drawn::Scalars(betas) = drawn else {
            return false;
        };
        for beta in betas {
            if expected.next() != Some(&beta.as_canonical_u64()) {
                return false;
            }
        }
    }
    expected.next().is_none()
}

fn first_layer(alloc: Global) -> Result<Vec<BabyBear>, AllocError> {
    let mut layer = Vec::new(alloc);
    for number in FIRST {
        layer.push(BabyBear::from_u32(number))?;
    }
    Ok(layer)
}

// Whether the commit phase is proved so, and the proof accepted.
fn commits(alloc: Global) -> Result<bool, TranscriptError> {
    let steps = steps(alloc, BETAS.len())?;
    let separator = separator(alloc, &steps)?;
    if !admitted::<Fri>(&steps) || carried_len(&steps) != 0 {
        return Ok(false);
    }
    let Ok(answered) = prove(alloc, &separator, &steps, first_layer(alloc)?) else {
        return Ok(false);
    };
    let proved = answered.proved;
    let so = are_messages(&answered.sent) && are_betas(&proved.challenges);
    match verify(alloc, &separator, &steps, &proved.narg) {
        Ok(verified) => Ok(so && are_betas(&verified.challenges)),
        Err(_) => Ok(false),
    }
}

#[test]
fn roots_depend_on_the_challenges_before_them(rt: HostRuntime) {
    assert!(rt; commits(rt.alloc()) == Ok(true));
}

// ---- what is not

fn zeros(alloc: Global, count: usize) -> Result<Vec<u8>, AllocError> {
    let mut zeros = Vec::new(alloc);
    for _ in 0..count {
        zeros.push(0)?;
    }
    Ok(zeros)
}

// As many bytes as a root has at the first step, and one less later; or an error.
fn short_root(alloc: Global, position: usize, gives_up: bool) -> Result<Sent<Fri>, FoldError> {
    if position == 1 {
        return Ok(Sent::Bytes(zeros(alloc, 32)?));
    }
    if gives_up {
        return Err(FoldError::OtherSteps);
    }
    Ok(Sent::Bytes(zeros(alloc, 31)?))
}

// Why the commit phase stops where the second root is short, or not given.
fn stop(
    alloc: Global,
    separator: &Separator,
    steps: &[Step<Fri>],
    gives_up: bool,
) -> Option<ProveByError<FoldError>>
    requires { AreAdmitted (play_of (⟦<Fri as Meaning>⟧.rules 1)) steps.now }
{
    prove_by::<Fri, FoldError, _>(
        alloc,
        HashChallenger::new(Vec::new(alloc), Sha256Hasher),
        separator,
        steps,
        move |position: usize, _challenges: &[Drawn<Fri>]| short_root(alloc, position, gives_up),
    )
    .err()
}

// Whether it stops so, and a script of more rounds than the separator has is refused where they differ.
fn stops(alloc: Global) -> Result<bool, TranscriptError> {
    let fewer = steps(alloc, 2)?;
    let steps = steps(alloc, BETAS.len())?;
    let whole = separator(alloc, &steps)?;
    let shorter = separator(alloc, &fewer)?;
    if !admitted::<Fri>(&steps) {
        return Ok(false);
    }
    let unfit = stop(alloc, &whole, &steps, false) == Some(ProveByError::Unfit { position: 3 });
    let unanswered = stop(alloc, &whole, &steps, true)
        == Some(ProveByError::Unanswered {
            position: 3,
            error: FoldError::OtherSteps,
        });
    let refused = matches!(
        prove(alloc, &shorter, &steps, first_layer(alloc)?),
        Err(ProveByError::Refused(Fault {
            position: 5,
            error: TranscriptError::Pattern(PatternError::WrongStep { .. }),
        })),
    );
    Ok(unfit && unanswered && refused)
}

#[test]
fn a_prover_stops_where_no_value_fits(rt: HostRuntime) {
    assert!(rt; stops(rt.alloc()) == Ok(true));
}
