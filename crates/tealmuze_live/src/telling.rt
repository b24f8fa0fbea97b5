//! What is told of a step that was played.
ghost use Rattle.std.specs.Prelude.{◌≡◌, ◌∷◌, ◌++◌, IfOk, OnOk};
ghost use Rattle.p3_challenger.specs.{Nexts.lent, Scripts.{drawn_of, received_of}, Stepping.one_of};
ghost use Rattle.tealmuze_calls.specs.Forms.{listed_bytes, scalar_bytes, value_bytes, challenge_bytes};

use p3_challenger::fs::script::{Drawn, Received};
use p3_field::PrimeField64;
use std::alloc::{AllocError, Global};
use tealmuze_calls::{Called, DONE, put_challenge, put_number, put_value};

// What is told of most steps has no more bytes: of a scalar that was received, or of a challenge of a few numbers.
const MOST_STEPS: usize = 64;

/// What is told of a step and what stands after its verdict.
#[derive(Drop)]
pub enum Told {
    /// The step was played.
    Played(Vec<u8>),
    /// The step was refused.
    Refused(Vec<u8>),
}

/// What is told where a prover played a step: the witness that was found and what was drawn, each after how many there
/// are, none or one.
pub fn told_of_sent<S: Called>(
    alloc: Global,
    witness: Option<S::Field>,
    drawn: Option<&Drawn<S>>,
) -> Result<Vec<u8>, AllocError>
    ensures { IfOk result (λ bytes. bytes.items
        ≡ 0 ∷ (listed_bytes (scalar_bytes S.Field.residues.number S.Extension.coefficients) (one_of witness)
        ++ listed_bytes (challenge_bytes S.Field.residues.number S.Extension.coefficients)
        (one_of (drawn_of (lent drawn.entry))))) }
{
    let mut bytes = Vec::with_capacity(alloc, MOST_STEPS)?;
    bytes.push(DONE)?;
    put_witness::<S>(&mut bytes, witness)?;
    put_drawn(&mut bytes, drawn)?;
    Ok(bytes)
}

/// What is told where a verifier played a step: what was received and what was drawn, each after how many there are, none
/// or one.
pub fn told_of_received<S: Called>(
    alloc: Global,
    received: Option<&Received<'_, S>>,
    drawn: Option<&Drawn<S>>,
) -> Result<Vec<u8>, AllocError>
    ensures { IfOk result (λ bytes. bytes.items
        ≡ 0 ∷ (listed_bytes (value_bytes S.Field.residues.number S.Extension.coefficients)
        (received_of (lent received.entry))
        ++ listed_bytes (challenge_bytes S.Field.residues.number S.Extension.coefficients)
        (one_of (drawn_of (lent drawn.entry))))) }
{
    let mut bytes = Vec::with_capacity(alloc, MOST_STEPS)?;
    bytes.push(DONE)?;
    put_received(&mut bytes, received)?;
    put_drawn(&mut bytes, drawn)?;
    Ok(bytes)
}

fn put_received<S: Called>(
    to: &mut Vec<u8>,
    received: Option<&Received<'_, S>>,
) -> Result<(), AllocError>
    ensures { OnOk result (to.new.items ≡ to.old.items
        ++ listed_bytes (value_bytes S.Field.residues.number S.Extension.coefficients)
        (received_of (lent received.entry))) }
{
    match received {
        Some(value) => {
            put_number(to, 1)?;
            put_value(to, value)
        }
        None => put_number(to, 0),
    }
}

fn put_witness<S: Called>(to: &mut Vec<u8>, witness: Option<S::Field>) -> Result<(), AllocError>
    ensures { OnOk result (to.new.items ≡ to.old.items
        ++ listed_bytes (scalar_bytes S.Field.residues.number S.Extension.coefficients) (one_of witness)) }
{
    match witness {
        Some(witness) => {
            put_number(to, 1)?;
            put_number(to, witness.as_canonical_u64())
        }
        None => put_number(to, 0),
    }
}

fn put_drawn<S: Called>(to: &mut Vec<u8>, drawn: Option<&Drawn<S>>) -> Result<(), AllocError>
    ensures { OnOk result (to.new.items ≡ to.old.items
        ++ listed_bytes (challenge_bytes S.Field.residues.number S.Extension.coefficients)
        (one_of (drawn_of (lent drawn.entry)))) }
{
    match drawn {
        Some(drawn) => {
            put_number(to, 1)?;
            put_challenge(to, drawn)
        }
        None => put_number(to, 0),
    }
}
