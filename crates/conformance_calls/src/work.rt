// Uniform bits and proofs of work on a challenger, through its bounds.
use crate::subject::{Subject, Way, most_bits};
use anyhow::{Result, bail};
use conformance_tokens::symbol::element;
use p3_field::PrimeField64;
use p3_grinding::{
    CanSampleUniformBits, GrindingChallenger, UniformBitsError, UniformGrindingChallenger,
};
use std::alloc::Global;

/// A draw of uniform bits, or a proof of work.
#[derive(Clone, Copy)]
pub enum WorkCall {
    /// `u n`: a number of so many uniform bits. `ue n`: the same where no value is drawn in the place of a
    /// rejected one.
    UniformBits { bits: usize, resample: bool },
    /// `g n`, `c n w`: a proof of work.
    Plain(Work),
    /// `gu n`, `cu n w`: a proof of work on uniform bits. `gue n`, `cue n w`: the same where no value is drawn in
    /// the place of a rejected one.
    Uniform { work: Work, resample: bool },
}

/// A proof of work on so many bits.
#[derive(Clone, Copy)]
pub struct Work {
    bits: usize,
    // The number of the witness that is checked; without one the least that passes is searched for.
    witness: Option<u64>,
}

impl WorkCall {
    /// Reads a call.
    pub fn parse(name: &str, words: &str) -> Result<WorkCall> {
        match name {
            "u" | "ue" => {
                let bits = words.parse()?;
                let resample = name == "u";
                Ok(WorkCall::UniformBits { bits, resample })
            }
            "g" | "c" => Ok(WorkCall::Plain(Work::parse(words)?)),
            _ => {
                let work = Work::parse(words)?;
                let resample = !name.ends_with('e');
                Ok(WorkCall::Uniform { work, resample })
            }
        }
    }
}

impl Work {
    fn parse(words: &str) -> Result<Work> {
        match words.split_once(' ') {
            Some((bits, witness)) => {
                let (bits, witness) = (bits.parse()?, Some(witness.parse()?));
                Ok(Work { bits, witness })
            }
            None => {
                let bits = words.parse()?;
                Ok(Work {
                    bits,
                    witness: None,
                })
            }
        }
    }
}

/// Draws uniform bits: their number, or `E value m` of a value that is rejected because it is not below m.
pub fn uniform_bits<F, C: CanSampleUniformBits<F>>(
    alloc: Global,
    subject: &mut Subject<C>,
    bits: usize,
    resample: bool,
) -> Result<String> {
    with_challenger!(subject, challenger => bits_on::<F, _>(alloc, challenger, bits, resample))
}

fn bits_on<F, C: CanSampleUniformBits<F>>(
    alloc: Global,
    challenger: &mut C,
    bits: usize,
    resample: bool,
) -> Result<String> {
    if bits > most_bits(challenger) {
        bail!("more bits than one draw has");
    }
    match challenger.sample_uniform_bits(bits, resample) {
        Ok(number) => Ok(number.to_string(alloc)?),
        Err(UniformBitsError::Resampling(error)) => {
            let (value, bound) = (error.value(), error.m());
            Ok(format!(in alloc; "E {value} {bound}")?)
        }
        Err(UniformBitsError::Challenger(error)) => Err(error.into()),
    }
}

/// A proof of work: the number of the least witness, or whether the one that is checked passes.
pub fn plain_work<C: GrindingChallenger>(
    alloc: Global,
    subject: &mut Subject<C>,
    work: Work,
) -> Result<String> {
    with_challenger!(subject, challenger => work_on(alloc, challenger, work))
}

fn work_on<C: GrindingChallenger>(alloc: Global, challenger: &mut C, work: Work) -> Result<String> {
    let bits = work.bits;
    if bits > most_bits(challenger) {
        bail!("more bits than one draw has");
    }
    match work.witness {
        Some(number) => {
            let passes = challenger.check_witness(bits, element(number)?)?;
            Ok(passes.to_string(alloc)?)
        }
        None => Ok(challenger.grind(bits)?.as_canonical_u64().to_string(alloc)?),
    }
}

/// The same on uniform bits. (A reference to a challenger has no such proof of work.)
pub fn uniform_work<C: UniformGrindingChallenger>(
    alloc: Global,
    challenger: &mut C,
    work: Work,
    resample: bool,
) -> Result<String> {
    let bits = work.bits;
    if bits > most_bits(challenger) {
        bail!("more bits than one draw has");
    }
    match work.witness {
        Some(number) => {
            let witness = element(number)?;
            let passes = if resample {
                challenger.check_witness_uniform(bits, witness)?
            } else {
                challenger.check_witness_uniform_may_error(bits, witness)?
            };
            Ok(passes.to_string(alloc)?)
        }
        None => {
            let witness = if resample {
                challenger.grind_uniform(bits)?
            } else {
                challenger.grind_uniform_may_error(bits)?
            };
            Ok(witness.as_canonical_u64().to_string(alloc)?)
        }
    }
}
