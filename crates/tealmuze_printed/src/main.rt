//! The code that `tealmuze rust` prints of the files of `data`, and a program that tells what comes of it: of each file the
//! digest of the pattern, and the challenges, where the protocol sends no values.
#![tactic(auto)]

mod baby_bear_bytes;
mod baby_bear_bytes_keccak;
mod baby_bear_elements;
mod baby_bear_elements_keccak;
mod baby_bear_in_goldilocks_poseidon2;
mod baby_bear_poseidon2;
mod goldilocks_bytes;
mod goldilocks_elements;
mod goldilocks_elements_keccak;
mod goldilocks_poseidon2;

use anyhow::Result;
use p3_challenger::fs::script::{Drawn, Step, Suite};
use p3_challenger::fs::{DomainSeparator, TranscriptError, Unit};
use p3_field::{BasedVectorSpace, PrimeField64};
use p3_symmetric::DigestHasher;
use script_lines::playing::prove_steps;
use std::alloc::Global;

fn main(rt: HostRuntime) -> Result<()> {
    of_bytes(&rt)?;
    of_elements(&rt)?;
    of_permutations(&rt)
}

// The modules of printed code.
#[derive(Clone, Copy)]
enum Module {
    BabyBearBytes,
    BabyBearBytesKeccak,
    GoldilocksBytes,
    BabyBearElements,
    BabyBearElementsKeccak,
    GoldilocksElements,
    GoldilocksElementsKeccak,
    BabyBearPoseidon2,
    GoldilocksPoseidon2,
    BabyBearInGoldilocksPoseidon2,
}

impl Module {
    fn name(self) -> &'static str {
        match self {
            Module::BabyBearBytes => "baby_bear_bytes",
            Module::BabyBearBytesKeccak => "baby_bear_bytes_keccak",
            Module::GoldilocksBytes => "goldilocks_bytes",
            Module::BabyBearElements => "baby_bear_elements",
            Module::BabyBearElementsKeccak => "baby_bear_elements_keccak",
            Module::GoldilocksElements => "goldilocks_elements",
            Module::GoldilocksElementsKeccak => "goldilocks_elements_keccak",
            Module::BabyBearPoseidon2 => "baby_bear_poseidon2",
            Module::GoldilocksPoseidon2 => "goldilocks_poseidon2",
            Module::BabyBearInGoldilocksPoseidon2 => "baby_bear_in_goldilocks_poseidon2",
        }
    }

    // What the module's code binds a transcript of these steps to.
    fn separator<S: Suite>(
        self,
        alloc: Global,
        steps: &[Step<S>],
    ) -> Result<DomainSeparator<S::Unit, S::Digest>, TranscriptError> {
        match self {
            Module::BabyBearBytes => baby_bear_bytes::separator(alloc, steps),
            Module::BabyBearBytesKeccak => baby_bear_bytes_keccak::separator(alloc, steps),
            Module::GoldilocksBytes => goldilocks_bytes::separator(alloc, steps),
            Module::BabyBearElements => baby_bear_elements::separator(alloc, steps),
            Module::BabyBearElementsKeccak => baby_bear_elements_keccak::separator(alloc, steps),
            Module::GoldilocksElements => goldilocks_elements::separator(alloc, steps),
            Module::GoldilocksElementsKeccak => goldilocks_elements_keccak::separator(alloc, steps),
            Module::BabyBearPoseidon2 => baby_bear_poseidon2::separator(alloc, steps),
            Module::GoldilocksPoseidon2 => goldilocks_poseidon2::separator(alloc, steps),
            Module::BabyBearInGoldilocksPoseidon2 => baby_bear_in_goldilocks_poseidon2::separator(
                alloc, steps,
            ),
        }
    }
}

fn of_bytes(rt: &HostRuntime) -> Result<()> {
    of_baby_bear_bytes(rt)?;
    of_baby_bear_bytes_keccak(rt)?;
    of_goldilocks_bytes(rt)
}

fn of_baby_bear_bytes(rt: &HostRuntime) -> Result<()> {
    let challenger = baby_bear_bytes::challenger(rt.alloc());
    let steps = baby_bear_bytes::steps(rt.alloc())?;
    tell::<baby_bear_bytes::Protocol>(rt, Module::BabyBearBytes, challenger, &steps)
}

fn of_baby_bear_bytes_keccak(rt: &HostRuntime) -> Result<()> {
    let challenger = baby_bear_bytes_keccak::challenger(rt.alloc());
    tell::<baby_bear_bytes_keccak::Protocol>(
        rt,
        Module::BabyBearBytesKeccak,
        challenger,
        &baby_bear_bytes_keccak::steps(),
    )
}

fn of_goldilocks_bytes(rt: &HostRuntime) -> Result<()> {
    let challenger = goldilocks_bytes::challenger(rt.alloc());
    let steps = goldilocks_bytes::steps(rt.alloc())?;
    tell::<goldilocks_bytes::Protocol>(rt, Module::GoldilocksBytes, challenger, &steps)
}

fn of_elements(rt: &HostRuntime) -> Result<()> {
    of_baby_bear_elements(rt)?;
    of_baby_bear_elements_keccak(rt)?;
    of_goldilocks_elements(rt)?;
    of_goldilocks_elements_keccak(rt)
}

fn of_baby_bear_elements(rt: &HostRuntime) -> Result<()> {
    let challenger = baby_bear_elements::challenger(rt.alloc());
    tell::<baby_bear_elements::Protocol>(
        rt,
        Module::BabyBearElements,
        challenger,
        &baby_bear_elements::steps(),
    )
}

fn of_baby_bear_elements_keccak(rt: &HostRuntime) -> Result<()> {
    let challenger = baby_bear_elements_keccak::challenger(rt.alloc());
    let steps = baby_bear_elements_keccak::steps(rt.alloc())?;
    tell::<baby_bear_elements_keccak::Protocol>(
        rt,
        Module::BabyBearElementsKeccak,
        challenger,
        &steps,
    )
}

fn of_goldilocks_elements(rt: &HostRuntime) -> Result<()> {
    let challenger = goldilocks_elements::challenger(rt.alloc());
    tell::<goldilocks_elements::Protocol>(
        rt,
        Module::GoldilocksElements,
        challenger,
        &goldilocks_elements::steps(),
    )
}

fn of_goldilocks_elements_keccak(rt: &HostRuntime) -> Result<()> {
    let challenger = goldilocks_elements_keccak::challenger(rt.alloc());
    tell::<goldilocks_elements_keccak::Protocol>(
        rt,
        Module::GoldilocksElementsKeccak,
        challenger,
        &goldilocks_elements_keccak::steps(),
    )
}

fn of_permutations(rt: &HostRuntime) -> Result<()> {
    of_baby_bear_poseidon2(rt)?;
    of_goldilocks_poseidon2(rt)?;
    of_baby_bear_in_goldilocks_poseidon2(rt)
}

fn of_baby_bear_poseidon2(rt: &HostRuntime) -> Result<()> {
    let challenger = baby_bear_poseidon2::challenger();
    tell::<baby_bear_poseidon2::Protocol>(
        rt,
        Module::BabyBearPoseidon2,
        challenger,
        &baby_bear_poseidon2::steps(),
    )
}

fn of_goldilocks_poseidon2(rt: &HostRuntime) -> Result<()> {
    let challenger = goldilocks_poseidon2::challenger();
    let steps = goldilocks_poseidon2::steps(rt.alloc())?;
    tell::<goldilocks_poseidon2::Protocol>(rt, Module::GoldilocksPoseidon2, challenger, &steps)
}

fn of_baby_bear_in_goldilocks_poseidon2(rt: &HostRuntime) -> Result<()> {
    let challenger = baby_bear_in_goldilocks_poseidon2::challenger()?;
    let steps = baby_bear_in_goldilocks_poseidon2::steps(rt.alloc())?;
    tell::<baby_bear_in_goldilocks_poseidon2::Protocol>(
        rt,
        Module::BabyBearInGoldilocksPoseidon2,
        challenger,
        &steps,
    )
}

// Prints the name of a module, the digest of the pattern, and the challenges, where no values are sent.
fn tell<S: Suite>(
    rt: &HostRuntime,
    module: Module,
    challenger: S::Challenger,
    steps: &[Step<S>],
) -> Result<()> {
    let alloc = rt.alloc();
    let separator = module.separator(alloc, steps)?;
    let mut told = digest_of(alloc, &separator)?;
    let sent = Vec::new(alloc);
    if let Ok(Ok(proved)) = prove_steps::<S>(alloc, challenger, &separator, steps, &sent) {
        write_challenges::<S>(&mut told, &proved.challenges)?;
    }
    Ok(println!(rt; "{} {told}", module.name())?)
}

fn digest_of<U: Unit, D: DigestHasher>(
    alloc: Global,
    separator: &DomainSeparator<U, D>,
) -> Result<String> {
    let digest = separator.pattern().pattern_hash::<D>()?;
    Ok(hex::encode(alloc, digest)?)
}

fn write_challenges<S: Suite>(told: &mut String, challenges: &[Drawn<S>]) -> Result<()> {
    for drawn in challenges {
        write_drawn(told, drawn)?;
    }
    Ok(())
}

// Writes the numbers of what was drawn.
fn write_drawn<S: Suite>(told: &mut String, drawn: &Drawn<S>) -> Result<()> {
    match drawn {
        Drawn::Scalars(scalars) => write_scalars::<S>(told, scalars),
        Drawn::Extensions(elements) => {
            for element in elements {
                write_scalars::<S>(told, element.as_basis_coefficients_slice())?;
            }
            Ok(())
        }
        Drawn::Bits(numbers) => {
            for number in numbers {
                write!(told, " {number}")?;
            }
            Ok(())
        }
    }
}

fn write_scalars<S: Suite>(told: &mut String, scalars: &[S::Field]) -> Result<()> {
    for scalar in scalars {
        write!(told, " {}", scalar.as_canonical_u64())?;
    }
    Ok(())
}
