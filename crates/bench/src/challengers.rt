// The challengers whose calls are timed, each over a permutation that turns cells and over one that mixes them.
use crate::by_call::ByCall;
use crate::calls::{Calls, Player};
use crate::timing::{Row, measure};
use crate::work::{Uniform, Work};
use anyhow::Result;
use p3_challenger::{
    CanCopy, CanObserve, CanSample, DuplexChallenger, MultiField32Challenger,
    UniformGrindingChallenger,
};
use p3_field::{BabyBear, Goldilocks, PrimeCharacteristicRing};
use p3_poseidon2::{default_babybear_poseidon2_16, default_goldilocks_poseidon2_8};
use p3_symmetric::Turn;

type Duplex<P> = DuplexChallenger<BabyBear, P, 16, 8>;

type MultiField<P, const WIDTH: usize, const RATE: usize> = MultiField32Challenger<
    BabyBear,
    Goldilocks,
    P,
    WIDTH,
    RATE,
>;

const MANY: u32 = 1_000_000;

const DRAWS: u32 = 100_000;

/// What is timed of a challenger.
#[derive(Clone, Copy)]
pub struct Rows<'a> {
    calls: &'a [Row<Calls>],
    work: &'a [Row<Work>],
    uniform: &'a [Row<Uniform>],
}

const DUPLEX: [Row<Calls>; 6] = [
    Row {
        name: "duplex observe from_u32",
        timed: Calls::ObserveMade(MANY),
    },
    Row {
        name: "duplex observe values",
        timed: Calls::ObserveEach,
    },
    Row {
        name: "duplex observe_slice",
        timed: Calls::ObserveSlices {
            len: MANY as usize,
            times: 1,
        },
    },
    Row {
        name: "duplex sample",
        timed: Calls::Draw(DRAWS),
    },
    Row {
        name: "duplex turn",
        timed: Calls::Turns {
            observes: 1,
            rounds: DRAWS,
        },
    },
    Row {
        name: "duplex sample_vec",
        timed: Calls::DrawList(DRAWS),
    },
];

const DUPLEX_BITS: [Row<Work>; 1] = [Row {
    name: "duplex sample_bits20",
    timed: Work::Draw {
        bits: 20,
        times: DRAWS,
    },
}];

const DUPLEX_UNIFORM: [Row<Uniform>; 1] = [Row {
    name: "Duplex 16/8 Turn<1>: 10^5 uniform draws of 20 bits",
    timed: Uniform {
        work: Work::Draw {
            bits: 20,
            times: DRAWS,
        },
    },
}];

const WORKED: [Row<Work>; 1] = [Row {
    name: "Duplex 16/8 Turn<9>: grind(20)",
    timed: Work::Search { bits: 20 },
}];

const WORKED_UNIFORM: [Row<Uniform>; 1] = [Row {
    name: "Duplex 16/8 Turn<9>: grind_uniform(16)",
    timed: Uniform {
        work: Work::Search { bits: 16 },
    },
}];

const MIXED: [Row<Calls>; 3] = [
    Row {
        name: "Duplex 16/8 Poseidon2: 10^5 observe",
        timed: Calls::ObserveMade(DRAWS),
    },
    Row {
        name: "Duplex 16/8 Poseidon2: observe_slice of 10^5",
        timed: Calls::ObserveSlices {
            len: DRAWS as usize,
            times: 1,
        },
    },
    Row {
        name: "Duplex 16/8 Poseidon2: 10^5 sample",
        timed: Calls::Draw(DRAWS),
    },
];

const MIXED_WORK: [Row<Work>; 1] = [Row {
    name: "Duplex 16/8 Poseidon2: grind(16)",
    timed: Work::Search { bits: 16 },
}];

const MIXED_UNIFORM: [Row<Uniform>; 1] = [Row {
    name: "Duplex 16/8 Poseidon2: grind_uniform(16)",
    timed: Uniform {
        work: Work::Search { bits: 16 },
    },
}];

const MULTI_FIELD: [Row<Calls>; 2] = [
    Row {
        name: "MultiField32 bb/gl 16/8 Turn<1>: observe_slice of 10^6",
        timed: Calls::ObserveSlices {
            len: MANY as usize,
            times: 1,
        },
    },
    Row {
        name: "MultiField32 bb/gl 16/8 Turn<1>: 10^5 sample",
        timed: Calls::Draw(DRAWS),
    },
];

const MULTI_FIELD_WORK: [Row<Work>; 1] = [Row {
    name: "MultiField32 bb/gl 16/8 Turn<9>: grind(16), 65529 candidates",
    timed: Work::Search { bits: 16 },
}];

const MULTI_FIELD_MIXED: [Row<Work>; 1] = [Row {
    name: "MultiField32 bb/gl 8/4 Poseidon2: grind(16)",
    timed: Work::Search { bits: 16 },
}];

/// Times the calls of each, and gives a sum of what they draw.
pub fn measure_all(rt: &HostRuntime, runs: u32) -> Result<u64> {
    let values: Vec<BabyBear> = (0..MANY).map(BabyBear::from_u32).collect(rt.alloc())?;
    let duplex = measure_duplex(rt, runs, values.as_slice())?;
    let multi_field = measure_multi_field(rt, runs, values.as_slice())?;
    Ok(duplex.wrapping_add(multi_field))
}

fn measure_duplex(rt: &HostRuntime, runs: u32, values: &[BabyBear]) -> Result<u64> {
    let turn = Rows {
        calls: &DUPLEX,
        work: &DUPLEX_BITS,
        uniform: &DUPLEX_UNIFORM,
    };
    let first = measure_rows(rt, runs, &Duplex::<Turn<1>>::new(Turn, 1), values, turn)?;
    let worked = Rows {
        calls: &[],
        work: &WORKED,
        uniform: &WORKED_UNIFORM,
    };
    let called: ByCall<Turn<9>> = ByCall { permutation: Turn };
    let second = measure_rows(rt, runs, &Duplex::new(called, 1), values, worked)?;
    let mixed = Rows {
        calls: &MIXED,
        work: &MIXED_WORK,
        uniform: &MIXED_UNIFORM,
    };
    let challenger = Duplex::new(default_babybear_poseidon2_16(), 1);
    let third = measure_rows(rt, runs, &challenger, values, mixed)?;
    Ok(first.wrapping_add(second).wrapping_add(third))
}

fn measure_multi_field(rt: &HostRuntime, runs: u32, values: &[BabyBear]) -> Result<u64> {
    let challenger = MultiField::<Turn<1>, 16, 8>::new(Turn)?;
    let player = Player {
        challenger: &challenger,
        values,
    };
    let calls = measure(rt, runs, &player, "", &MULTI_FIELD)?;
    let called: ByCall<Turn<9>> = ByCall { permutation: Turn };
    let challenger = MultiField::<_, 16, 8>::new(called)?;
    let player = Player {
        challenger: &challenger,
        values,
    };
    let work = measure(rt, runs, &player, "", &MULTI_FIELD_WORK)?;
    let challenger = MultiField::<_, 8, 4>::new(default_goldilocks_poseidon2_8())?;
    let player = Player {
        challenger: &challenger,
        values,
    };
    let mixed = measure(rt, runs, &player, "", &MULTI_FIELD_MIXED)?;
    Ok(calls.wrapping_add(work).wrapping_add(mixed))
}

fn measure_rows<
    C: CanObserve<BabyBear> + CanSample<BabyBear> + UniformGrindingChallenger + CanCopy,
>(rt: &HostRuntime, runs: u32, challenger: &C, values: &[BabyBear], rows: Rows<'_>) -> Result<u64> {
    let player = Player { challenger, values };
    let calls = measure(rt, runs, &player, "", rows.calls)?;
    let work = measure(rt, runs, &player, "", rows.work)?;
    let uniform = measure(rt, runs, &player, "", rows.uniform)?;
    Ok(calls.wrapping_add(work).wrapping_add(uniform))
}
