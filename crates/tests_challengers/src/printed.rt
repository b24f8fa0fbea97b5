// What challengers over a permutation print: their cells, what is pending and the outputs left, and nothing of what was
// absorbed; and what errors print.
use p3_challenger_core::{CanObserve, ChallengerError};
use p3_duplex::DuplexChallenger;
use p3_field::{BabyBear, F257};
use p3_grinding::{ResamplingError, UniformBitsError};
use p3_multi_field::{MultiField32Challenger, MultiField32ChallengerError};
use p3_symmetric::Turn;
use p3_test_support::element;
use std::alloc::Global;
use std::fmt::{Debug, Display};
use std::process::Abort;

// Observes elements at once, or one by one, and gives what is printed then.
fn printed<C: CanObserve<F257> + Debug + Drop>(
    alloc: Global,
    mut challenger: C,
    values: &[F257],
    at_once: bool,
) -> Result<String, ChallengerError> {
    if at_once {
        challenger.observe_slice(values)?;
    } else {
        for value in values {
            challenger.observe(*value)?;
        }
    }
    Ok(format!(in alloc; "{challenger:?}")?)
}

// Whether two challengers print this text, of which one observes the elements of the numbers from 1 to before `end` at
// once, and the other one by one. The first absorbs blocks where they stand, so that its buffer is another one.
fn print_as<C: CanObserve<F257> + Debug + Drop>(
    alloc: Global,
    at_once: C,
    one_by_one: C,
    end: u64,
    text: &str,
) -> Result<bool, ChallengerError> {
    let values: Vec<F257> = (1..end).map(|number| element(number)).collect(alloc)?;
    let first = printed(alloc, at_once, values.as_slice(), true)?;
    let second = printed(alloc, one_by_one, values.as_slice(), false)?;
    Ok(first.as_str() == text && second.as_str() == text)
}

#[test]
fn equal_challengers_print_the_same_and_nothing_absorbed(rt: HostRuntime) {
    let text =
        "DuplexChallenger { sponge_state: [F257 { value: 8 }, F257 { value: 5 }, F257 { value: 7 }], \
         input_buffer: [F257 { value: 5 }], output_buffer: [], permutation: Turn, draw_limit: 4 }";
    let duplex: DuplexChallenger<F257, Turn<2>, 3, 2> = DuplexChallenger::new(Turn, 4);
    let other = duplex.clone();
    assert!(rt; print_as(rt.alloc(), duplex, other, 6, text) == Ok(true));
    let text =
        "MultiField32Challenger { sponge_state: [BabyBear { value: 1575438 }, BabyBear { value: 2363401 }, \
         BabyBear { value: 3151373 }], pending: [F257 { value: 13 }], outputs_left: 0, permutation: Turn }";
    let made: Result<MultiField32Challenger<F257, BabyBear, Turn<2>, 3, 2>, _> =
        MultiField32Challenger::new(Turn);
    let multi_field = made.expect(&rt, "these fields make a challenger");
    let other = multi_field.clone();
    assert!(rt; print_as(rt.alloc(), multi_field, other, 14, text) == Ok(true));
}

// Whether an error prints this text.
fn says<E: Display>(alloc: Global, error: &E, text: &str) -> bool {
    match format!(in alloc; "{error}") {
        Ok(said) => said.as_str() == text,
        Err(_) => false,
    }
}

#[test]
fn errors_say_what_is_wrong(rt: HostRuntime) {
    let alloc = rt.alloc();
    let resampling = ResamplingError::new(9, 8);
    let rejected = "sampled value 9 is not below rejection bound 8, but resampling is disabled";
    let limit = UniformBitsError::Challenger(ChallengerError::DrawLimit);
    let overflow = MultiField32ChallengerError::AbsorbLengthTagOverflow {
        batch_len: 256,
        max: 255,
    };
    let order = MultiField32ChallengerError::FieldOrderNotIncreasing {
        input_field: "BabyBear",
        sponge_field: "BabyBear",
    };
    let said = [
        says(alloc, &resampling, rejected),
        says(alloc, &UniformBitsError::Resampling(resampling), rejected),
        says(alloc, &limit, "draw limit"),
        says(
            alloc,
            &overflow,
            "a full absorb batch contains 256 sampled-field elements, exceeding the u8 length-tag limit of 255",
        ),
        says(
            alloc,
            &order,
            "sampled field `BabyBear` must have smaller order than transcript field `BabyBear`",
        ),
    ];
    assert_eq!(rt; said, [true; 5]);
}
