//! The program `out_of_memory`: it makes calls that ask for memory, and each refused one once more.
//!
//! `tools/memory` refuses each request of it in turn. A call on a challenger that memory ran out of has changed nothing,
//! and one that makes something has made nothing: so what is printed is the same, unless the program itself finds no
//! memory, and ends.
#![tactic(auto)]

// Makes a call, and once more where memory ran out. It is used in small functions alone: each makes one call, or the next
// ones would be proved twice.
macro_rules! again {
    ($refusal:pat, $call:expr) => {
        match $call {
            Err($refusal) => $call,
            answered => answered,
        }
    };
}

mod calls;
mod challengers;
mod patterns;

fn main(rt: HostRuntime) -> anyhow::Result<()> {
    challengers::show(&rt)?;
    patterns::show(&rt)
}
