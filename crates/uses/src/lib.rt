//! Small callers to start from, each a page that can be read by itself, and proved from public contracts alone.
//!
//! - [`protocol`]: a pattern, a prover and a verifier, with two messages, challenges, a draw with a rule, and a hint.
//! - [`demo_script`]: a protocol as a list of steps, with one call to prove and one to verify, over a sponge of
//!   Poseidon2.
//! - [`fri_script`]: the commit phase of FRI as a script, whose prover gives each message when its step comes.
//! - [`commit_phase`]: caps, challenges, a proof of work and indices, on the challenger itself, as in FRI.
//! - [`opening`]: a Merkle opening read from a hostile proof.
//! - `round`: generic code over any challenger, codec and alphabet: [`send_and_draw`], [`receive_and_draw`] and
//!   [`first_challenge`]. In `bound_values`, `three_calls` and `extra_value` contracts say which symbols calls fed,
//!   even where one is refused, and that those symbols bind the values. They also say from which state a step is played
//!   after a call on the challenger that a driver lends. `pair` sends two scalars of any field in one step. `lists`
//!   reads two scalars by their places, and halts a verifier.
//! - [`own_permutation`], [`own_rounds`] and [`own_hasher`]: how to supply a permutation other than Poseidon2, one of
//!   rounds with a table of constants, and a hasher; [`own_algebra`]: how to supply an extension of a field.
//! - [`two_sums`]: two sumchecks in one transcript, each after its sum.
//! - [`read_back`]: the hashed strings or permuted states determine what was observed, or show a collision.
//!
//! Most have wrong versions in `wrong-bodies/` that their contracts refuse: a challenge drawn too early, a message read
//! as a hint, bytes left over. The program `examples` plays the protocols.
#![tactic(auto)]

mod bound_values;
pub mod commit_phase;
pub mod demo_script;
mod extra_value;
pub mod fri_script;
mod lists;
pub mod opening;
pub mod own_algebra;
pub mod own_hasher;
pub mod own_permutation;
pub mod own_rounds;
mod pair;
pub mod protocol;
pub mod read_back;
mod round;
mod seeded;
mod three_calls;
pub mod two_sums;

pub use bound_values::{Absorbs, absorb_values, symbols_bind_values};
pub use extra_value::{receive_after, send_after};
pub use lists::{receive_list, receive_pair};
pub use pair::send_pair;
pub use round::{Round, first_challenge, receive_and_draw, send_and_draw};
pub use seeded::Seeded;
pub use three_calls::observe_and_draw;
