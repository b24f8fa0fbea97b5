//! Scripts played with a prover and a verifier, and what is answered compared with the answers that stand beside them.
//!
//! A program of such files calls [`compare_files`], and says what its worlds are by [`Worlds`]. Its files lie in the
//! folder that it runs in, or in the one that its first word names. Lines that begin with `#` say where the answers are
//! from. Each other line is `run WORLD VERSION NAME [CHUNK..] | STEPS | ANSWER`, with ` ; ` between the steps: the version
//! and the name of the protocol, and in hexadecimal the chunks of the instance's label. The world is the suite that plays
//! the script. The steps are those that [`script_lines::steps`] reads, each with what the prover is handed for it. After
//! them may stand one of [`script_lines::change::Change`], which is what becomes of the proof before the verifier reads it;
//! `carried v..`, the witnesses that the verifier's caller carries in place of the prover's; `handed VALUE`, one value more
//! for the prover; and `next N`, how many scalars are drawn in the end, where it is not two. Where the steps of the pattern
//! are others than those that are played, they stand in between: `| STEPS | pattern STEPS | ANSWER`.
//!
//! Each side plays the script in two ways, by `prove` or `verify` and step by step on a driver, and both have to
//! tell the same. A driver that refused a step has to refuse it once more, and the step of the pattern there, and
//! its end.
//!
//! The answer is `PROVER ; verify VERIFIER`. Of a prover it is `wire HEX ; draws n.. ; witnesses n.. ; next a b`:
//! the bytes of the proof, the numbers that were drawn, the witnesses that were found, and the next scalars
//! that its challenger draws; of a verifier `accepted n.. next a b`, with what it drew and what its challenger
//! draws next. Of either it may be `refused POSITION REASON`, with the position of the step, counted from 0, or the
//! number of steps for the end; and `not handed` or `not carried`, where the values or the witnesses are not those
//! of the steps. An answer `not admitted` says that the suite does not play these steps. Where the line has steps
//! of the pattern, the answer begins with `fits`, or with `other steps`.
//!
//! A line `play ..` in place of `run ..` is answered at more length. After a verifier that accepts stands
//! ` ; received v / v ..`, each value that it read; after a prover that refused a step ` ; wrote HEX ; next a b`, and
//! after such a verifier ` ; unread N ; next a b`, how many bytes it left. Where the end was refused no challenger is
//! left to draw from.
//!
//! Each proof is also changed at random, twice, and the program asks that the changed one is refused for a reason, or
//! accepted and just the encoding of what was received. Its second word is a seed, and its third how often each proof is
//! changed; with that it prints how many of the changed proofs came to what.
#![tactic(auto)]

mod answer;
mod encoding;
mod files;
mod hostile;
mod mutation;
mod proving;
mod told;
mod verifying;
mod whole;

pub use answer::{Answered, play};
pub use files::{Worlds, compare_files};
pub use hostile::Changes;
