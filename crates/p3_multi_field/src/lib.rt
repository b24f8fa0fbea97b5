//! The challenger over two fields: it observes and draws elements of one, packed into cells of a larger one.
//!
//! A law is a function without effect whose contract a caller cites. The Rust crate has none.
#![tactic(auto)]

mod error;
mod field_pair;
mod multi_field_challenger;
mod prefix_code;
mod symbol;

pub use error::MultiField32ChallengerError;
pub use field_pair::HasFieldPair;
pub use multi_field_challenger::MultiField32Challenger;
pub use prefix_code::{multi_field_arrays_are_prefix_code, multi_field_scalars_are_prefix_code};
pub use symbol::MultiFieldSymbol;
