//! Uniform bits and proof of work: draws of bits without bias, and the search for witnesses and their checks.
#![tactic(auto)]

mod before_witness;
mod byte_grinding_challenger;
mod can_copy;
mod error;
mod grinding_challenger;
mod ready_search;
mod search;
mod uniform;
mod uniform_grinding;
mod uniform_search;

pub use before_witness::BeforeWitness;
pub use byte_grinding_challenger::{ByteCandidates, ByteGrindingChallenger, find_witness_plainly};
pub use can_copy::CanCopy;
pub use error::{ResamplingError, UniformBitsError};
pub use grinding_challenger::GrindingChallenger;
pub use ready_search::{ReadySearch, least_witness_by_own_search};
pub use search::least_witness;
pub use uniform::CanSampleUniformBits;
pub use uniform_grinding::UniformGrindingChallenger;
pub use uniform_search::least_uniform_witness;
