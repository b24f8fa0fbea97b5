//! Can two protocols, versions or instances share a seed?

pub use p3_domain_separator::{
    identifiers_are_injective, labels_are_injective, seeds_are_prefix_code, separators_have_seeds,
};
pub use p3_patterns::equal_renderings_are_equal_patterns;
