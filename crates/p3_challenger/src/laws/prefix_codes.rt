//! Can two values, lists or digests feed the same symbols?

pub use p3_driver_core::{counts_are_told, counts_take_the_least_width, slices_are_bytes};
pub use p3_duplex::{duplex_arrays_are_prefix_code, duplex_elements_are_prefix_code};
pub use p3_fs_core::counts_are_prefix_code;
pub use p3_hash_challenger::{hash_arrays_are_prefix_code, hash_values_are_prefix_code};
pub use p3_multi_field::{multi_field_arrays_are_prefix_code, multi_field_scalars_are_prefix_code};
pub use p3_serializing::{serialized_digests_are_prefix_code, serialized_elements_are_prefix_code};
