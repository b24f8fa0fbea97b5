//! Fields with elements in lanes.
ghost use Rattle.std.specs.Prelude.{◌<◌};
ghost use Rattle.p3_field_core.specs.Sizes.{IsSmall};

use crate::PackedValue;
use p3_field_core::Field;

/// A field whose elements also exist in lanes.
///
/// In `p3-field`, `Packing` is a member of `Field` itself.
pub trait PackedField: Field {
    /// Several elements at once, one in each of at least one lane.
    type Packing: PackedValue<Self>;

    ghost some_lanes: { 0 < Self.Packing.WIDTH };

    // The lanes take little room.
    ghost lanes_are_small: { IsSmall Self.Packing.row };
}
