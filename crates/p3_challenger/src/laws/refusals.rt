//! Why is a step refused, and can there be two reasons for it?

pub use p3_driver_core::{
    finished_players_refuse, listed_steps_are_next, next_steps_are_not_wrong,
};
pub use p3_step_laws::{
    bit_draws_are_refused_for_one_reason, bit_draws_tell_limits, bytes_are_refused_for_one_reason,
    bytes_are_unread_for_one_reason, bytes_tell_limits, carried_lists_are_refused_for_one_reason,
    draws_are_refused_for_one_reason, draws_tell_limits, ended_verifiers_are_not_refused,
    extensions_are_refused_for_one_reason, hints_are_refused_for_one_reason,
    hints_are_unread_for_one_reason, markers_and_hints_tell_limits,
    markers_are_refused_for_one_reason, opaque_values_are_refused_for_one_reason,
    opaque_values_tell_limits, uniform_draws_are_refused_for_one_reason, uniform_draws_tell_limits,
    values_are_refused_for_one_reason, values_are_unread_for_one_reason, values_tell_limits,
    work_is_refused_for_one_reason, work_tells_limits,
};
