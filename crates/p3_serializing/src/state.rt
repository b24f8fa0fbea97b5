//! A serializing challenger as contracts see it.
use std::marker::Model;

/// The view of contracts on a [`SerializingChallenger`](crate::SerializingChallenger): the state `S` of the challenger
/// of bytes, and the draw limit.
///
/// No program makes a value of this type. A box around the state makes its size known whatever `S` is.
///
/// Not in the Rust crate.
pub struct SerializingState<S> {
    inner: Box<S>,
    draw_limit: u64,
}

impl<S> Model for SerializingState<S> {
    ghost use Rattle.p3_serializing.specs.SerializingState.{SerializingState};

    ghost Value = { SerializingState S };

    ghost view = { λ s. record { inner = s.inner.value; draw_limit = s.draw_limit } };
}
