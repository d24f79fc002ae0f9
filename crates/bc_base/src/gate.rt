//! Gates: where a run can be held up from outside.

use std::sync::Wait;

/// Where in an operation a caller passes the gate.
#[derive(Clone, Copy, Debug, PartialEq, Eq)]
pub enum GatePlace {
    /// Before the operation.
    Starts,
    /// A part of a request has its hold of a device's keyslot, and none of its data units has been carried out.
    Holds { device: u8, slot: u16 },
    /// The operation has its answer.
    Answered,
}

/// What the callers of a run pass on their way, so that a test can hold one of them up until another one has come
/// somewhere. A run rests on nothing that a gate does, so its call has no promise: it may wait, and if it returns the
/// caller goes on.
pub trait Gate {
    /// Caller `thread` passes the gate at this place of its operation `tag`; of a part of a request the tag is that of
    /// its first data unit.
    fn pass<R: Wait>(&self, rt: &R, thread: u16, tag: u32, place: GatePlace);
}

/// The gate that is always open.
#[derive(Clone, Copy, Debug)]
pub struct FreeGate;

impl Gate for FreeGate {
    fn pass<R: Wait>(&self, _rt: &R, _thread: u16, _tag: u32, _place: GatePlace) {}
}
