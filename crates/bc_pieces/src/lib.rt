//! The walk of a request over the devices of a disk.
//!
//! The data units of a request may lie on several devices. They are cut where the device changes, and each piece is
//! carried out by its device under one hold of the request's key, piece after piece and in order. The walk is written
//! once for all callers: what a caller's way to the devices is, it tells by [`DeviceAccess`]. The way of many callers
//! is [`QueueDevices`], and [`submit_request`] goes over a request by it.
#![tactic(auto)]

mod device_access;
mod laws;
mod queue_devices;
mod request_pieces;

pub use device_access::DeviceAccess;
pub use laws::piece_laws;
pub use queue_devices::{QueueDevices, submit_request};
pub use request_pieces::carry_out_pieces;
