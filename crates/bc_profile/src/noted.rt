//! Events of a device that has many callers.

use crate::Event;

/// An event, and the number of the caller that made it.
#[derive(Debug, Drop)]
pub struct Noted {
    pub caller: u16,
    pub event: Event,
}
