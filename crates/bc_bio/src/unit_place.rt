//! Where a data unit of a request stands.

/// Where a data unit of a request stands: in which bio, and which of its units it is.
#[derive(Clone, Copy, Debug)]
pub struct UnitPlace {
    pub bio: usize,
    pub unit: u32,
}
