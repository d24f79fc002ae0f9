//! Entries of a shard's order.

use crate::unit_at::UnitAt;
use crate::via::Via;
use bc_base::Items;
use bc_bio::Access;

/// One access of a shard's order. `plain` is there exactly for a write that didn't fail: its bytes
/// in the clear.
#[derive(Debug, Drop)]
pub struct Entry {
    pub at: UnitAt,
    pub access: Access,
    pub via: Via,
    pub plain: Option<Items<u8>>,
    pub failed: bool,
}
