//! What a run leaves.

use bc_report::Report;

/// What carrying a script out gives back.
#[derive(Drop)]
pub struct Finished {
    /// The image as the run leaves it, as long as the one that was handed in.
    pub image: Vec<u8>,
    /// What each operation was answered, the order of each shard, and the journal of each device.
    pub report: Report,
}
