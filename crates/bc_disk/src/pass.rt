//! What a caller of a disk takes along.

use bc_base::Store;
use bc_bio::{Reply, Request};
use bc_queue::QueuePass;
use std::marker::Model;

/// What a caller of a disk takes along: its pass of the queue, and room for a bio of its own and the reply, so that no
/// submission takes memory.
#[derive(Drop)]
pub struct Pass<S: Store> {
    pub(crate) queue: QueuePass<S>,
    pub(crate) request: Request,
    pub(crate) replies: Vec<Reply>,
}

impl<S: Store> Model for Pass<S> {
    ghost use Rattle.std.specs.Prelude.{◌≡◌, ◌≤◌, [], vec_capacity};
    ghost use Rattle.bc_disk.specs.Disks.{PassData};

    ghost Value = { PassData S };

    ghost view = { λ p. record { caller = p.queue.caller; slots = p.queue.slots.items; units = p.queue.units } };

    ghost invariant = { λ p. (p.request.bios ≡ []) × (1 ≤ p.request.spare) × (p.replies.items ≡ [])
        × (1 ≤ vec_capacity p.replies) };
}
