//! How a disk is closed.

ghost use Rattle.std.specs.Prelude.{◌≡◌, map, IfOk, IfErr};
ghost use Rattle.bc_disk.specs.Closings.{AreAllPasses, IsClosedDisk};

use crate::split::{DiskParts, Split};
use crate::{Disk, Pass};
use bc_base::Store;
use bc_medium::Entry;
use bc_profile::Event;
use std::marker::Model;
use std::snapshot::Snapshot;
use std::sync::Wait;

/// What a disk leaves: its stores and their orders by shard, and the journals of its devices.
#[derive(Drop)]
pub struct Closed<S: Store> {
    pub stores: Vec<S>,
    pub shards: Vec<Vec<Entry>>,
    pub devices: Vec<Vec<Event>>,
}

/// A disk that is being closed, for which there wasn't memory: what is closed of it, and untouched what isn't.
#[derive(Drop)]
pub struct Closing<S: Store> {
    /// The disk and the passes as they were handed in.
    disk: Snapshot<Disk<S>>,
    passes: Snapshot<Vec<Pass<S>>>,
    parts: DiskParts<S>,
}

impl<S: Store> Model for Closing<S> {
    ghost use Rattle.bc_disk.specs.Closings.{ClosingData};
    ghost use Rattle.bc_disk.specs.Lefts.{IsLeft};

    ghost Value = { ClosingData S };

    ghost view = { λ c. record { disk = c.disk.value; passes = c.passes.value.items } };

    ghost invariant = { λ c. IsLeft c.disk.value c.passes.value.items c.parts };
}

impl<S: Store> Disk<S> {
    /// Closes the disk, where the passes of all its callers are here, and none has a hold.
    ///
    /// # Errors
    ///
    /// Out of memory: then what is closed and what isn't comes back, and [`Closing::go_on`] closes the rest.
    pub fn close<R: Wait>(self, rt: &R, passes: Vec<Pass<S>>) -> Result<Closed<S>, Closing<S>>
        requires all { AreAllPasses self passes.items }
        ensures closed { IfOk result (λ closed. IsClosedDisk S.owns S.contents S.calls S.faults self passes.items
            closed.stores.items (map (λ order. order.items) closed.shards.items)
            (map (λ journal. journal.items) closed.devices.items)) }
        ensures closing { IfErr result (λ closing. closing ≡ record { disk = self; passes = passes.items }) }
    {
        let closing = Closing {
            disk: Snapshot::of(&self),
            passes: Snapshot::of(&passes),
            parts: DiskParts::Whole(self, passes),
        };
        closing.go_on(rt)
    }
}

impl<S: Store> Closing<S> {
    /// Closes what is left, as [`Disk::close`] does.
    ///
    /// # Errors
    ///
    /// Out of memory again: then the rest comes back, as it was.
    pub fn go_on<R: Wait>(self, _rt: &R) -> Result<Closed<S>, Closing<S>>
        ensures closed { IfOk result (λ closed. IsClosedDisk S.owns S.contents S.calls S.faults self.disk self.passes
            closed.stores.items (map (λ order. order.items) closed.shards.items)
            (map (λ journal. journal.items) closed.devices.items)) }
        ensures closing { IfErr result (λ closing. closing ≡ self) }
    {
        let Closing {
            disk,
            passes,
            parts,
        } = self;
        let split = match parts {
            DiskParts::Whole(whole, callers) => match Split::of(whole, callers) {
                Ok(split) => split,
                Err((whole, callers)) => {
                    let parts = DiskParts::Whole(whole, callers);
                    return Err(Closing {
                        disk,
                        passes,
                        parts,
                    });
                }
            },
            DiskParts::Split(split) => split,
        };
        match split.close(&disk, &passes) {
            Ok(closed) => Ok(closed),
            Err(split) => {
                let parts = DiskParts::Split(split);
                Err(Closing {
                    disk,
                    passes,
                    parts,
                })
            }
        }
    }
}
