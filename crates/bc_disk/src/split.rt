//! A disk that is taken apart for closing.

ghost use Rattle.std.specs.Prelude.{◌≡◌, ◌+◌, ◌≤◌, List, [], length, map, replicate, reverse, IfOk, IfErr};
ghost use Rattle.std.specs.Prelude.{vec_capacity, vec_len};
ghost use Rattle.std.specs.List.{range_with_len};
ghost use Rattle.bc_base.specs.Lists.{Each};
ghost use Rattle.bc_profile.specs.declared.noted.Noted.{Noted};
ghost use Rattle.bc_profile.specs.Story.{events_of};
ghost use Rattle.bc_profile.specs.Passes.{IsClosedStory as IsEndOfSlots};
ghost use Rattle.bc_disk.specs.Closings.{AreAllPasses, IsClosedDisk, IsSplit, MayClose, devices_with, passes_on};
ghost use Rattle.bc_disk.specs.Lefts.{IsRoomFor};

use crate::closing::Closed;
use crate::dealing::{deal, rooms, turn_round};
use crate::{Disk, Pass};
use bc_base::Store;
use bc_medium::{Medium, MediumPass};
use bc_profile::{Event, Profile, SlotPass};
use bc_ufs::Controller;
use std::alloc::{AllocError, Global};
use std::marker::Model;
use std::snapshot::Snapshot;

/// A disk and its passes that are to be closed.
#[derive(Drop)]
pub(crate) enum DiskParts<S: Store> {
    /// All of it: nothing was taken apart.
    Whole(Disk<S>, Vec<Pass<S>>),
    /// What is closed of it, and what isn't.
    Split(Split<S>),
}

/// The keyslots of a device that isn't closed, and the passes of them.
#[derive(Drop)]
pub(crate) struct OpenDevice {
    profile: Profile,
    passes: Vec<SlotPass>,
}

impl Model for OpenDevice {
    ghost use Rattle.bc_disk.specs.Closings.{OpenDeviceData};

    ghost Value = { OpenDeviceData };

    ghost view = { λ d. record { profile = d.profile; passes = d.passes.items } };
}

/// What is closed of a disk, and what isn't.
#[derive(Drop)]
pub(crate) struct Split<S: Store> {
    /// What isn't closed of the devices, the first one last.
    devices: Vec<OpenDevice>,
    medium: Medium<S>,
    units: Vec<MediumPass<S>>,
    /// The journals of the devices that are closed.
    journals: Vec<Vec<Event>>,
}

impl<S: Store> Model for Split<S> {
    ghost use Rattle.std.specs.Prelude.{map};
    ghost use Rattle.bc_disk.specs.Closings.{SplitData};

    ghost Value = { SplitData S };

    ghost view = { λ s. record {
      devices = s.devices.items;
      medium = s.medium;
      units = s.units.items;
      journals = map (λ journal. journal.items) s.journals.items;
    } };

    ghost use Rattle.std.specs.Prelude.{◌+◌, ◌≤◌, vec_len, vec_capacity};

    ghost invariant = { λ s. (vec_len s.journals + vec_len s.devices ≤ vec_capacity s.journals)
        × (vec_len s.journals + vec_len s.devices ≤ vec_capacity s.devices) };
}

/// The memory that the parts of a disk take.
struct Rooms<S: Store> {
    slots: Vec<Vec<SlotPass>>,
    devices: Vec<OpenDevice>,
    journals: Vec<Vec<Event>>,
    units: Vec<MediumPass<S>>,
}

impl<S: Store> Rooms<S> {
    /// Rooms for so many devices and callers.
    fn new(alloc: Global, devices: usize, callers: usize) -> Result<Rooms<S>, AllocError>
        ensures { IfOk result (λ rooms. IsRoomFor devices callers rooms) }
    {
        Ok(Rooms {
            slots: rooms(alloc, devices, callers)?,
            devices: Vec::with_capacity(alloc, devices)?,
            journals: Vec::with_capacity(alloc, devices)?,
            units: Vec::with_capacity(alloc, callers)?,
        })
    }
}

impl<S: Store> Split<S> {
    /// Takes a disk and its passes apart.
    ///
    /// # Errors
    ///
    /// Out of memory: nothing was taken apart.
    pub(crate) fn of(
        disk: Disk<S>,
        passes: Vec<Pass<S>>,
    ) -> Result<Split<S>, (Disk<S>, Vec<Pass<S>>)>
        requires all { AreAllPasses disk passes.items }
        ensures split { IfOk result (λ split. IsSplit disk passes.items split) }
        ensures back { IfErr result (λ back. (back.0 ≡ disk) × (back.1.items ≡ passes.items)) }
    {
        let Ok(rooms) = Rooms::new(disk.alloc, disk.queue.controllers().len(), passes.len()) else {
            return Err((disk, passes));
        };
        Ok(Split::within(rooms, disk, passes))
    }

    /// Takes a disk and its passes apart within these rooms.
    fn within(rooms: Rooms<S>, disk: Disk<S>, passes: Vec<Pass<S>>) -> Split<S>
        requires rooms { IsRoomFor (length disk.queue.controllers) (length passes.items) rooms }
        requires all { AreAllPasses disk passes.items }
        ensures { IsSplit disk passes.items result }
    {
        let Rooms {
            mut slots,
            mut devices,
            journals,
            mut units,
        } = rooms;
        let Disk { queue, .. } = disk;
        let (controllers, medium) = queue.into_parts();
        split_passes(passes, &mut slots, &mut units);
        join_devices(controllers, slots, &mut devices);
        Split {
            devices,
            medium,
            units,
            journals,
        }
    }

    /// Closes what is left of this disk and of these passes.
    ///
    /// # Errors
    ///
    /// Out of memory: what is left then.
    pub(crate) fn close(
        self,
        disk: &Snapshot<Disk<S>>,
        passes: &Snapshot<Vec<Pass<S>>>,
    ) -> Result<Closed<S>, Split<S>>
        requires left { IsSplit disk.now.value passes.now.value.items self }
        ensures closed { IfOk result (λ closed. IsClosedDisk S.owns S.contents S.calls S.faults disk.now.value
            passes.now.value.items closed.stores.items (map (λ order. order.items) closed.shards.items)
            (map (λ journal. journal.items) closed.devices.items)) }
        ensures left { IfErr result (IsSplit disk.now.value passes.now.value.items) }
    {
        let Split {
            mut devices,
            medium,
            units,
            mut journals,
        } = self;
        while let Some(device) = devices.pop() {
            match device.close() {
                Ok(journal) => journals.push_reserved(journal),
                Err(device) => {
                    devices.push_reserved(device);
                    return Err(Split {
                        devices,
                        medium,
                        units,
                        journals,
                    });
                }
            }
        }
        match medium.close(units) {
            Ok((stores, shards)) => Ok(Closed {
                stores,
                shards,
                devices: journals,
            }),
            Err((medium, units)) => Err(Split {
                devices,
                medium,
                units,
                journals,
            }),
        }
    }
}

impl OpenDevice {
    /// The device's journal.
    ///
    /// # Errors
    ///
    /// Out of memory: then it isn't closed.
    fn close(self) -> Result<Vec<Event>, OpenDevice>
        requires { MayClose self }
        ensures closed { IfOk result (λ journal. (story : List Noted) × (journal.items ≡ events_of story)
            × IsEndOfSlots self.profile self.passes story) }
        ensures back { IfErr result (λ back. back ≡ self) }
    {
        match self.profile.close(self.passes) {
            Ok(journal) => Ok(journal),
            Err((profile, passes)) => Err(OpenDevice { profile, passes }),
        }
    }
}

/// Takes the passes apart: by device those of the keyslots, and those of the medium. There is room for them.
fn split_passes<S: Store>(
    mut passes: Vec<Pass<S>>,
    slots: &mut Vec<Vec<SlotPass>>,
    units: &mut Vec<MediumPass<S>>,
)
    requires one_for_each { Each (λ pass. length pass.slots ≡ length slots.old.items) passes.items }
    requires no_slots { map (λ list. list.items) slots.old.items ≡ replicate (length slots.old.items) [] }
    requires no_units { units.old.items ≡ [] }
    requires slots_room { Each (λ list. vec_len list + length passes.items ≤ vec_capacity list) slots.old.items }
    requires units_room { length passes.items ≤ vec_capacity units.old }
    ensures slots { map (λ list. list.items) slots.new.items
        ≡ map (passes_on passes.items) (range_with_len 0 (length slots.old.items)) }
    ensures units { units.new.items ≡ map (λ pass. pass.units) passes.items }
{
    turn_round(&mut passes);
    while let Some(pass) = passes.pop() {
        let Pass { queue, .. } = pass;
        deal(queue.slots, slots);
        units.push_reserved(queue.units);
    }
    passes.destroy_empty();
}

/// Joins the keyslots of each controller with the passes of them, the first last. There is room for them.
fn join_devices(
    mut controllers: Vec<Controller>,
    mut slots: Vec<Vec<SlotPass>>,
    devices: &mut Vec<OpenDevice>,
)
    requires one_for_each { length slots.items ≡ length controllers.items }
    requires empty { devices.old.items ≡ [] }
    requires room { length controllers.items ≤ vec_capacity devices.old }
    ensures devices { reverse devices.new.items
        ≡ devices_with controllers.items (map (λ list. list.items) slots.items) }
    ensures capacity { vec_capacity devices.new ≡ vec_capacity devices.old }
{
    while let Some(controller) = controllers.pop() {
        let Some(passes) = slots.pop() else {
            unreachable!()
        };
        let profile = controller.into_profile();
        devices.push_reserved(OpenDevice { profile, passes });
    }
}
