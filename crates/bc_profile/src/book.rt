//! The book of a device that has many callers, as a plain value: its slots and its story.
ghost use Rattle.std.specs.Prelude.{◌≡◌, ℕ, ◌+◌, ◌<◌, ◌≤◌, ◌==◌, [], ◌∷◌, length, replicate, IfOk, IfSome, IfNone, OnOk, MatchResult, if◌then◌else◌};
ghost use Rattle.std.specs.List.{list_all};
ghost use Rattle.bc_base.specs.Lists.{EachFrom};
ghost use Rattle.bc_profile.specs.declared.event.Event.TheVariants as events;
ghost use Rattle.bc_profile.specs.declared.limits.TheConstants.{MAX_SLOTS, MAX_EVENTS};
ghost use Rattle.bc_profile.specs.SlotJournal.{IsLawful};
ghost use Rattle.bc_profile.specs.Story.{Holds, IsGone, events_of};
ghost use Rattle.bc_profile.specs.Book.{HasRoom, TakesHold, NoneFree, AllHeld, IsHeldBy, Empties, IsBusy, given_back, book_with_events};

use crate::lists::copies;
use crate::table::{Emptied, SlotTable, Took};
use crate::{BookBase, Event, Noted, SlotState, SlotWord, Words};
use bc_turn::Story;
use std::alloc::{AllocError, Global};
use std::marker::Model;
use thiserror::Error;

/// Why a key isn't taken out: its slot was found with so many references.
#[derive(Clone, Copy, Debug, PartialEq, Eq, Error)]
#[error("the key's slot {slot} has {refs} references")]
pub struct Busy {
    pub slot: u16,
    pub refs: u16,
}

/// The book of a device: its slots, and the events so far with the callers that made them.
#[derive(Drop)]
pub struct Book {
    table: SlotTable,
    /// The place of the event that programmed each slot last.
    epochs: Vec<u32>,
    story: Vec<Noted>,
    /// How many events the story may have.
    limit: u32,
}

impl Model for Book {
    ghost use Rattle.std.specs.Prelude.{length, vec_capacity};
    ghost use Rattle.bc_profile.specs.Book.{BookData, IsBook};

    ghost Value = { BookData };

    ghost view = { λ b. record
        { count = length b.table.slots.keys; story = b.story.items; refs = b.table.refs; limit = b.limit } };

    ghost invariant = { λ b. IsBook b.table b.epochs.items b.story.items b.limit (vec_capacity b.story) };
}

impl Story for Book {
    ghost use Rattle.bc_profile.specs.Story.{author_of, note_of};
    ghost use Rattle.bc_profile.specs.Passes.{KeepsTo};

    type Base = BookBase;

    type Item = Noted;

    ghost entries_of = { λ book. book.story };

    ghost keeps = { KeepsTo };

    ghost by = { author_of };

    ghost note = { note_of };

    fn entries(&self) -> u64 {
        self.events() as u64
    }
}

impl Book {
    /// So many slots, all idle and without a key, and room for `limit` events.
    pub(crate) fn open(alloc: Global, slots: u16, limit: u32) -> Result<Book, AllocError>
        requires few { slots ≤ MAX_SLOTS }
        requires limit { limit < MAX_EVENTS }
        ensures { IfOk result (λ book. book ≡
            record { count = slots; story = []; refs = replicate slots 0; limit = limit }) }
    {
        Ok(Book {
            table: SlotTable::open(alloc, slots)?,
            epochs: copies(alloc, 0, slots as usize)?,
            story: Vec::with_capacity(alloc, limit as usize)?,
            limit,
        })
    }

    /// How many events there are.
    pub(crate) fn events(&self) -> usize
        ensures { result ≡ length self.now.story }
    {
        self.story.len()
    }

    /// Takes a hold of the key for a caller: its slot, and the place in the story of the event that
    /// programmed the slot with it. None where no slot has the key and each is held. There is room
    /// for an event.
    pub(crate) fn take_hold(&mut self, caller: u16, key: u16) -> Option<(u16, u32)>
        requires room { HasRoom self.old }
        ensures taken { IfSome result (λ hold. TakesHold self.old self.new caller key hold.0) }
        ensures holds { IfSome result (λ hold. Holds self.new.count self.new.story key hold.0 hold.1) }
        ensures none { IfNone result (NoneFree self.old key × (self.new ≡ self.old)) }
    {
        match self.table.take_hold(key) {
            Took::Found(slot) => Some((slot, self.epochs[slot as usize])),
            Took::Programmed(slot, skipped) => {
                let epoch = self.story.len() as u32;
                self.epochs[slot as usize] = epoch;
                self.story.push_reserved(Noted {
                    caller,
                    event: Event::Program { slot, key, skipped },
                });
                Some((slot, epoch))
            }
            Took::None => None,
        }
    }

    /// What the slots are, where each is held.
    pub(crate) fn words(&self) -> Words
        requires { AllHeld self.now }
        ensures count { length result ≡ self.now.count }
        ensures words { EachFrom (IsHeldBy self.now) 0 result }
    {
        let mut words = Words::new();
        for slot in 0..self.table.count() {
            let Some(key) = self.table.key(slot) else {
                unreachable!()
            };
            words.push(SlotWord {
                refs: self.table.refs(slot),
                state: SlotState::Ready,
                key,
                epoch: self.epochs[slot],
            });
        }
        words
    }

    /// Gives a hold of the slot back for a caller. Where no reference is left the slot is idle,
    /// which is recorded. There is room for an event.
    pub(crate) fn give_back(&mut self, caller: u16, slot: u16)
        requires room { HasRoom self.old }
        requires slot { slot < self.old.count }
        ensures { self.new ≡ given_back self.old caller slot }
    {
        if self.table.give_back(slot) {
            self.story.push_reserved(Noted {
                caller,
                event: Event::Idle { slot },
            });
        }
    }

    /// Takes the key out of its slot for a caller, unless that one is held; both are recorded.
    /// There is room for an event.
    ///
    /// # Errors
    ///
    /// The slot and its references, where it is held.
    pub(crate) fn evict(&mut self, caller: u16, key: u16) -> Result<(), Busy>
        requires room { HasRoom self.old }
        ensures evicted { MatchResult result
            (λ _. Empties self.old self.new caller key)
            (λ busy. IsBusy self.old self.new caller key busy.slot busy.refs) }
        ensures gone { OnOk result (IsGone self.new.count self.new.story key) }
    {
        match self.table.take_out(key) {
            Emptied::Nowhere => Ok(()),
            Emptied::Held(slot, refs) => {
                self.story.push_reserved(Noted {
                    caller,
                    event: Event::Busy { slot, key, refs },
                });
                Err(Busy { slot, refs })
            }
            Emptied::Taken(slot) => {
                self.story.push_reserved(Noted {
                    caller,
                    event: Event::Evict { slot, key },
                });
                Ok(())
            }
        }
    }

    /// Records a reset by a caller where no slot is held, and tells whether it did. There is room
    /// for an event.
    pub(crate) fn reset(&mut self, caller: u16) -> bool
        requires room { HasRoom self.old }
        ensures idle { result ≡ list_all (λ refs. refs == 0) self.old.refs }
        ensures made { self.new ≡
            if result then book_with_events self.old caller (events.Reset ∷ []) self.old.refs else self.old }
    {
        let idle = self.table.is_idle();
        if idle {
            self.story.push_reserved(Noted {
                caller,
                event: Event::Reset,
            });
        }
        idle
    }

    /// The story, whose events are a lawful journal.
    pub(crate) fn close(self) -> Vec<Noted>
        ensures story { result.items ≡ self.story }
        ensures lawful { IsLawful self.count (events_of self.story) }
        ensures within { length self.story ≤ self.limit }
    {
        let Book { story, .. } = self;
        story
    }
}
