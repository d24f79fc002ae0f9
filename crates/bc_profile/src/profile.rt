//! The keyslot manager of a device that has many callers: its book behind one turn.
ghost use Rattle.std.specs.Prelude.{◌≡◌, ◌-◌, ◌<◌, [], ◌∷◌, length, if◌then◌else◌, Some, None, IfOk, IfErr, List, MatchResult, map, sum, slice_index_or, ◌≤◌};
ghost use Rattle.std.specs.List.{range_with_len};
ghost use Rattle.bc_base.specs.Lists.{Each};
ghost use Rattle.bc_profile.specs.declared.noted.Noted.{Noted};
ghost use Rattle.bc_profile.specs.declared.event.Event.TheVariants.{Reset};
ghost use Rattle.bc_profile.specs.declared.limits.TheConstants.{ROW_WORDS, MAX_SLOTS, MAX_EVENTS};
ghost use Rattle.bc_profile.specs.Story.{Holds, events_of};
ghost use Rattle.bc_profile.specs.Passes.{IsOf, HasSpare, Noticed, Gets, AllFoundHeld, Puts, Evicts, RefusesEviction, slots_in, row_at, base_in, quota_of, made_by, new_pass, AreAllHere, IsClosedStory, IsFree};

use crate::seats::{seat, take_events, unseat};
use crate::{Book, BookBase, Busy, Event, Hold, Row, SlotPass, Words};
use bc_key::KeyNo;
use bc_turn::Turns;
use std::alloc::{AllocError, Global};
use std::marker::Model;
use std::sync::Wait;
use std::thread;
use thiserror::Error;

/// Why no hold was taken: no slot has the key, and each was found held.
#[derive(Debug, Drop, Error)]
#[error("no slot has the key, and each is held")]
pub struct AllHeld {
    /// What each slot was found to be.
    pub words: Words,
}

/// The keyslot manager of a device that has many callers.
#[derive(Drop)]
pub struct Profile {
    alloc: Global,
    turns: Turns<Book>,
    /// The register row of each key.
    rows: Vec<Row>,
    /// How many events each caller may make.
    quotas: Vec<u32>,
}

impl Model for Profile {
    ghost use Rattle.bc_profile.specs.Passes.{ProfileData, IsProfile};

    ghost Value = { ProfileData };

    ghost view = { λ p. record { turns = p.turns; rows = p.rows.items } };

    ghost invariant = { λ p. IsProfile p.turns p.quotas.items };
}

/// The sum of the quotas.
fn total(quotas: &[u32]) -> u32
    requires { sum quotas.now < MAX_EVENTS }
    ensures { result ≡ sum quotas.now }
{
    quotas.iter().sum()
}

impl Profile {
    /// A device with `slots` slots, 1 to [`MAX_SLOTS`](crate::MAX_SLOTS), none of which has a key,
    /// and a pass for each caller, whose numbers are 0, 1 and so on in order. `rows` has the
    /// register row of each key at the key's number, of at most 4096, and `quotas` how many events
    /// each caller may make, of 1 to 65,535 callers.
    ///
    /// # Errors
    ///
    /// Where there is no memory for them.
    pub fn open(
        alloc: Global,
        slots: u16,
        rows: Vec<Row>,
        quotas: Vec<u32>,
    ) -> Result<(Profile, Vec<SlotPass>), AllocError>
        requires some { 1 ≤ slots }
        requires few { slots ≤ MAX_SLOTS }
        requires rows { length rows.items ≤ 4096 }
        requires callers { (1 ≤ length quotas.items) × (length quotas.items ≤ 65535) }
        requires events { sum quotas.items < MAX_EVENTS }
        ensures base { IfOk result (λ r. base_in r.0 ≡ record { slots = slots; quotas = quotas.items }) }
        ensures rows { IfOk result (λ r. r.0.rows ≡ rows.items) }
        ensures callers { IfOk result (λ r. r.0.turns.callers ≡ length quotas.items) }
        ensures passes { IfOk result (λ r. r.1.items ≡ map (new_pass r.0) (range_with_len 0 (length quotas.items))) }
        ensures are_of { IfOk result (λ r. Each (IsFree r.0) r.1.items) }
    {
        let callers = quotas.len() as u16;
        let base = BookBase::of(&slots, &quotas);
        let book = Book::open(alloc, slots, total(quotas.as_slice()))?;
        let mut passes = Vec::with_capacity(alloc, quotas.len())?;
        let mut values = Vec::new(alloc);
        values.push((book, base))?;
        let (turns, seats) = Turns::open(alloc, values, callers)?;
        seat(seats, &mut passes);
        let profile = Profile {
            alloc,
            turns,
            rows,
            quotas,
        };
        Ok((profile, passes))
    }

    /// The journal at the end. All passes are here, and none has a hold.
    ///
    /// The journal is the events of a story: a lawful journal, which begins with what each pass has
    /// seen, and in which the events of a caller are those that its pass made, each once, in its
    /// order.
    ///
    /// # Errors
    ///
    /// Out of memory: then all is handed back as it was.
    pub fn close(self, passes: Vec<SlotPass>) -> Result<Vec<Event>, (Profile, Vec<SlotPass>)>
        requires passes { Each (IsOf self) passes.items }
        requires free { Each (λ pass. pass.hold ≡ None) passes.items }
        requires here { AreAllHere self passes.items }
        ensures closed { IfOk result (λ journal. (story : List Noted) × (journal.items ≡ events_of story)
            × IsClosedStory self passes.items story) }
        ensures back { IfErr result (λ back. (back.0 ≡ self) × (back.1.items ≡ passes.items)) }
    {
        let limit = total(self.quotas.as_slice()) as usize;
        let Ok(mut journal) = Vec::with_capacity(self.alloc, limit) else {
            return Err((self, passes));
        };
        let Ok(mut seats) = Vec::with_capacity(self.alloc, passes.len()) else {
            return Err((self, passes));
        };
        let Ok(mut back) = Vec::with_capacity(self.alloc, passes.len()) else {
            return Err((self, passes));
        };
        unseat(passes, &mut seats);
        let Profile {
            alloc,
            turns,
            rows,
            quotas,
        } = self;
        match turns.close(seats) {
            Ok(mut books) => {
                let Some(book) = books.pop() else {
                    unreachable!()
                };
                take_events(book.close(), &mut journal);
                Ok(journal)
            }
            Err((turns, seats)) => {
                seat(seats, &mut back);
                let profile = Profile {
                    alloc,
                    turns,
                    rows,
                    quotas,
                };
                Err((profile, back))
            }
        }
    }

    /// Takes a hold of the key, if a slot has it or a slot isn't held. Such a slot, the first of
    /// the idle order, is programmed with the key where none has it. Paired with [`Profile::put`].
    /// The pass has no hold and a spare of two events, of which one is kept for the call of `put`;
    /// the key has a row.
    ///
    /// # Errors
    ///
    /// What each slot was found to be, where none has the key and all are held.
    pub fn try_get<R: Wait>(&self, rt: &R, pass: &mut SlotPass, key: KeyNo) -> Result<Hold, AllHeld>
        requires pass { IsOf self.now pass.old }
        requires free { pass.old.hold ≡ None }
        requires key { key.0 < length self.now.rows }
        requires spare { HasSpare self.now pass.old 2 }
        ensures pass { IsOf self.now pass.new }
        ensures key { IfOk result (λ hold. hold.key ≡ key.0) }
        ensures held { IfOk result (λ hold. pass.new.hold ≡ Some hold) }
        ensures got { IfOk result (λ hold. Gets (slots_in self.now) pass.old pass.new key.0 hold.slot) }
        ensures holds { IfOk result (λ hold. Holds (slots_in self.now) pass.new.seen key.0 hold.slot hold.epoch) }
        ensures none { IfErr result (λ all. (pass.new.hold ≡ None) × Noticed pass.old pass.new []
            × AllFoundHeld (slots_in self.now) pass.new.seen key.0 all.words) }
    {
        let mut book = self.turns.take(rt, &mut pass.turn, 0);
        let taken = book.take_hold(pass.turn.number(), key.0);
        let Some((slot, epoch)) = taken else {
            let words = book.words();
            self.turns.give(&mut pass.turn, 0, book);
            return Err(AllHeld { words });
        };
        self.turns.give(&mut pass.turn, 0, book);
        let hold = Hold::new(slot, key.0, epoch, self.rows[key.0 as usize]);
        pass.hold = Some(hold.again());
        Ok(hold)
    }

    /// Takes a hold of the key, as [`Profile::try_get`]; while no slot has the key and all are held
    /// it tries again.
    pub fn get<R: Wait>(&self, rt: &R, pass: &mut SlotPass, key: KeyNo) -> Hold
        requires pass { IsOf self.now pass.old }
        requires free { pass.old.hold ≡ None }
        requires key { key.0 < length self.now.rows }
        requires spare { HasSpare self.now pass.old 2 }
        ensures pass { IsOf self.now pass.new }
        ensures key { result.key ≡ key.0 }
        ensures held { pass.new.hold ≡ Some result }
        ensures got { Gets (slots_in self.now) pass.old pass.new key.0 result.slot }
        ensures holds { Holds (slots_in self.now) pass.new.seen key.0 result.slot result.epoch }
    {
        for _ in rt.forever() {
            if let Ok(hold) = self.try_get(rt, pass, key) {
                return hold;
            }
            thread::yield_now();
        }
        unreachable!()
    }

    /// Gives the hold of the pass back. Where no reference is left the slot is idle. The pass has a
    /// spare of an event.
    pub fn put<R: Wait>(&self, rt: &R, pass: &mut SlotPass, hold: Hold)
        requires pass { IsOf self.now pass.old }
        requires held { pass.old.hold ≡ Some hold }
        requires spare { HasSpare self.now pass.old 1 }
        ensures pass { IsOf self.now pass.new }
        ensures free { pass.new.hold ≡ None }
        ensures put { Puts pass.old pass.new hold.slot }
    {
        let mut book = self.turns.take(rt, &mut pass.turn, 0);
        book.give_back(pass.turn.number(), hold.slot());
        self.turns.give(&mut pass.turn, 0, book);
        pass.hold = None;
    }

    /// Takes the key out of its slot, if a slot has it, unless that one is held. The pass has no
    /// hold and a spare of an event.
    ///
    /// # Errors
    ///
    /// The slot and the references that were found on it, where it is held; that is recorded too.
    pub fn evict<R: Wait>(&self, rt: &R, pass: &mut SlotPass, key: KeyNo) -> Result<(), Busy>
        requires pass { IsOf self.now pass.old }
        requires free { pass.old.hold ≡ None }
        requires key { key.0 < length self.now.rows }
        requires spare { HasSpare self.now pass.old 1 }
        ensures pass { IsOf self.now pass.new }
        ensures free { pass.new.hold ≡ None }
        ensures evicted { MatchResult result
            (λ _. Evicts (slots_in self.now) pass.old pass.new key.0)
            (λ busy. RefusesEviction (slots_in self.now) pass.old pass.new key.0 busy.slot busy.refs) }
    {
        let mut book = self.turns.take(rt, &mut pass.turn, 0);
        let evicted = book.evict(pass.turn.number(), key.0);
        self.turns.give(&mut pass.turn, 0, book);
        evicted
    }

    /// Resets the device: all slots are programmed again, once none is held; until then it tries
    /// again. Keys, events and the idle order stay. The pass has no hold and a spare of an event.
    pub fn reset<R: Wait>(&self, rt: &R, pass: &mut SlotPass)
        requires pass { IsOf self.now pass.old }
        requires free { pass.old.hold ≡ None }
        requires spare { HasSpare self.now pass.old 1 }
        ensures pass { IsOf self.now pass.new }
        ensures free { pass.new.hold ≡ None }
        ensures reset { Noticed pass.old pass.new (Reset ∷ []) }
    {
        for _ in rt.forever() {
            if self.try_reset(rt, pass) {
                return;
            }
            thread::yield_now();
        }
        unreachable!()
    }

    /// Resets the device where no slot is held, and tells whether it did.
    fn try_reset<R: Wait>(&self, rt: &R, pass: &mut SlotPass) -> bool
        requires pass { IsOf self.now pass.old }
        requires free { pass.old.hold ≡ None }
        requires spare { HasSpare self.now pass.old 1 }
        ensures pass { IsOf self.now pass.new }
        ensures free { pass.new.hold ≡ None }
        ensures made { Noticed pass.old pass.new (if result then Reset ∷ [] else []) }
    {
        let mut book = self.turns.take(rt, &mut pass.turn, 0);
        let done = book.reset(pass.turn.number());
        self.turns.give(&mut pass.turn, 0, book);
        done
    }

    /// A register of the hold's key's row. The hold is the pass's.
    pub fn load(&self, pass: &mut SlotPass, hold: &Hold, register: u8) -> u32
        requires pass { IsOf self.now pass.old }
        requires held { pass.old.hold ≡ Some hold.now }
        requires register { register < ROW_WORDS }
        ensures same { pass.new ≡ pass.old }
        ensures register { result ≡ slice_index_or (row_at self.now hold.now.key) register 0 }
    {
        let _ = pass;
        hold.register(register)
    }

    /// How many events more the pass's caller may make.
    pub fn spare(&self, pass: &SlotPass) -> u32
        requires { IsOf self.now pass.now }
        ensures { result ≡ quota_of (base_in self.now) pass.now.caller - length (made_by pass.now) }
    {
        let quota = u64::from(self.quotas[usize::from(pass.number())]);
        quota.saturating_sub(pass.made()) as u32
    }
}
