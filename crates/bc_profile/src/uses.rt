//! What one caller does with a device.
ghost use Rattle.std.specs.Prelude.{◌≡◌, ◌*◌, length, All, None};
ghost use Rattle.bc_profile.specs.OneCaller.{events_of_use, journal_of};
ghost use Rattle.bc_profile.specs.Solo.{HasSpare, NamesRow, solo_with_events, slots_of};

use crate::Solo;
use bc_key::KeyNo;

/// One use of a device by its one caller.
#[derive(Clone, Copy, Debug, PartialEq, Eq)]
pub enum Use {
    /// The caller takes a hold of the key, and gives it back.
    Hold(KeyNo),
    /// The key is evicted.
    Evict(KeyNo),
    /// The device is reset.
    Reset,
}

impl Solo {
    /// Carries out the uses, one after the other, by the calls that they are named after. No slot
    /// is held, each key has a row, and the journal has room for two events for each use.
    pub fn carry_out(&mut self, uses: &[Use])
        requires free { self.old.held ≡ None }
        requires keys { All (NamesRow (length self.old.rows)) uses.now }
        requires spare { HasSpare self.old (2 * length uses.now) }
        ensures { self.new ≡ solo_with_events self.old (journal_of (slots_of self.old) uses.now) None }
    {
        for one in uses {
            self.carry_out_one(*one);
        }
    }

    /// Carries out one use.
    pub(crate) fn carry_out_one(&mut self, one: Use)
        requires free { self.old.held ≡ None }
        requires key { NamesRow (length self.old.rows) one }
        requires spare { HasSpare self.old 2 }
        ensures { self.new ≡ solo_with_events self.old (events_of_use (slots_of self.old) one) None }
    {
        match one {
            Use::Hold(key) => {
                let (slot, _) = self.hold(key);
                self.put(slot);
            }
            Use::Evict(key) => self.evict(key),
            Use::Reset => self.reset(),
        }
    }
}
