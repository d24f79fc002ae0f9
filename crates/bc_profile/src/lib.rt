//! The keyslot manager of a device: which key is in which slot, and the journal of what became of
//! the slots.
//!
//! A device with inline encryption enciphers under the keys in its keyslots, of which it has 1 to
//! [`MAX_SLOTS`]; there may be many more keys. Whoever sends a request to the device calls the
//! manager: [`Solo::hold`] before it, which gives the slot that the request has to name, and
//! [`Solo::put`] of that slot after it, as a driver's requests go between `blk_crypto_get_keyslot`
//! and `blk_crypto_put_keyslot` in Linux. A key that a slot has is used there; for another one the
//! least recently idle slot is programmed. A key that is no longer wanted is taken out by
//! [`Solo::evict`] (`__blk_crypto_evict_key`), and [`Solo::reset`] programs all slots again after
//! the device has lost what it had (`blk_crypto_reprogram_all_keys`).
//!
//! [`Solo`] is the manager for one caller, which has one hold at a time, so that a slot is always
//! free. Each call records an [`Event`]: the journal of a device is the list of its events, and is
//! a function of the calls alone.
#![tactic(auto)]

mod limits;

// the journal
mod event;
mod skips;

// the manager for one caller
mod lists;
mod registers;
mod search;
mod solo;
mod uses;

// the manager for many callers
mod book;
mod book_base;
mod hold;
mod noted;
mod profile;
mod seats;
mod slot_pass;
mod slot_word;
mod table;

// what holds of all holds
mod laws;

pub use book::{Book, Busy};
pub use book_base::BookBase;
pub use event::Event;
pub use hold::Hold;
pub use laws::hold_laws;
pub use limits::{MAX_EVENTS, MAX_SLOTS, ROW_WORDS};
pub use noted::Noted;
pub use profile::{AllHeld, Profile};
pub use registers::Row;
pub use skips::{Skip, Skips};
pub use slot_pass::SlotPass;
pub use slot_word::{SlotState, SlotWord, Words};
pub use solo::Solo;
pub use uses::Use;

#[cfg(test)]
mod pass_tests;
#[cfg(test)]
mod tests;
