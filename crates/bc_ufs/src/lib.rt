//! The controller of a device with inline encryption: it enciphers what is written to the device and deciphers what is
//! read from it by the keys in its keyslots' registers, after UFSHCI.
//!
//! A caller takes a hold of a key from the controller's [`Profile`](bc_profile::Profile), names it with each data unit
//! of a request ([`Controller::write`], [`Controller::read`]), and puts it back. What a register word means is the
//! crate bc_modes's to say, whose names for it are here too.
#![tactic(auto)]

mod controller;
mod last_cipher;

pub use bc_modes::{Capability, EntryError, UfsCaps, cipher_of_words, entry_words};
pub use controller::Controller;
pub use last_cipher::LastCipher;
