//! The unit ciphers: how one data unit is enciphered and deciphered under a key and a data unit
//! number.
//!
//! `UnitCipher` does it for both modes, AES-256-XTS (IEEE 1619) and AES-128-CBC-ESSIV, in place.
//! What comes out is said by the definitions of `specs/`: `UnitCipher` goes by the mode to `Xts`,
//! whose tweaks are polynomials (`Tweak`), and to `CbcEssiv`.
//!
//! A key's data units, the second under the number that follows (`encipher_two` of the crate
//! `uses`):
//!
//!     let cipher = UnitCipher::of_key(key);
//!     cipher.encrypt(number, first);
//!     cipher.encrypt(&number.plus(1), second);
//!
//! A controller with inline encryption holds keys in its registers, as crypto configuration
//! entries: [`entry_words`] makes a key's entry, and [`cipher_of_words`] reads one as the unit
//! cipher that it means, or says why it means none (`Entries`). What a controller can do is its
//! [`UfsCaps`] (`Capabilities`).
//!
//! Nothing here allocates or waits, and no cipher refuses a data unit.
#![tactic(auto)]

// the two modes
mod essiv;
mod xts;

// what they share
mod piece;
mod tweak;

// a key's cipher, and its laws
mod laws;
mod unit_cipher;

// a controller's capabilities, and the entries of its keyslots
mod entry;
mod entry_bytes;
mod ufs_caps;

pub use entry::{EntryError, cipher_of_words, entry_words};
pub use entry_bytes::ENTRY_WORDS;
pub use laws::{entry_laws, unit_laws};
pub use ufs_caps::{Capability, UfsCaps};
pub use unit_cipher::UnitCipher;

#[cfg(test)]
mod entry_tests;
#[cfg(test)]
mod tests;
