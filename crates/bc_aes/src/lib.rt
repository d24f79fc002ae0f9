//! The block cipher AES, as FIPS 197 defines it, under keys of 16 bytes (AES-128) and of 32 bytes
//! (AES-256).
//!
//! `Aes128` and `Aes256` hold an expanded key, and encipher and decipher blocks of 16 bytes in
//! place, one at a time or a text of whole blocks at once. `Aes256Enc` holds less, and enciphers
//! single blocks; `Aes256Pieces` takes texts of whole pieces of eight blocks. What each call does
//! is said by the definitions of `specs/`, in the standard's names and order: the field (`Field`),
//! the transformations of the state (`State`), the key expansion (`KeyExpansion`) and the cipher
//! (`Cipher`). `cipher_laws` states that either direction undoes the other. `plain` is the slow
//! program that computes as the definitions do. Nothing here allocates, waits or refuses.
//!
//! Many blocks go eight at a time through bit slices (`slices`, `circuit`, `layers`, `eight`),
//! which look up no table. Single blocks, and what is left of a text below eight blocks, look up
//! tables (`columns`, `rounds`), whose entries a key and a text choose: time and caches tell of
//! both. So does the key expansion.
#![tactic(auto)]

// single blocks and the schedule, by tables
mod columns;
mod rounds;
mod schedule;
mod tables;

// eight blocks, in bit slices
mod circuit;
mod eight;
mod layers;
mod round_keys;
mod slices;

// texts, and keys
mod aes128;
mod aes256;
mod aes256_enc;
mod aes256_pieces;
mod blocks;

// the laws, and the plain program
mod laws;
pub mod plain;

pub use aes128::Aes128;
pub use aes256::Aes256;
pub use aes256_enc::Aes256Enc;
pub use aes256_pieces::Aes256Pieces;
pub use laws::cipher_laws;

#[cfg(test)]
mod tests;
