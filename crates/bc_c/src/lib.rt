//! The unit ciphers for programs in C, and in what calls C: a static library.
//!
//! [`blkcrypt_encrypt_units`] and [`blkcrypt_decrypt_units`] take a buffer of whole consecutive
//! data units, each under the number that follows the one before; [`blkcrypt_check_key`] tells
//! whether a key is one. They are declared, with what a caller has to keep, in
//! `include/blkcrypt.h`. Nothing here allocates, waits, prints or keeps a state.
#![tactic(auto)]

mod direction;
mod exports;
mod keys;
mod units;

pub use exports::{blkcrypt_check_key, blkcrypt_decrypt_units, blkcrypt_encrypt_units};
