//! Why a data unit isn't enciphered or deciphered.
use bc_key::KeyError;
use hex::FromHexError;
use thiserror::Error;

/// Why nothing is printed. Its text is what the user reads.
#[derive(Clone, Copy, Debug, PartialEq, Eq, Drop, Error)]
pub enum Refusal {
    /// The words are no command.
    #[error("bad command line")]
    Usage,
    /// KEY isn't pairs of hexadecimal digits.
    #[error("KEY is written in pairs of hexadecimal digits: {0}")]
    KeyDigits(FromHexError),
    /// No mode has keys of so many bytes.
    #[error("KEY has {got} bytes; AES-256-XTS has keys of 64 bytes (128 digits), AES-128-CBC-ESSIV of \
         16 bytes (32 digits)")]
    KeySize { got: usize },
    /// NUMBER isn't a data unit number's text.
    #[error("NUMBER has 1 to 64 hexadecimal digits in lower case, without 0x and without leading zeros; \
         the first number is 0")]
    Number,
    /// TEXT isn't pairs of hexadecimal digits.
    #[error("TEXT is written in pairs of hexadecimal digits: {0}")]
    TextDigits(FromHexError),
    /// It has more bytes than any data unit.
    #[error("the text has {got} bytes or more; a data unit has 512, 1024, 2048 or 4096 bytes")]
    TextSize { got: usize },
    /// KEY is no key for a data unit of the text's length.
    #[error("{0}")]
    Key(KeyError),
    /// Memory ran out.
    #[error("no memory")]
    Memory,
}

impl Refusal {
    /// The number that the process ends with: 1 for a bad command line, 9 out of memory, and else 2.
    pub fn code(&self) -> u8 {
        match self {
            Refusal::Usage => 1,
            Refusal::Memory => 9,
            _ => 2,
        }
    }
}
