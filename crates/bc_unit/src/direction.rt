//! Which way a data unit goes.
ghost use Rattle.std.specs.Prelude.{◌≡◌};
ghost use Rattle.bc_unit.specs.Unit.{direction_of};

/// Which way a data unit goes.
#[derive(Clone, Copy, Debug, PartialEq, Eq)]
pub enum Direction {
    Encrypt,
    Decrypt,
}

impl Direction {
    /// The direction of a word, `encrypt` or `decrypt`. `None` of any other.
    pub fn of_word(word: &str) -> Option<Direction>
        ensures { result ≡ direction_of word.now }
    {
        if word == "encrypt" {
            Some(Direction::Encrypt)
        } else if word == "decrypt" {
            Some(Direction::Decrypt)
        } else {
            None
        }
    }
}
