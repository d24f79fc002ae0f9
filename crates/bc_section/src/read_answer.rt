//! The answer of a read.

ghost use Rattle.std.specs.Prelude.{◌≡◌, ◌==◌, ◌≤◌, ℕ, List, ◌∷◌, length};
ghost use Rattle.std.specs.List.{list_all};
ghost use Rattle.bc_report.specs.Answers.{read_answer};
ghost use Rattle.bc_report.specs.Report.{IsAnswer};

use bc_report::Answer;
use sha2::{Digest, Sha256};

/// The answer of a read of these bytes.
pub fn answer_of(bytes: &[u8]) -> Answer
    ensures answer { result ≡ read_answer bytes.now }
    ensures range { IsAnswer result }
{
    match bytes {
        [] => Answer::ReadSum(Sha256::digest(bytes)),
        [first, ..] => {
            if are_equal(bytes) {
                Answer::ReadFill(*first)
            } else {
                Answer::ReadSum(Sha256::digest(bytes))
            }
        }
    }
}

/// Whether all of the bytes are equal: they are where they stay the same one place further on.
fn are_equal(bytes: &[u8]) -> bool
    requires some { 1 ≤ length bytes.now }
    ensures { (first : ℕ) (others : List ℕ) → bytes.now ≡ first ∷ others
        → result ≡ list_all (λ other. other == first) others }
{
    bytes[1..] == bytes[..bytes.len() - 1]
}
