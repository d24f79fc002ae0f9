//! What can stand behind a turn.
ghost use Rattle.std.specs.Prelude.{◌≡◌, ℕ, List, length};
ghost use Rattle.bc_turn.specs.Note.{Note};

/// A value that counts its history: a list of entries that only grows, each of which names the
/// caller that made it, and a base that no call changes.
///
/// A value keeps to its base: `keeps base value` says what holds between what stood at opening and
/// what stands now, for instance that a shard's sectors are what its entries leave of the sectors
/// at opening. So no copy of what was at opening is kept behind the turn.
pub trait Story {
    /// What is known of the value since opening.
    type Base: Drop;

    /// An entry of the history.
    type Item;

    /// The history, the first entry first.
    ghost entries_of: { Self → List Self.Item };

    /// The value keeps to the base.
    ghost keeps: { Self.Base → Self → Type 0 };

    /// The number of the caller that made the entry.
    ghost by: { Self.Item → ℕ };

    /// What the entry says of a keyslot.
    ghost note: { Self.Item → Note };

    /// How many entries there are.
    fn entries(&self) -> u64
        ensures { result ≡ length (entries_of self.now) };
}
