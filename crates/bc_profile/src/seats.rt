//! From the passes of turns to passes of a profile, and back.
ghost use Rattle.std.specs.Prelude.{◌≡◌, ◌≤◌, [], length, map, reverse, None, vec_capacity, vec_len};
ghost use Rattle.bc_base.specs.Lists.{Each};
ghost use Rattle.bc_profile.specs.Story.{events_of};
ghost use Rattle.bc_profile.specs.Passes.{HasOneAtRest, pass_of};

use crate::{Book, Event, Noted, SlotPass};
use bc_turn::TurnPass;

/// Makes passes of these, which have no hold. There is room for them in `passes`, which is empty.
pub(crate) fn seat(mut turns: Vec<TurnPass<Book>>, passes: &mut Vec<SlotPass>)
    requires rest { Each HasOneAtRest turns.items }
    requires empty { passes.old.items ≡ [] }
    requires room { length turns.items ≤ vec_capacity passes.old }
    ensures { passes.new.items ≡ map pass_of turns.items }
{
    turn_round(&mut turns);
    while let Some(turn) = turns.pop() {
        passes.push_reserved(SlotPass { turn, hold: None });
    }
}

/// Takes the passes of turns out of these, which have no hold. There is room for them in `turns`,
/// which is empty.
pub(crate) fn unseat(mut passes: Vec<SlotPass>, turns: &mut Vec<TurnPass<Book>>)
    requires free { Each (λ pass. pass.hold ≡ None) passes.items }
    requires empty { turns.old.items ≡ [] }
    requires room { length passes.items ≤ vec_capacity turns.old }
    ensures rest { Each HasOneAtRest turns.new.items }
    ensures same { map pass_of turns.new.items ≡ passes.items }
{
    turn_round(&mut passes);
    while let Some(pass) = passes.pop() {
        let SlotPass { turn, hold: _ } = pass;
        turns.push_reserved(turn);
    }
}

/// Takes the events out of a story. There is room for them in `journal`, which is empty.
pub(crate) fn take_events(mut story: Vec<Noted>, journal: &mut Vec<Event>)
    requires empty { journal.old.items ≡ [] }
    requires room { length story.items ≤ vec_capacity journal.old }
    ensures { journal.new.items ≡ events_of story.items }
{
    turn_round(&mut story);
    while let Some(noted) = story.pop() {
        journal.push_reserved(noted.event);
    }
}

/// The last first.
fn turn_round<T>(items: &mut Vec<T>)
    ensures items { items.new.items ≡ reverse items.old.items }
    ensures length { vec_len items.new ≡ vec_len items.old }
{
    items.as_mut_slice().reverse();
}
