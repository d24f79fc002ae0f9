//! Values behind turns: shared by many callers, and changed by one at a time, each of whom knows
//! what it has seen.
//!
//! A [`Turns`] keeps values in cells. Each caller has a [`TurnPass`], which it takes along:
//! [`Turns::take`] waits for the turn of a cell and moves the value out, [`Turns::give`] moves it
//! back, and between the two nobody else has it. The value is a [`Story`]: a list of entries that
//! only grows, each by one caller. A pass remembers how far it has seen each story, its seen front.
//! What is taken begins with all that the pass had seen, and has of this caller the pass's own
//! entries alone; so a caller can rely on what it did, whatever others do meanwhile. When all
//! passes come together again, [`Turns::close`] gives the values back: each pass's seen front is a
//! prefix of the value's story, and the entries of a caller are those that its pass made, each
//! once, in its order.
//!
//! A turn is one word: twice the number of entries of the value that was given last, and one more
//! while a caller has it. Taking a free one is one fetch, giving it one store; the value itself is
//! moved and not copied, so a large one stands after a handle of a few words (a `Vec`, a `Box`).
#![tactic(auto)]

// what stands behind a turn
mod story;

// one cell, its word and its seats
mod cell;
mod view;

// a caller's pass: its seat at each cell
mod pass;
mod post;

// many cells
mod turns;

pub use pass::TurnPass;
pub use story::Story;
pub use turns::Turns;
