//! The image that `make` leaves.
//!
//! A generated script is carried out by one caller or by many threads at once, over one shard or
//! many, and the data units of its threads meet in any order. The definition `made_image` says what
//! is left of zeros, and speaks of the number of pairs alone; [`runs_leave_the_made_image`] is the
//! law that every lawful run leaves it.
#![tactic(auto)]

mod laws;

pub use laws::runs_leave_the_made_image;
