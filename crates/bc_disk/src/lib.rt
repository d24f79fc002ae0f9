//! The block device: bios that go inline by its devices, by software or in the clear, for many callers.
//!
//! A [`Disk`] has a queue of devices over a medium of shards. Each caller has a [`Pass`], and submits bios by it, one
//! at a time or plugged; evicts keys and resets devices; and is answered along what it has seen of the orders and
//! journals, whatever others do meanwhile. [`Disk::close`] gives the orders, the journals and the stores.
#![tactic(auto)]

mod closing;
mod dealing;
mod disk;
mod eviction;
mod inline_way;
mod opening;
mod pass;
mod soft_access;
mod split;
mod submission;

pub use closing::{Closed, Closing};
pub use disk::{Disk, PlugBack};
pub use eviction::Busy;
pub use opening::{Opened, Quota};
pub use pass::Pass;
