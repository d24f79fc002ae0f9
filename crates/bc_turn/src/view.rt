//! What a seat of a cell knows. These are types of contracts: no value of them is made when a
//! program runs.
use std::collections::LinkedList;

/// What one caller has seen of a cell, how often it found the turn taken, and whether it has the
/// turn.
pub struct Account<E> {
    pub number: u64,
    pub seen: LinkedList<E>,
    pub missed: u64,
    pub has: bool,
}

/// The accounts of the callers that this seat stands for, and the cell's base, which is there where
/// it stands for any.
pub struct View<E, B> {
    pub base: Option<B>,
    pub accounts: LinkedList<Account<E>>,
}
