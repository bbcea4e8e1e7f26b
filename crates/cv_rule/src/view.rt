//! What a seat of the office knows, and what it has in hand. These types exist in proofs alone.
use std::collections::LinkedList;

/// Who a seat is.
#[derive(Drop)]
pub enum Role {
    /// The seat in the lock, beside the book.
    Master,
    /// The pass of a worker.
    Pass(u64),
    /// What carries knowledge, and a row, from one seat to another.
    Note,
    /// A seat that was joined into another.
    Spent,
}

/// What was there when the office was made.
#[derive(Drop)]
pub struct Opening<M> {
    /// The plan, the round and the history.
    pub making: M,
    /// How many runs the round has.
    pub runs: u64,
    /// How many workers the plan has.
    pub workers: u64,
    /// The newest version of that history.
    pub newest: u64,
}

/// A draw by a worker, with the version below which its run adopts none.
#[derive(Drop)]
pub struct Row {
    pub worker: u64,
    pub draw: u64,
    pub floor: u64,
}

/// An entry of the round in the book's order, with the newest version after it.
#[derive(Drop)]
pub struct Posted {
    pub worker: u64,
    pub draw: u64,
    pub version: u64,
}

/// What a pass posted: the draw, and the versions that were loaded for it.
#[derive(Drop)]
pub struct Post {
    pub draw: u64,
    pub loaded: LinkedList<u64>,
}

/// What a seat knows of the office.
#[derive(Drop)]
pub struct Known<M, T> {
    /// None in a spent seat alone.
    pub opening: Option<Opening<M>>,
    /// The tables of the versions, from version 0 on.
    pub versions: LinkedList<T>,
    /// The entries of this round.
    pub posted: LinkedList<Posted>,
}

/// What a seat knows and has in hand.
#[derive(Drop)]
pub struct View<M, T> {
    pub role: Role,
    pub known: Known<M, T>,
    /// What the seat that was joined last knew, until the next load.
    pub beside: Known<M, T>,
    /// The greatest version that it has loaded or taken over.
    pub reach: u64,
    pub hand: LinkedList<Row>,
    /// Of a pass: the versions that it loaded since its last post.
    pub loaded: LinkedList<u64>,
    /// Of a pass: the version below which it loads none.
    pub floor: u64,
    /// Of a pass: the draw whose row it gave away and has not met in the book yet.
    pub on_its_way: Option<u64>,
    /// Of a pass: its posts, the oldest first.
    pub posts: LinkedList<Post>,
    /// Of the master: the workers without a pass.
    pub absent: LinkedList<u64>,
}
