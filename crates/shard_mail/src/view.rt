//! What the ends of a mailbox know.
use std::collections::LinkedList;

/// What a view is of.
pub enum Role {
    /// It has no right to do anything.
    Spent,
    /// It is a poster's.
    Posts,
    /// It is the taker's.
    Takes,
}

/// What one end of a mailbox knows. No value of it is made: it stands in contracts alone.
pub struct View<T> {
    pub role: Role,
    /// The poster's number.
    pub number: u64,
    /// How many posters the mailbox may have.
    pub senders: u64,
    /// The name of the terms.
    pub terms: LinkedList<u64>,
    /// What the poster posted.
    pub posted: LinkedList<T>,
    /// What the taker took.
    pub taken: LinkedList<T>,
    /// How many posters the taker made.
    pub made: u64,
    /// The number of each poster that ended, and what it had posted.
    pub ended: LinkedList<(u64, LinkedList<T>)>,
}
