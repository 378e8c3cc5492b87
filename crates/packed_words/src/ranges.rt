//! What a `forall` ranges over.

/// The members that a `forall` ranges over: a whole object type with so many, those of a set in one word, or those of the
/// set that a variable of a larger object type holds.
#[derive(Clone, Copy)]
pub enum Range {
    Whole(u32),
    Word(u64),
    Wide(u32),
}
