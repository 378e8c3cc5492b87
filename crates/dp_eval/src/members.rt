//! The members of a set that was evaluated, which need no copy where they are only read.

ghost use Rattle.std.specs.Prelude.{◌≡◌, IfOk};

use dp_model::Seq;
use std::alloc::{AllocError, Global};
use std::marker::Model;

/// Where members lie.
#[derive(Debug, Drop)]
pub enum Held<'a> {
    Lent(&'a Seq<u32>),
    Own(Seq<u32>),
}

/// A list of members, lent by the state or the table that has it, or made by an operation.
#[derive(Debug, Drop)]
pub struct Members<'a> {
    held: Held<'a>,
}

impl<'a> Model for Members<'a> {
    ghost use Rattle.std.specs.Prelude.{List, ℕ};
    ghost use Rattle.dp_eval.specs.Members.{members_held};

    ghost Value = { List ℕ };

    ghost view = { λ m. members_held m.held };
}

impl<'a> Members<'a> {
    /// The members of a list that is lent.
    pub fn lent(set: &'a Seq<u32>) -> Members<'a>
        ensures { result ≡ set.now }
    {
        Members {
            held: Held::Lent(set),
        }
    }

    /// The members of a list that nothing else has.
    pub fn own(set: Seq<u32>) -> Members<'a>
        ensures { result ≡ set }
    {
        Members {
            held: Held::Own(set),
        }
    }

    /// The list, wherever it lies.
    pub fn list(&self) -> &[u32]
        ensures { result.now ≡ self.now }
    {
        match &self.held {
            Held::Lent(set) => set.list(),
            Held::Own(set) => set.list(),
        }
    }

    /// A list of its own: a copy of one that is lent.
    pub fn into_own(self, alloc: Global) -> Result<Seq<u32>, AllocError>
        ensures { IfOk result (λ set. set ≡ self.entry) }
    {
        let Members { held } = self;
        match held {
            Held::Lent(set) => copied(alloc, set),
            Held::Own(set) => Ok(set),
        }
    }
}

/// A copy of a list.
pub fn copied(alloc: Global, items: &Seq<u32>) -> Result<Seq<u32>, AllocError>
    ensures { IfOk result (λ copy. copy ≡ items.now) }
{
    Ok(Seq::of(Vec::from_slice(alloc, items.list())?))
}
