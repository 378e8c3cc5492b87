//! Why the texts of a model are refused.

ghost use Rattle.std.specs.Prelude.{◌≡◌, None};
ghost use Rattle.dypdl_nodes.specs.declared.ends.LoadEnd.TheVariants.{Refused, Memory};

use dp_base::Place;
use std::alloc::{AllocError, AllocFailed};
use thiserror::Error;

/// Why two texts have no model: the first refusal, or want of memory.
#[derive(Debug, Drop, Error)]
pub enum LoadEnd {
    /// The number of the rule that is broken, and where. In an expression `offset` is the byte in it, from 0.
    #[error("refused for {number} at {place:?}, offset {offset:?}")]
    Refused {
        number: u8,
        place: Place,
        offset: Option<u32>,
    },
    #[error("out of memory")]
    Memory,
}

impl From<AllocError> for LoadEnd {
    ghost from_gives = { λ _ e. e ≡ Memory };

    fn from(_error: AllocError) -> LoadEnd {
        LoadEnd::Memory
    }
}

impl<T: Drop> From<AllocFailed<T>> for LoadEnd {
    ghost from_gives = { λ _ e. e ≡ Memory };

    fn from(_error: AllocFailed<T>) -> LoadEnd {
        LoadEnd::Memory
    }
}

/// A refusal of the node at a place. The numbers are those of `rules`.
pub fn refused(number: u8, place: Place) -> LoadEnd
    ensures { result ≡ Refused number place None }
{
    LoadEnd::Refused {
        number,
        place,
        offset: None,
    }
}
