//! A packed state.

ghost use Rattle.std.specs.Prelude.{◌≡◌, IfOk};
ghost use Rattle.state_layout.specs.Packing.{state_in, HasFirstRow};

use smallvec::SmallVec;
use std::alloc::{AllocError, Global};
use std::marker::Model;

/// How many words stand in a state itself.
pub(crate) const IN_PLACE: usize = 5;

/// The words of a state; up to five of them stand in the value itself.
pub(crate) type Words = SmallVec<u64, 5>;

/// The same words. Five, as nearly every state has, are copied where they go.
#[inline(always)]
#[tactic(auto, using(crate::proofs::Carrying::five))]
pub(crate) fn words_like(alloc: Global, words: &[u64]) -> Result<Words, AllocError>
    ensures { IfOk result (λ new. new.items ≡ words.now) }
{
    if words.len() == 5 {
        let five = [words[0], words[1], words[2], words[3], words[4]];
        Ok(SmallVec::from_buf(alloc, five))
    } else {
        SmallVec::from_slice(alloc, words)
    }
}

/// A state in packed form, which contracts see as the plain state.
#[derive(Debug, Drop)]
pub struct Packed {
    words: Words,
}

impl Model for Packed {
    ghost use Rattle.dp_model.specs.declared.parts.PlainState.{PlainState};

    ghost Value = { PlainState };

    ghost use Rattle.state_layout.specs.Packing.{state_in, HasFirstRow};

    ghost view = { λ p. state_in p.words.items };

    ghost invariant = { λ p. HasFirstRow p.words.items };
}

impl Packed {
    pub(crate) fn of(words: Words) -> Packed
        requires { HasFirstRow words.items }
        ensures { result ≡ state_in words.items }
    {
        Packed { words }
    }

    /// A state of no variables. It takes no memory.
    #[inline(always)]
    pub(crate) fn blank(alloc: Global) -> Packed {
        Packed {
            words: SmallVec::from_buf(alloc, [0; IN_PLACE]),
        }
    }

    pub(crate) fn words(&self) -> &[u64]
        ensures state { state_in result.now ≡ self.now }
        ensures row { HasFirstRow result.now }
    {
        self.words.as_slice()
    }

    pub(crate) fn copy(&self, alloc: Global) -> Result<Packed, AllocError>
        ensures { IfOk result (λ p. p ≡ self.now) }
    {
        Ok(Packed {
            words: words_like(alloc, self.words.as_slice())?,
        })
    }
}
