//! How the making of a certificate ends before it is whole.

ghost use Rattle.std.specs.Prelude.{◌≡◌};
ghost use Rattle.cert_making.specs.declared.ends.CertEnd.TheVariants as ends;
ghost use Rattle.cert_making.specs.declared.ends.Halt.TheVariants as halts;

use dp_outside::Failed;
use std::alloc::AllocError;
use thiserror::Error;

/// Why there is no answer.
#[derive(Debug, Drop, Error)]
pub enum CertEnd {
    /// A write failed.
    #[error("a write failed")]
    Write,
    /// Memory ran out, or the certificate has too many lines for numbers of 32 bits.
    #[error("out of memory")]
    Memory,
}

impl From<AllocError> for CertEnd {
    ghost from_gives = { λ _ e. e ≡ ends.Memory };

    fn from(_error: AllocError) -> CertEnd {
        CertEnd::Memory
    }
}

impl From<Failed> for CertEnd {
    ghost from_gives = { λ _ e. e ≡ ends.Write };

    fn from(_error: Failed) -> CertEnd {
        CertEnd::Write
    }
}

/// Why a search ends before its certificate is whole.
#[derive(Clone, Copy, Debug, PartialEq, Eq)]
pub enum Halt {
    /// The visits reached the budget, and a node waits.
    Budget,
    /// What the shard holds is better than the claim.
    Better,
    /// A visit met a fault.
    Fault,
    /// Memory ran out.
    Memory,
    /// A write failed.
    Write,
}

impl From<AllocError> for Halt {
    ghost from_gives = { λ _ e. e ≡ halts.Memory };

    fn from(_error: AllocError) -> Halt {
        Halt::Memory
    }
}

impl From<Failed> for Halt {
    ghost from_gives = { λ _ e. e ≡ halts.Write };

    fn from(_error: Failed) -> Halt {
        Halt::Write
    }
}
