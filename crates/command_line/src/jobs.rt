//! The jobs that words ask for.

ghost use Rattle.std.specs.Prelude.{◌≡◌};
ghost use Rattle.command_line.specs.declared.jobs.WordsEnd.TheVariants.{Memory};

use cert_types::CheckPart;
use dp_base::Text;
use dp_model::Options;
use model_gen::GenKind;
use std::alloc::AllocError;

/// How a search goes over the states of a model.
#[derive(Clone, Copy, Debug, PartialEq, Eq)]
pub enum Engine {
    /// Layer by layer, in passes whose shares double.
    Beam,
    /// The best node first, in whatever layer.
    Best,
}

/// How a model is to be searched, and what is asked for beside its verdict.
#[derive(Clone, Copy, Debug)]
pub struct Search {
    pub options: Options,
    /// Whether pruning is by what is proved of the model's dual bounds and preferences alone. Then `options.prune` is on.
    pub proved: bool,
    /// Whether a bound of the best cost is asked for.
    pub gap: bool,
    /// Whether a certificate is to be written.
    pub certificate: bool,
    /// With `Best`, neither a bound nor announced costs are asked for.
    pub engine: Engine,
    /// Whether the costs of solutions are announced while a pass runs.
    pub announce: bool,
}

/// What the words ask for. The texts are names of files.
#[derive(Debug, Drop)]
pub enum Job {
    /// Search a model for its best solution.
    Solve {
        domain: Text,
        problem: Text,
        search: Search,
    },
    /// Say whether a list of steps is a legal one of a model, and what it costs.
    Replay {
        domain: Text,
        problem: Text,
        list: Text,
    },
    /// Say whether a certificate shows what it claims of a model.
    Check {
        domain: Text,
        problem: Text,
        cert: Text,
        /// Whether it is one of what is proved of the model's dual bounds and preferences alone.
        proved: bool,
        /// The part that is checked, if it is not the whole.
        part: Option<CheckPart>,
    },
    /// Say what was understood of a model.
    Show {
        domain: Text,
        problem: Text,
    },
    /// Generate a model and search it.
    Gen {
        kind: GenKind,
        size: u32,
        seed: u64,
        workers: u32,
    },
}

/// Why words give no job.
#[derive(Debug, Drop)]
pub enum WordsEnd {
    /// The words have no meaning.
    Usage,
    Memory,
}

impl From<AllocError> for WordsEnd {
    ghost from_gives = { λ _ e. e ≡ Memory };

    fn from(_error: AllocError) -> WordsEnd {
        WordsEnd::Memory
    }
}
