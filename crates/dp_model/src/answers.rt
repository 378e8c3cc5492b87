//! What a search, a replay or an evaluation answers: faults and their spots, solutions, verdicts; and how a model is to be
//! solved.

ghost use Rattle.std.specs.Prelude.{◌≡◌};

use dp_base::Seq;

/// Why an expression has no value: a result out of range, a divisor of 0, a number below 0 where a member of an
/// object type is wanted, or one that is not below the type's count.
#[derive(Clone, Copy, Debug, PartialEq, Eq)]
pub enum FaultKind {
    Range,
    ZeroDivisor,
    Negative,
    Index,
}

/// Where in a model a fault was met. The first number of `Precondition`, `Weight`, `Cost` and `Effect` is a
/// ground transition; places count from 0.
#[derive(Clone, Copy, Debug, PartialEq, Eq)]
pub enum Spot {
    Constraint(u32),
    BaseCondition(u32, u32),
    BaseCost(u32),
    Total,
    Bound(u32),
    Precondition(u32, u32),
    Weight(u32),
    Cost(u32),
    Effect(u32, u32),
}

/// A fault, and the ground transitions that lead from the target to the state where it was met.
#[derive(Debug, Drop)]
pub struct FaultAt {
    pub steps: Seq<u32>,
    pub spot: Spot,
    pub kind: FaultKind,
}

impl FaultAt {
    /// The ground transitions from the target to the state, by their numbers.
    pub fn steps(&self) -> &Seq<u32>
        ensures { result.now ≡ self.now.steps }
    {
        &self.steps
    }

    /// The expression that has no value.
    pub fn spot(&self) -> Spot
        ensures { result ≡ self.now.spot }
    {
        self.spot
    }

    /// Why it has none.
    pub fn kind(&self) -> FaultKind
        ensures { result ≡ self.now.kind }
    {
        self.kind
    }
}

/// A solution that was found: its cost, and its list of ground transitions.
#[derive(Debug, Drop)]
pub struct Found {
    pub cost: i64,
    pub steps: Seq<u32>,
}

impl Found {
    /// The cost of the list.
    pub fn cost(&self) -> i64
        ensures { result ≡ self.now.cost }
    {
        self.cost
    }

    /// The ground transitions, by their numbers.
    pub fn steps(&self) -> &Seq<u32>
        ensures { result.now ≡ self.now.steps }
    {
        &self.steps
    }
}

/// Why a list of steps is not legal.
#[derive(Clone, Copy, Debug, PartialEq, Eq)]
pub enum Reason {
    NotAllowed,
    AfterBase,
    NotBase,
    Forced,
    NotEnabled,
}

/// How a search or a replay ended.
#[derive(Debug, Drop)]
pub enum Verdict {
    Optimal(i64),
    Infeasible,
    /// The visits of the whole run, which reached the budget.
    Stopped(u64),
    Fault(FaultAt),
    Legal(i64),
    /// How many steps were done before, and why the next is not legal.
    Illegal(u32, Reason),
}

/// Why a pass was halted.
#[derive(Debug, Drop)]
pub enum Cause {
    Budget,
    Fault(FaultAt),
    Memory,
}

/// Which kept nodes cover a received one: those of its layer, or also those that its shard kept in earlier layers of the
/// pass.
#[derive(Clone, Copy, Debug, PartialEq, Eq)]
pub enum Keep {
    Layer,
    All,
}

/// How a model is to be solved: by how many workers, with at most how many visits, whether dual bounds and dominance are
/// used, and which kept nodes cover.
#[derive(Clone, Copy, Debug, PartialEq, Eq)]
pub struct Options {
    pub workers: u32,
    pub budget: u64,
    pub prune: bool,
    pub keep: Keep,
}

impl Options {
    /// How many shards search.
    pub fn workers(&self) -> u32
        ensures { result ≡ self.now.workers }
    {
        self.workers
    }

    /// How many visits all passes may make.
    pub fn budget(&self) -> u64
        ensures { result ≡ self.now.budget }
    {
        self.budget
    }

    /// Whether dual bounds and dominance are used.
    pub fn prune(&self) -> bool
        ensures { result ≡ self.now.prune }
    {
        self.prune
    }

    /// Which kept nodes cover a received one.
    pub fn keep(&self) -> Keep
        ensures { result ≡ self.now.keep }
    {
        self.keep
    }
}

/// What a certificate of a search claims of all legal lists of a model.
#[derive(Debug, Drop)]
pub enum Claim {
    /// This list is legal at its cost, and no legal list is better.
    Optimal(Found),
    /// There is no legal list.
    Infeasible,
}

/// How the writing of a certificate ended.
#[derive(Debug, Drop)]
pub enum Written {
    /// The whole certificate was written.
    Whole,
    /// The visits that were made, which reached the budget before the certificate was whole.
    Stopped(u64),
    /// A solution that is better than what was claimed.
    Better(Found),
    /// A fault that was met on the way.
    Fault(FaultAt),
}
