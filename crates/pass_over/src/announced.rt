//! How a pass ended, and what it announced.

ghost use Rattle.std.specs.Prelude.{◌≡◌, Option, false, option_map};
ghost use Rattle.dp_model.specs.declared.answers.Found.{Found as Solutions};
ghost use Rattle.pass_over.specs.Announcements.{cost_in};

use dp_model::Found;
use pass_ends::PassEnd;

/// How a pass ended, and what it announced.
#[derive(Debug, Drop)]
pub struct AnnouncedEnd {
    pub end: PassEnd,
    /// The last cost that was announced, in this pass or before it.
    pub last: Option<i64>,
    /// How many costs were announced.
    pub announced: u64,
    /// How often a shard found no room for a cost.
    pub refused: u64,
    /// Whether a write failed. Then nothing more was announced, and the pass went on to its end.
    pub failed: bool,
}

/// The cost of a solution, if there is one.
fn cost_of(found: &Option<Found>) -> Option<i64>
    ensures { result ≡ option_map (λ (f : Solutions). f.cost) found.now }
{
    match found {
        Some(found) => Some(found.cost),
        None => None,
    }
}

/// The cost of the best solution of a pass.
pub fn best_cost(end: &PassEnd) -> Option<i64>
    ensures { result ≡ cost_in end.now }
{
    match end {
        PassEnd::Closed { best, .. } => cost_of(best),
        PassEnd::Halted { best, .. } => cost_of(best),
    }
}

/// The answer of a pass that announced nothing.
pub fn silent(end: PassEnd, last: Option<i64>) -> AnnouncedEnd
    ensures { result ≡ record { end = end; last = last; announced = 0; refused = 0; failed = false } }
{
    AnnouncedEnd {
        end,
        last,
        announced: 0,
        refused: 0,
        failed: false,
    }
}
