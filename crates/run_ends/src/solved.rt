//! What a search came to, for whoever called it.

ghost use Rattle.std.specs.Prelude.{◌≡◌};
ghost use Rattle.run_ends.specs.Claims as claims;

use crate::status::Status;
use dp_model::{Claim, Found};

/// The status of a search, and what it claims of all legal lists.
#[derive(Debug, Drop)]
pub struct Solved {
    pub status: Status,
    /// `None` where the search proved nothing, or where a write failed.
    pub claim: Option<Claim>,
}

/// What a search claims that ended so, with the best solution that it found.
fn claim_with(status: Status, held: Option<Found>) -> Option<Claim>
    ensures { result ≡ claims.claim_with status held }
{
    match (status, held) {
        (Status::Success, Some(found)) => Some(Claim::Optimal(found)),
        (Status::Negative, _) => Some(Claim::Infeasible),
        _ => None,
    }
}

/// What a search came to that ended so, with the best solution that it found.
pub fn solved_by(status: Status, held: Option<Found>) -> Solved
    ensures { result ≡ claims.solved_by status held }
{
    let claim = claim_with(status, held);
    Solved { status, claim }
}
