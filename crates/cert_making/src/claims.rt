//! The order word of a claim, and what is no better than it.

ghost use Rattle.std.specs.Prelude.{◌≡◌, ◌≤◌, ◌<◌, ℕ, true, false, Some, ℤ, pos, ◌≤ℤ◌, OnOk, IfErr, IfSome};
ghost use Rattle.cost_laws.specs.Orders.{InWideRange, IsLawOf};
ghost use Rattle.dp_model.specs.Costs.{order_word};
ghost use Rattle.dp_model.specs.declared.whole.Model.{Model};
ghost use Rattle.cert_laws.specs.Shown.{ClaimHolds, claimed_word as word_claimed};
ghost use Rattle.cert_making.specs.declared.ends.Halt.{Halt as HaltOf};
ghost use Rattle.cert_making.specs.declared.ends.Halt.TheVariants as halts;

use crate::ends::Halt;
use cost_laws::{CostLaw, NO_INCUMBENT};
use dp_model::Claim;
use state_layout::Node;

/// The claimed word: that of the claimed cost, and where there is no legal list the one above those of all costs.
pub(crate) fn claimed_word<L: CostLaw>(claim: &Claim) -> u64
    requires { (m : Model) × ClaimHolds m claim.now }
    ensures { (m : Model) → IsLawOf m L.minimize L.operator → word_claimed m claim.now ≡ pos result }
{
    match claim {
        Claim::Optimal(found) => L::word(Some(found.cost)),
        Claim::Infeasible => NO_INCUMBENT,
    }
}

/// Goes on after a visit, but where it offered a solution that is better than the claim.
pub(crate) fn weigh(offer: Option<u64>, claimed: u64) -> Result<(), Halt>
    ensures no_better { OnOk result ((word : ℕ) → offer ≡ Some word → claimed ≤ word) }
    ensures better { IfErr result (λ halt. (halt ≡ halts.Better) × (word : ℕ) × (offer ≡ Some word) × (word < claimed)) }
{
    match offer {
        Some(word) if word < claimed => Err(Halt::Better),
        _ => Ok(()),
    }
}

/// Whether the floor of a node, if it has one, is no better than the claim.
pub(crate) fn is_cut<L: CostLaw>(node: &Node, claimed: u64) -> bool
    requires { IfSome node.now.floor InWideRange }
    ensures { result ≡ true → (floor : ℤ) × (node.now.floor ≡ Some floor) × (pos claimed ≤ℤ order_word L.minimize L.operator (Some floor)) }
{
    match node.floor {
        Some(floor) => claimed <= L::word(Some(floor)),
        None => false,
    }
}
