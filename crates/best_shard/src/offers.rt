//! The best of what a shard holds and of the solutions that a visit offers.

ghost use Rattle.std.specs.Prelude.{◌≡◌, Some, IfSome, is_some, pos};
ghost use Rattle.std.specs.List.{All};
ghost use Rattle.dp_model.specs.Costs.{InRange, order_word};
ghost use Rattle.pass_ledger.specs.declared.records.Held.{Held};
ghost use Rattle.successors.specs.declared.batch.Offer.{Offer};
ghost use Rattle.shard_core.specs.Offers.{better_held, best_held, is_news};

use cost_laws::CostLaw;
use pass_ledger::Held;
use path_log::StepId;
use successors::Offer;

/// What is held after one offer: the offer where it is strictly better.
fn better_held<L: CostLaw>(held: Option<Held>, id: StepId, offer: Offer) -> Option<Held>
    requires held { IfSome held (λ h. InRange h.cost) }
    requires offer { InRange offer.cost }
    ensures held { result ≡ better_held L.minimize L.operator id held offer }
    ensures range { IfSome result (λ h. InRange h.cost) }
{
    match held {
        Some(old) if !L::better(offer.cost, old.cost) => Some(old),
        _ => Some(Held {
            cost: offer.cost,
            parent: id,
            transition: offer.transition,
        }),
    }
}

/// What is held after all offers of a visit.
fn best_held<L: CostLaw>(held: Option<Held>, id: StepId, offers: &[Offer]) -> Option<Held>
    requires held { IfSome held (λ h. InRange h.cost) }
    requires offers { All (λ (offer : Offer). InRange offer.cost) offers.now }
    ensures held { result ≡ best_held L.minimize L.operator id held offers.now }
    ensures range { IfSome result (λ h. InRange h.cost) }
{
    let mut best = held;
    for offer in offers {
        best = better_held::<L>(best, id, *offer);
    }
    best
}

/// Holds the best of what is held and of the offers of a visit. The answer is its word, where it is better than what was held.
pub(crate) fn hold_best<L: CostLaw>(
    held: &mut Option<Held>,
    id: StepId,
    offers: &[Offer],
) -> Option<u64>
    requires held { IfSome held.old (λ h. InRange h.cost) }
    requires offers { All (λ (offer : Offer). InRange offer.cost) offers.now }
    ensures held { held.new ≡ best_held L.minimize L.operator id held.old offers.now }
    ensures news { is_some result ≡ is_news L.minimize L.operator held.old held.new }
    ensures word { IfSome result (λ word. (h : Held) × (held.new ≡ Some h) × (pos word ≡ order_word L.minimize L.operator (Some h.cost))) }
{
    let before = *held;
    let after = best_held::<L>(before, id, offers);
    *held = after;
    bettered::<L>(before, after)
}

/// The word of what is held, where it is better than what was held.
fn bettered<L: CostLaw>(before: Option<Held>, held: Option<Held>) -> Option<u64>
    requires before { IfSome before (λ h. InRange h.cost) }
    requires held { IfSome held (λ h. InRange h.cost) }
    ensures news { is_some result ≡ is_news L.minimize L.operator before held }
    ensures word { IfSome result (λ word. (h : Held) × (held ≡ Some h) × (pos word ≡ order_word L.minimize L.operator (Some h.cost))) }
{
    let held = held?;
    match before {
        Some(old) if !L::better(held.cost, old.cost) => None,
        _ => Some(L::word(Some(held.cost))),
    }
}
