//! The shards of a search, with their ends of the mailboxes.

ghost use Rattle.std.specs.Prelude.{◌≡◌, ◌<◌, ◌≤◌, length, IfOk};
ghost use Rattle.best_first.specs.Crews.{AreBoxes, AreFresh};
ghost use Rattle.best_first.specs.Mails.{AreMails};
ghost use Rattle.best_first.specs.Rooms.{IsRoomFor};
ghost use Rattle.best_first.specs.declared.mails.Mails.{Mails as MailsOf};
ghost use Rattle.best_ledger.specs.Events.{fresh};
ghost use Rattle.best_ledger.specs.Searches.{pass_of, search_of};
ghost use Rattle.best_shard.specs.Stands.{Stands};
ghost use Rattle.best_turns.specs.Envelopes.{terms_of};
ghost use Rattle.cost_laws.specs.Orders.{IsLawOf};
ghost use Rattle.dp_steps.specs.States.{Inner};
ghost use Rattle.solve_start.specs.Targets.{IsTarget};

use crate::mails::{Mails, make_mails};
use crate::room::{Room, make_room};
use best_shard::BestShard;
use best_turns::{BestBoxes, BestEnvelope, BestTurner, OpenWork};
use cost_laws::CostLaw;
use dom_store::Covers;
use dp_model::{Model as DpModel, Options};
use shard_mail::{Poster, Taker};
use solve_start::{Target, find_target};
use std::alloc::{AllocError, Global};
use std::collections::VecDeque;

/// The shards by their numbers, what they share beside the board, and room for what they leave.
#[derive(Drop)]
pub struct Crew<'m, L: CostLaw, K: Covers> {
    pub turners: Vec<BestTurner<'m, L, K>>,
    pub boxes: BestBoxes,
    pub room: Room,
}

/// A shard of a search. It starts with a copy of the target's node where it owns the target.
fn make_shard<'m, L: CostLaw, K: Covers>(
    alloc: Global,
    model: &'m DpModel,
    options: &Options,
    target: &Target,
    shard: u32,
) -> Result<BestShard<'m, L, K>, AllocError>
    requires law { IsLawOf model.now L.minimize L.operator }
    requires covering { IsLawOf model.now K.minimize K.operator }
    requires prune { K.prune ≡ options.now.prune }
    requires below { shard < options.now.workers }
    requires target { IsTarget model.now options.now target.now }
    ensures { (some : 1 ≤ options.now.workers) → IfOk result (λ s. (s.me ≡ shard) × (start : _) × Stands (pass_of (search_of model.now options.now some)) s (fresh options.now.workers start)) }
{
    let start = if shard == target.owner {
        Some(target.node.copy(alloc)?)
    } else {
        None
    };
    BestShard::new(alloc, model, options, shard, start)
}

/// The shards, in the order of their numbers, each with its taker and its posters.
fn make_turners<'m, L: CostLaw, K: Covers>(
    alloc: Global,
    model: &'m DpModel,
    options: &Options,
    target: &Target,
    takers: VecDeque<Taker<BestEnvelope>>,
    posters: VecDeque<Vec<Poster<BestEnvelope>>>,
) -> Result<Vec<BestTurner<'m, L, K>>, AllocError>
    requires law { IsLawOf model.now L.minimize L.operator }
    requires covering { IsLawOf model.now K.minimize K.operator }
    requires prune { K.prune ≡ options.now.prune }
    requires target { IsTarget model.now options.now target.now }
    requires takers { length takers.items ≡ options.now.workers }
    requires posters { length posters.items ≡ options.now.workers }
    ensures { (some : 1 ≤ options.now.workers) (mails : MailsOf) → mails.takers.items ≡ takers.items → mails.posters.items ≡ posters.items → AreMails options.now.workers (terms_of model.now) options.now.workers mails
        → IfOk result (λ turners. AreFresh (pass_of (search_of model.now options.now some)) options.now.budget mails.boxes.items options.now.workers turners.items) }
{
    let mut takers = takers;
    let mut posters = posters;
    let mut turners = Vec::new(alloc);
    for number in 0..options.workers() {
        let shard = make_shard(alloc, model, options, target, number)?;
        let (Some(taker), Some(posters)) = (takers.pop_front(), posters.pop_front()) else {
            unreachable!()
        };
        turners.push(BestTurner {
            shard,
            taker,
            posters,
            budget: options.budget(),
            turns: 0,
            letters: 0,
            ended: None,
        })?;
    }
    Ok(turners)
}

/// The shards of a search, none of which has taken a turn. One node is open in all of them, the target's.
pub(crate) fn make_crew<'m, L: CostLaw, K: Covers>(
    alloc: Global,
    model: &'m DpModel,
    options: &Options,
) -> Result<Crew<'m, L, K>, AllocError>
    requires law { IsLawOf model.now L.minimize L.operator }
    requires covering { IsLawOf model.now K.minimize K.operator }
    requires prune { K.prune ≡ options.now.prune }
    requires some { 1 ≤ options.now.workers }
    requires inner { Inner model.now model.now.target }
    ensures turners { (some : 1 ≤ options.now.workers) → IfOk result (λ crew. AreFresh (pass_of (search_of model.now options.now some)) options.now.budget crew.boxes.boxes.items options.now.workers crew.turners.items) }
    ensures boxes { IfOk result (λ crew. AreBoxes options.now.workers crew.boxes.boxes.items) }
    ensures room { IfOk result (λ crew. IsRoomFor options.now.workers 0 crew.room) }
{
    let target = find_target::<L>(alloc, model, options)?;
    let Mails {
        boxes,
        takers,
        posters,
    } = make_mails(alloc, model, options.workers())?;
    let takers = VecDeque::from_vec(takers);
    let posters = VecDeque::from_vec(posters);
    let turners = make_turners(alloc, model, options, &target, takers, posters)?;
    let room = make_room(alloc, options.workers())?;
    Ok(Crew {
        turners,
        boxes: BestBoxes {
            boxes,
            work: OpenWork::new(1),
        },
        room,
    })
}
