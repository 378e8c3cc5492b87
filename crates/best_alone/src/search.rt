//! A search, whole.

ghost use Rattle.std.specs.Prelude.{◌≡◌, ◌≤◌, ◌^◌, Option, IfErr, IfOk};
ghost use Rattle.best_ends.specs.Ends.{IsBestEnd};
ghost use Rattle.best_ledger.specs.Events.{fresh};
ghost use Rattle.best_ledger.specs.Searches.{BestSearch, pass_of, search_of};
ghost use Rattle.best_over.specs.Searches.{MaySearch};
ghost use Rattle.best_shard.specs.Stands.{Stands};
ghost use Rattle.board_words.specs.Rules.{IsWhole};
ghost use Rattle.board_words.specs.Seats.{SeatFacts, IsSeatOf};
ghost use Rattle.board_words.specs.declared.seat.View.{View};
ghost use Rattle.cost_laws.specs.Orders.{IsLawOf};
ghost use Rattle.dp_steps.specs.States.{Inner};
ghost use Rattle.pass_ends.specs.Passes.{AreOptions};
ghost use Rattle.pass_ledger.specs.Passes.{Pass};
ghost use Rattle.shard_core.specs.Stands.{Suited};
ghost use Rattle.state_layout.specs.declared.node.Node.{Node};
ghost use Rattle.best_alone.specs.Parts.{IsRoom};
ghost use Rattle.best_alone.specs.Stages.{IsBegun, IsPlayed};

use crate::room::{Room, leave, make_room};
use crate::steps::make_steps;
use best_ends::{BestEnd, out_of_memory};
use best_over::{tell, visits_so_far};
use best_shard::BestShard;
use board_words::{Board, BoardSeat};
use cost_laws::CostLaw;
use dom_store::{Covers, Dominating, Exact};
use dp_model::{Model as DpModel, Options};
use solve_start::{Target, by_law, find_target};
use std::alloc::{AllocError, Global};

/// The shard, which has taken no step, and room for what it leaves.
#[derive(Drop)]
pub struct Made<'m, L: CostLaw, K: Covers> {
    pub shard: BestShard<'m, L, K>,
    pub room: Room,
}

/// A search whose shard has its seat.
#[derive(Drop)]
pub struct Begun<'m, L: CostLaw, K: Covers> {
    /// How many of the numbers drawn before the search are below the budget.
    pub before: u64,
    pub made: Made<'m, L, K>,
    pub own: BoardSeat,
}

/// A search whose shard has ended.
#[derive(Drop)]
pub struct Played {
    /// How many of the numbers drawn before the search are below the budget.
    pub before: u64,
    pub room: Room,
    pub own: BoardSeat,
}

/// The shard. It starts with the target's node.
fn make_shard<'m, L: CostLaw, K: Covers>(
    alloc: Global,
    model: &'m DpModel,
    options: &Options,
) -> Result<BestShard<'m, L, K>, AllocError>
    requires law { IsLawOf model.now L.minimize L.operator }
    requires covering { IsLawOf model.now K.minimize K.operator }
    requires prune { K.prune ≡ options.now.prune }
    requires one { options.now.workers ≡ 1 }
    ensures { (some : 1 ≤ options.now.workers) → IfOk result (λ s. (s.me ≡ 0) × (start : Option Node) × Stands (pass_of (search_of model.now options.now some)) s (fresh options.now.workers start)) }
{
    let target = find_target::<L>(alloc, model, options)?;
    let Target { node, owner: _ } = target;
    BestShard::new(alloc, model, options, 0, Some(node))
}

/// The shard, and room for what it leaves.
fn make<'m, L: CostLaw, K: Covers>(
    alloc: Global,
    model: &'m DpModel,
    options: &Options,
) -> Result<Made<'m, L, K>, AllocError>
    requires law { IsLawOf model.now L.minimize L.operator }
    requires covering { IsLawOf model.now K.minimize K.operator }
    requires prune { K.prune ≡ options.now.prune }
    requires one { options.now.workers ≡ 1 }
    ensures shard { (some : 1 ≤ options.now.workers) → IfOk result (λ made. (made.shard.me ≡ 0) × (start : Option Node) × Stands (pass_of (search_of model.now options.now some)) made.shard (fresh options.now.workers start)) }
    ensures room { IfOk result (λ made. IsRoom made.room) }
{
    let room = make_room(alloc)?;
    let shard = make_shard::<L, K>(alloc, model, options)?;
    Ok(Made { shard, room })
}

/// Makes the shard of a search, with a seat. `Err` is the answer of a search for which memory ran out, and nothing was drawn.
fn begin<'m, L: CostLaw, K: Covers>(
    alloc: Global,
    model: &'m DpModel,
    options: &Options,
    board: &Board,
    seat: &mut BoardSeat,
) -> Result<Begun<'m, L, K>, BestEnd>
    requires law { IsLawOf model.now L.minimize L.operator }
    requires covering { IsLawOf model.now K.minimize K.operator }
    requires prune { K.prune ≡ options.now.prune }
    requires one { options.now.workers ≡ 1 }
    requires may { MaySearch model.now options.now board.now seat.old }
    ensures begun { (some : 1 ≤ options.now.workers) → IfOk result (λ b. IsBegun (pass_of (search_of model.now options.now some)) board.now options.now.budget seat.old.view seat.new b) }
    ensures seat { IfErr result (λ _. IsSeatOf board.now seat.new × IsWhole seat.new.view) }
    ensures answer { (some : 1 ≤ options.now.workers) → IfErr result (IsBestEnd (search_of model.now options.now some) seat.old.view seat.new.view) }
{
    let before = visits_so_far(board, seat, options);
    let Ok(made) = make::<L, K>(alloc, model, options) else {
        return Err(out_of_memory(0));
    };
    let own = board.split(seat);
    Ok(Begun { before, made, own })
}

/// Makes the steps of a search, and takes its shard apart.
fn play<'m, L: CostLaw, K: Covers>(begun: Begun<'m, L, K>, budget: u64, board: &Board) -> Played
    requires { (p : Pass) × Suited p L.minimize L.operator K.prune K.minimize K.operator × (was : View) × (seat : SeatFacts) × IsBegun p board.now budget was seat begun }
    ensures { (p : Pass) → Suited p L.minimize L.operator K.prune K.minimize K.operator → (was : View) (seat : SeatFacts) → IsBegun p board.now budget was seat begun.entry → IsPlayed p board.now budget was seat result }
{
    let Begun { before, made, own } = begun;
    let Made { shard, room } = made;
    let mut shard = shard;
    let mut own = own;
    make_steps(&mut shard, budget, board, &mut own);
    let room = leave(room, shard);
    Played { before, room, own }
}

/// The answer of a search whose shard has ended. The seat is whole again.
fn end_search<L: CostLaw>(
    alloc: Global,
    options: &Options,
    board: &Board,
    seat: &mut BoardSeat,
    played: Played,
) -> BestEnd
    requires { (b : BestSearch) × (was : View) × IsLawOf b.model L.minimize L.operator × IsPlayed (pass_of b) board.now options.now.budget was seat.old played }
    ensures seat { IsSeatOf board.now seat.new }
    ensures whole { IsWhole seat.new.view }
    ensures answer { (b : BestSearch) (was : View) → IsLawOf b.model L.minimize L.operator → IsPlayed (pass_of b) board.now options.now.budget was seat.old played → IsBestEnd b was seat.new.view result }
{
    let Played { before, room, own } = played;
    let Room { ends, logs } = room;
    board.join(seat, own);
    tell::<L>(alloc, options, board, seat, ends, logs, false, before)
}

/// A search under a law of costs and a covering.
fn run_shard<L: CostLaw, K: Covers>(
    alloc: Global,
    model: &DpModel,
    options: &Options,
    board: &Board,
    seat: &mut BoardSeat,
) -> BestEnd
    requires law { IsLawOf model.now L.minimize L.operator }
    requires covering { IsLawOf model.now K.minimize K.operator }
    requires prune { K.prune ≡ options.now.prune }
    requires one { options.now.workers ≡ 1 }
    requires may { MaySearch model.now options.now board.now seat.old }
    ensures seat { IsSeatOf board.now seat.new }
    ensures whole { IsWhole seat.new.view }
    ensures answer { (some : 1 ≤ options.now.workers) → IsBestEnd (search_of model.now options.now some) seat.old.view seat.new.view result }
{
    match begin::<L, K>(alloc, model, options, board, seat) {
        Ok(begun) => {
            let played = play(begun, options.budget(), board);
            end_search::<L>(alloc, options, board, seat, played)
        }
        Err(end) => end,
    }
}

/// A search under a law of costs: nodes cover others by dominance where pruning is on.
fn run_by<L: CostLaw>(
    alloc: Global,
    model: &DpModel,
    options: &Options,
    board: &Board,
    seat: &mut BoardSeat,
) -> BestEnd
    requires law { IsLawOf model.now L.minimize L.operator }
    requires one { options.now.workers ≡ 1 }
    requires may { MaySearch model.now options.now board.now seat.old }
    ensures seat { IsSeatOf board.now seat.new }
    ensures whole { IsWhole seat.new.view }
    ensures answer { (some : 1 ≤ options.now.workers) → IsBestEnd (search_of model.now options.now some) seat.old.view seat.new.view result }
{
    if options.prune() {
        run_shard::<L, Dominating<L>>(alloc, model, options, board, seat)
    } else {
        run_shard::<L, Exact<L>>(alloc, model, options, board, seat)
    }
}

/// Makes a best-first search over the model, by one shard. The calling thread makes all of it: there is no thread and no mailbox, it
/// waits for nobody, and so it returns.
///
/// `seat` is a whole seat of the board that has raised no halt, and it is whole again afterwards. The board's limit is the budget.
/// Of a closed search the visits are those of a record of the shard, which is a closed ledger. Of a halted one the cause is told, and no
/// record is named (`IsBestEnd`).
pub fn run_best_alone(
    alloc: Global,
    model: &DpModel,
    options: &Options,
    board: &Board,
    seat: &mut BoardSeat,
) -> BestEnd
    requires inner { Inner model.now model.now.target }
    requires options { AreOptions options.now }
    requires one { options.now.workers ≡ 1 }
    requires seat { IsSeatOf board.now seat.old }
    requires whole { IsWhole seat.old.view }
    requires no_halt { seat.old.view.raised ≡ 0 }
    requires drawn { seat.old.view.drawn ≤ 2 ^ 41 }
    requires limit { board.now.limit ≡ options.now.budget }
    ensures seat { IsSeatOf board.now seat.new }
    ensures whole { IsWhole seat.new.view }
    ensures answer { (some : 1 ≤ options.now.workers) → IsBestEnd (search_of model.now options.now some) seat.old.view seat.new.view result }
{
    by_law!(model, run_by(alloc, model, options, board, seat))
}
