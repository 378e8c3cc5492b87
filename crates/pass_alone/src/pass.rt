//! A pass, whole.

ghost use Rattle.std.specs.Prelude.{◌≡◌, ◌≤◌, ◌^◌, ℕ, List, Option, ℤ, IfErr, IfOk};
ghost use Rattle.announce_laws.specs.Called.{AreCalled, IsSolved};
ghost use Rattle.board_words.specs.Rules.{IsWhole};
ghost use Rattle.board_words.specs.Seats.{SeatFacts, IsSeatOf};
ghost use Rattle.board_words.specs.Steps.{best_known};
ghost use Rattle.board_words.specs.declared.seat.View.{View};
ghost use Rattle.cost_laws.specs.Orders.{IsLawOf};
ghost use Rattle.dp_claims.specs.Enough.{Has};
ghost use Rattle.dp_steps.specs.States.{Inner};
ghost use Rattle.pass_ends.specs.Ends.{IsPassEnd};
ghost use Rattle.pass_ends.specs.Passes.{AreOptions, pass_of};
ghost use Rattle.pass_ledger.specs.Events.{fresh};
ghost use Rattle.pass_ledger.specs.Passes.{Pass};
ghost use Rattle.pass_over.specs.Announcements.{RanOut};
ghost use Rattle.pass_over.specs.Passes.{MayPass};
ghost use Rattle.shard_core.specs.Stands.{Stands, Suited};
ghost use Rattle.state_layout.specs.declared.node.Node.{Node};
ghost use Rattle.pass_alone.specs.Parts.{IsRoom};
ghost use Rattle.pass_alone.specs.Stages.{IsBegun, IsPlayed};

use crate::room::{Room, leave, make_room};
use crate::steps::make_steps;
use board_words::{Board, BoardSeat};
use cost_laws::CostLaw;
use dom_store::{Covers, Dominating, Exact};
use dp_model::{Model as DpModel, Options};
use pass_ends::{PassEnd, out_of_memory};
use pass_over::{tell, visits_so_far};
use shard_core::Shard;
use solve_start::{Target, by_law, find_target};
use std::alloc::{AllocError, Global};

/// The shard, which has taken no step, and room for what it leaves.
#[derive(Drop)]
pub struct Made<'m, L: CostLaw, K: Covers> {
    pub shard: Shard<'m, L, K>,
    pub room: Room,
}

/// A pass whose shard has its seat.
#[derive(Drop)]
pub struct Begun<'m, L: CostLaw, K: Covers> {
    /// How many of the numbers drawn before the pass are below the budget.
    pub before: u64,
    pub made: Made<'m, L, K>,
    pub own: BoardSeat,
}

/// A pass whose shard has ended.
#[derive(Drop)]
pub struct Played {
    /// How many of the numbers drawn before the pass are below the budget.
    pub before: u64,
    pub room: Room,
    pub own: BoardSeat,
}

/// The shard. It starts with the target's node.
fn make_shard<'m, L: CostLaw, K: Covers>(
    alloc: Global,
    model: &'m DpModel,
    options: &Options,
    share: u64,
) -> Result<Shard<'m, L, K>, AllocError>
    requires law { IsLawOf model.now L.minimize L.operator }
    requires covering { IsLawOf model.now K.minimize K.operator }
    requires prune { K.prune ≡ options.now.prune }
    requires one { options.now.workers ≡ 1 }
    ensures { (some : 1 ≤ options.now.workers) → IfOk result (λ s. (s.me ≡ 0) × (start : Option Node) × Stands (pass_of model.now options.now share some) s (fresh options.now.workers start)) }
{
    let target = find_target::<L>(alloc, model, options)?;
    let Target { node, owner: _ } = target;
    Shard::new(alloc, model, options, 0, share, Some(node))
}

/// The shard, and room for what it leaves.
fn make<'m, L: CostLaw, K: Covers>(
    alloc: Global,
    model: &'m DpModel,
    options: &Options,
    share: u64,
) -> Result<Made<'m, L, K>, AllocError>
    requires law { IsLawOf model.now L.minimize L.operator }
    requires covering { IsLawOf model.now K.minimize K.operator }
    requires prune { K.prune ≡ options.now.prune }
    requires one { options.now.workers ≡ 1 }
    ensures shard { (some : 1 ≤ options.now.workers) → IfOk result (λ made. (made.shard.me ≡ 0) × (start : Option Node) × Stands (pass_of model.now options.now share some) made.shard (fresh options.now.workers start)) }
    ensures room { IfOk result (λ made. IsRoom made.room) }
{
    let room = make_room(alloc)?;
    let shard = make_shard::<L, K>(alloc, model, options, share)?;
    Ok(Made { shard, room })
}

/// Makes the shard of a pass, with a seat. `Err` is the answer of a pass for which memory ran out, and nothing was drawn.
pub(crate) fn begin<'m, L: CostLaw, K: Covers>(
    alloc: Global,
    model: &'m DpModel,
    options: &Options,
    share: u64,
    board: &Board,
    seat: &mut BoardSeat,
) -> Result<Begun<'m, L, K>, PassEnd>
    requires law { IsLawOf model.now L.minimize L.operator }
    requires covering { IsLawOf model.now K.minimize K.operator }
    requires prune { K.prune ≡ options.now.prune }
    requires one { options.now.workers ≡ 1 }
    requires may { MayPass model.now options.now share board.now seat.old }
    ensures begun { (some : 1 ≤ options.now.workers) → IfOk result (λ b. IsBegun (pass_of model.now options.now share some) board.now options.now.budget seat.old.view seat.new b) }
    ensures seat { IfErr result (λ _. IsSeatOf board.now seat.new × IsWhole seat.new.view) }
    ensures memory { IfErr result RanOut }
    ensures answer { (some : 1 ≤ options.now.workers) → IfErr result (IsPassEnd (pass_of model.now options.now share some) seat.old.view seat.new.view) }
{
    let before = visits_so_far(board, seat, options);
    let Ok(made) = make::<L, K>(alloc, model, options, share) else {
        return Err(out_of_memory(0, 0));
    };
    let own = board.split(seat);
    Ok(Begun { before, made, own })
}

/// Makes the steps of a pass, and takes its shard apart.
fn play<'m, L: CostLaw, K: Covers>(begun: Begun<'m, L, K>, budget: u64, board: &Board) -> Played
    requires { (p : Pass) × Suited p L.minimize L.operator K.prune K.minimize K.operator × (was : View) × (seat : SeatFacts) × IsBegun p board.now budget was seat begun }
    ensures { (p : Pass) → Suited p L.minimize L.operator K.prune K.minimize K.operator → (was : View) (seat : SeatFacts) → IsBegun p board.now budget was seat begun.entry → IsPlayed p board.now budget was seat result }
{
    let Begun { before, made, own } = begun;
    let Made { shard, room } = made;
    let mut shard = shard;
    let mut own = own;
    make_steps(&mut shard, budget, board, &mut own);
    let room = leave(room, shard);
    Played { before, room, own }
}

/// The answer of a pass whose shard has ended. The seat is whole again.
pub(crate) fn end_pass<L: CostLaw>(
    alloc: Global,
    options: &Options,
    share: u64,
    board: &Board,
    seat: &mut BoardSeat,
    played: Played,
) -> PassEnd
    requires { (p : Pass) × (was : View) × IsLawOf p.model L.minimize L.operator × (share ≡ p.share) × IsPlayed p board.now options.now.budget was seat.old played }
    ensures seat { IsSeatOf board.now seat.new }
    ensures whole { IsWhole seat.new.view }
    ensures answer { (p : Pass) (was : View) → IsLawOf p.model L.minimize L.operator → share ≡ p.share → IsPlayed p board.now options.now.budget was seat.old played → IsPassEnd p was seat.new.view result }
    ensures solved { (p : Pass) (was : View) (d : IsPlayed p board.now options.now.budget was seat.old played) (costs : List ℤ) → AreCalled p 0 d.shard_record costs → (c : ℤ) → Has costs c → IsSolved p (best_known seat.new.view) c }
{
    let Played { before, room, own } = played;
    let Room { ends, logs } = room;
    board.join(seat, own);
    tell::<L>(alloc, options, share, board, seat, ends, logs, before)
}

/// A pass under a law of costs and a covering.
fn run_shard<L: CostLaw, K: Covers>(
    alloc: Global,
    model: &DpModel,
    options: &Options,
    share: u64,
    board: &Board,
    seat: &mut BoardSeat,
) -> PassEnd
    requires law { IsLawOf model.now L.minimize L.operator }
    requires covering { IsLawOf model.now K.minimize K.operator }
    requires prune { K.prune ≡ options.now.prune }
    requires one { options.now.workers ≡ 1 }
    requires may { MayPass model.now options.now share board.now seat.old }
    ensures seat { IsSeatOf board.now seat.new }
    ensures whole { IsWhole seat.new.view }
    ensures answer { (some : 1 ≤ options.now.workers) → IsPassEnd (pass_of model.now options.now share some) seat.old.view seat.new.view result }
{
    match begin::<L, K>(alloc, model, options, share, board, seat) {
        Ok(begun) => {
            let played = play(begun, options.budget(), board);
            end_pass::<L>(alloc, options, share, board, seat, played)
        }
        Err(end) => end,
    }
}

/// A pass under a law of costs: nodes cover others by dominance where pruning is on.
fn run_by<L: CostLaw>(
    alloc: Global,
    model: &DpModel,
    options: &Options,
    share: u64,
    board: &Board,
    seat: &mut BoardSeat,
) -> PassEnd
    requires law { IsLawOf model.now L.minimize L.operator }
    requires one { options.now.workers ≡ 1 }
    requires may { MayPass model.now options.now share board.now seat.old }
    ensures seat { IsSeatOf board.now seat.new }
    ensures whole { IsWhole seat.new.view }
    ensures answer { (some : 1 ≤ options.now.workers) → IsPassEnd (pass_of model.now options.now share some) seat.old.view seat.new.view result }
{
    if options.prune() {
        run_shard::<L, Dominating<L>>(alloc, model, options, share, board, seat)
    } else {
        run_shard::<L, Exact<L>>(alloc, model, options, share, board, seat)
    }
}

/// Makes a pass: one beam search over the model, by one shard, which keeps at most `share` nodes of a layer. The calling thread makes
/// all of it: there is no thread and no mailbox, it waits for nobody, and so it returns.
///
/// `seat` is a whole seat of the board that has raised no halt, and it is whole again afterwards. The board's limit is the budget.
/// Of a closed pass the visits, the dropped nodes and their least floor are those of a record of the shard, which is a closed ledger.
/// Of a halted one the cause is told, and unless memory ran out the dropped nodes and the best solution are those of such a record,
/// done or not (`IsPassEnd`).
pub fn run_pass_alone(
    alloc: Global,
    model: &DpModel,
    options: &Options,
    share: u64,
    board: &Board,
    seat: &mut BoardSeat,
) -> PassEnd
    requires inner { Inner model.now model.now.target }
    requires share { 1 ≤ share }
    requires options { AreOptions options.now }
    requires one { options.now.workers ≡ 1 }
    requires seat { IsSeatOf board.now seat.old }
    requires whole { IsWhole seat.old.view }
    requires no_halt { seat.old.view.raised ≡ 0 }
    requires drawn { seat.old.view.drawn ≤ 2 ^ 41 }
    requires limit { board.now.limit ≡ options.now.budget }
    ensures seat { IsSeatOf board.now seat.new }
    ensures whole { IsWhole seat.new.view }
    ensures answer { (some : 1 ≤ options.now.workers) → IsPassEnd (pass_of model.now options.now share some) seat.old.view seat.new.view result }
{
    by_law!(model, run_by(alloc, model, options, share, board, seat))
}
