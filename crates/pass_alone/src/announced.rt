//! A pass that announces the costs of better solutions while it runs.

ghost use Rattle.std.specs.Prelude.{◌≡◌, ◌≤◌, ◌^◌, ℕ, List, Option, ℤ};
ghost use Rattle.announce_laws.specs.Called.{IsSolved};
ghost use Rattle.announcing.specs.Telling.{IsTold};
ghost use Rattle.board_words.specs.Rules.{IsWhole};
ghost use Rattle.board_words.specs.Seats.{SeatFacts, IsSeatOf};
ghost use Rattle.board_words.specs.Steps.{best_known};
ghost use Rattle.board_words.specs.declared.seat.View.{View};
ghost use Rattle.cost_laws.specs.Orders.{IsLawOf};
ghost use Rattle.dp_claims.specs.Enough.{Has};
ghost use Rattle.dp_steps.specs.States.{Inner};
ghost use Rattle.pass_ends.specs.Ends.{IsPassEnd};
ghost use Rattle.pass_ends.specs.Passes.{AreOptions, pass_of};
ghost use Rattle.pass_ledger.specs.Passes.{Pass};
ghost use Rattle.pass_over.specs.Announcements.{EndsAnnounced, HasAnnounced, HasLast, HasRefused};
ghost use Rattle.pass_over.specs.Passes.{MayPass};
ghost use Rattle.shard_core.specs.Stands.{Suited};
ghost use Rattle.pass_alone.specs.Alone.{Tells};
ghost use Rattle.pass_alone.specs.Stages.{IsBegun, IsPlayed};

use crate::pass::{Begun, Made, Played, begin, end_pass};
use crate::room::leave;
use crate::telling::make_steps_and_look;
use announcing::{Told, look_some};
use board_words::{Board, BoardSeat};
use cost_laws::CostLaw;
use dom_store::{Covers, Dominating, Exact};
use dp_model::{Model as DpModel, Options};
use dp_outside::Sink;
use pass_ends::PassEnd;
use pass_over::{AnnouncedEnd, best_cost, silent};
use solve_start::by_law;
use std::alloc::Global;

/// Makes the steps of a pass, looks at the cost of each solution that bettered the board, and takes the shard apart.
fn play_and_look<'m, L: CostLaw, K: Covers, S: Sink>(
    begun: Begun<'m, L, K>,
    budget: u64,
    board: &Board,
    out: &mut S,
    told: &mut Told,
    minimize: bool,
) -> Played
    requires { (p : Pass) × Suited p L.minimize L.operator K.prune K.minimize K.operator × (was : View) × (seat : SeatFacts) × (b : IsBegun p board.now budget was seat begun) × (last : Option ℤ) × (before : Option (List ℕ)) × (faults : ℕ)
        × Tells p minimize last before (S.taken out.old) faults (S.faults out.old) told.old b.rests.acts.goes.shard_record }
    ensures { (p : Pass) → Suited p L.minimize L.operator K.prune K.minimize K.operator → (was : View) (seat : SeatFacts) (b : IsBegun p board.now budget was seat begun.entry) (last : Option ℤ) (before : Option (List ℕ)) (faults : ℕ)
        → Tells p minimize last before (S.taken out.old) faults (S.faults out.old) told.old b.rests.acts.goes.shard_record
        → (d : IsPlayed p board.now budget was seat result) × Tells p minimize last before (S.taken out.new) faults (S.faults out.new) told.new d.shard_record }
{
    let Begun { before, made, own } = begun;
    let Made { shard, room } = made;
    let mut shard = shard;
    let mut own = own;
    make_steps_and_look(&mut shard, budget, board, &mut own, out, told, minimize);
    let room = leave(room, shard);
    Played { before, room, own }
}

/// The answer of a pass that announced costs. At last its best solution is looked at.
fn look_last<S: Sink>(out: &mut S, told: Told, minimize: bool, end: PassEnd) -> AnnouncedEnd
    requires { told.count ≤ 2 ^ 41 }
    ensures { (p : Pass) (was now : View) (last : Option ℤ) (costs : List ℤ) (before : Option (List ℕ)) (faults : ℕ) → IsPassEnd p was now end → ((c : ℤ) → Has costs c → IsSolved p (best_known now) c) → minimize ≡ p.model.minimize
        → IsTold minimize last costs before (S.taken out.old) faults (S.faults out.old) told → EndsAnnounced p was now last before (S.taken out.new) faults (S.faults out.new) result }
{
    let mut told = told;
    look_some(out, &mut told, minimize, best_cost(&end));
    AnnouncedEnd {
        end,
        last: told.last,
        announced: told.count,
        refused: 0,
        failed: told.failed,
    }
}

/// A pass under a law of costs and a covering.
fn run_shard_announced<L: CostLaw, K: Covers, S: Sink>(
    alloc: Global,
    model: &DpModel,
    options: &Options,
    share: u64,
    board: &Board,
    seat: &mut BoardSeat,
    out: &mut S,
    last: Option<i64>,
) -> AnnouncedEnd
    requires law { IsLawOf model.now L.minimize L.operator }
    requires covering { IsLawOf model.now K.minimize K.operator }
    requires prune { K.prune ≡ options.now.prune }
    requires one { options.now.workers ≡ 1 }
    requires may { MayPass model.now options.now share board.now seat.old }
    ensures seat { IsSeatOf board.now seat.new }
    ensures whole { IsWhole seat.new.view }
    ensures answer { (some : 1 ≤ options.now.workers) → EndsAnnounced (pass_of model.now options.now share some) seat.old.view seat.new.view last (S.taken out.old) (S.taken out.new) (S.faults out.old) (S.faults out.new) result }
{
    match begin::<L, K>(alloc, model, options, share, board, seat) {
        Ok(begun) => {
            let mut told = Told {
                last,
                count: 0,
                failed: false,
            };
            let minimize = model.minimize();
            let played = play_and_look(begun, options.budget(), board, out, &mut told, minimize);
            let end = end_pass::<L>(alloc, options, share, board, seat, played);
            look_last(out, told, minimize, end)
        }
        Err(end) => silent(end, last),
    }
}

/// A pass under a law of costs: nodes cover others by dominance where pruning is on.
fn run_by_announced<L: CostLaw, S: Sink>(
    alloc: Global,
    model: &DpModel,
    options: &Options,
    share: u64,
    board: &Board,
    seat: &mut BoardSeat,
    out: &mut S,
    last: Option<i64>,
) -> AnnouncedEnd
    requires law { IsLawOf model.now L.minimize L.operator }
    requires one { options.now.workers ≡ 1 }
    requires may { MayPass model.now options.now share board.now seat.old }
    ensures seat { IsSeatOf board.now seat.new }
    ensures whole { IsWhole seat.new.view }
    ensures answer { (some : 1 ≤ options.now.workers) → EndsAnnounced (pass_of model.now options.now share some) seat.old.view seat.new.view last (S.taken out.old) (S.taken out.new) (S.faults out.old) (S.faults out.new) result }
{
    if options.prune() {
        run_shard_announced::<L, Dominating<L>, S>(
            alloc, model, options, share, board, seat, out, last,
        )
    } else {
        run_shard_announced::<L, Exact<L>, S>(alloc, model, options, share, board, seat, out, last)
    }
}

/// A pass under the law of costs that the model names.
fn run_announced<S: Sink>(
    alloc: Global,
    model: &DpModel,
    options: &Options,
    share: u64,
    board: &Board,
    seat: &mut BoardSeat,
    out: &mut S,
    last: Option<i64>,
) -> AnnouncedEnd
    requires one { options.now.workers ≡ 1 }
    requires may { MayPass model.now options.now share board.now seat.old }
    ensures seat { IsSeatOf board.now seat.new }
    ensures whole { IsWhole seat.new.view }
    ensures answer { (some : 1 ≤ options.now.workers) → EndsAnnounced (pass_of model.now options.now share some) seat.old.view seat.new.view last (S.taken out.old) (S.taken out.new) (S.faults out.old) (S.faults out.new) result }
{
    by_law!(
        model,
        run_by_announced::<S>(alloc, model, options, share, board, seat, out, last)
    )
}

/// Makes a pass as `run_pass_alone` does, and announces the costs of better solutions while it runs. Where the shard's solution
/// betters the board, its cost is looked at there and then, and when the shard has ended the pass's best. The line `announce C` is
/// written of each that is strictly better than the last one that was announced, which at first is `last`. After a write that failed
/// nothing more is written. Nothing is refused.
pub fn run_pass_alone_announced<S: Sink>(
    alloc: Global,
    model: &DpModel,
    options: &Options,
    share: u64,
    board: &Board,
    seat: &mut BoardSeat,
    out: &mut S,
    last: Option<i64>,
) -> AnnouncedEnd
    requires inner { Inner model.now model.now.target }
    requires share { 1 ≤ share }
    requires options { AreOptions options.now }
    requires one { options.now.workers ≡ 1 }
    requires seat { IsSeatOf board.now seat.old }
    requires whole { IsWhole seat.old.view }
    requires no_halt { seat.old.view.raised ≡ 0 }
    requires drawn { seat.old.view.drawn ≤ 2 ^ 41 }
    requires limit { board.now.limit ≡ options.now.budget }
    ensures seat { IsSeatOf board.now seat.new }
    ensures whole { IsWhole seat.new.view }
    ensures answer { (some : 1 ≤ options.now.workers) → IsPassEnd (pass_of model.now options.now share some) seat.old.view seat.new.view result.end }
    ensures announced { HasAnnounced model.now last (S.taken out.old) (S.taken out.new) (S.faults out.old) (S.faults out.new) result }
    ensures last { HasLast model.now (best_known seat.old.view) (best_known seat.new.view) last result }
    ensures refused { (some : 1 ≤ options.now.workers) → HasRefused (pass_of model.now options.now share some) result.refused }
{
    run_announced(alloc, model, options, share, board, seat, out, last)
}
