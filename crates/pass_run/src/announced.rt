//! A pass that announces the costs of better solutions while it runs.

ghost use Rattle.std.specs.Prelude.{◌≡◌, ◌<◌, ◌≤◌, ◌-◌, ◌^◌, min, ℕ, List, Option, Some, ℤ, length, slice_get, IfErr, IfOk};
ghost use Rattle.announcer.specs.Ends.{AreCallersOf, AreNewCallers, IsBegunOf, IsCrierOf, new_crier, refused_of};
ghost use Rattle.announcer.specs.declared.view.CalledCost.{CalledCost};
ghost use Rattle.announcing.specs.Telling.{IsTold};
ghost use Rattle.board_words.specs.Rules.{IsWhole};
ghost use Rattle.board_words.specs.Seats.{BoardFacts, IsSeatOf};
ghost use Rattle.board_words.specs.Steps.{best_known};
ghost use Rattle.board_words.specs.declared.seat.View.{View};
ghost use Rattle.cost_laws.specs.Orders.{IsLawOf};
ghost use Rattle.dp_steps.specs.States.{Inner};
ghost use Rattle.pass_ends.specs.Ends.{IsPassEnd};
ghost use Rattle.pass_ends.specs.Passes.{AreOptions, pass_of};
ghost use Rattle.pass_ledger.specs.Passes.{Pass};
ghost use Rattle.pass_over.specs.Announcements.{EndsAnnounced, HasAnnounced, HasLast, HasRefused, RanOut};
ghost use Rattle.pass_over.specs.Passes.{MayPass};
ghost use Rattle.shard_mail.specs.Ends.{MailboxFacts};
ghost use Rattle.shard_threads.specs.Players.{AreHeld, AllStay};
ghost use Rattle.shard_turns.specs.Plays.{plays_by};
ghost use Rattle.pass_run.specs.Announcements.{HasHeard, HasLooked, HasSettled, WasHeard, forgotten};
ghost use Rattle.pass_run.specs.Callers.{AreLastCallers, CallTo};
ghost use Rattle.pass_run.specs.Crews.{AllEnded, KeepAll};
ghost use Rattle.pass_run.specs.Hearing.{Heard as HeardBy, Hears, costs_cried};

use crate::ear::{Ear, MOST_HEARD};
use crate::ending::Over;
use crate::stages::{Begun, begin_pass, end_pass, not_begun};
use announcer::{AnnounceQueue, Caller, Crier};
use announcing::{Told, look_all, look_some};
use board_words::{Board, BoardSeat};
use cost_laws::CostLaw;
use dom_store::{Covers, Dominating, Exact};
use dp_base::Seq;
use dp_model::{Model as DpModel, Options};
use dp_outside::{Gate, Sink};
use pass_ends::{PassEnd, out_of_memory};
use pass_over::{AnnouncedEnd, best_cost, silent};
use shard_mail::Mailbox;
use shard_threads::{Floor, Seated, turn_in_threads};
use shard_turns::{Calling, Envelope, Turner};
use solve_start::by_law;
use std::alloc::Global;
use std::mem;
use std::sync::Wait;
use std::thread::Threads;

/// A pass whose shards have ended, and what was heard of them until then.
#[derive(Drop)]
pub struct Heard {
    pub over: Over,
    pub crier: Crier,
    pub told: Told,
}

/// Gives a shard its right to call.
fn give<'m, L: CostLaw, K: Covers>(seated: &mut Seated<Turner<'m, L, K>>, calling: Calling<'m>)
    ensures { seated.new ≡ record seated.old { player = record seated.old.player { calling = Some calling.entry } } }
{
    seated.player.calling = Some(calling);
}

/// Gives each shard the caller with its number.
fn give_callers<'m, L: CostLaw, K: Covers>(
    queue: &'m AnnounceQueue,
    callers: Seq<Caller>,
    shards: Vec<Seated<Turner<'m, L, K>>>,
) -> Vec<Seated<Turner<'m, L, K>>>
    requires new { AreNewCallers queue.now callers }
    requires long { length shards.items ≡ queue.now.senders }
    ensures keep { (p : Pass) (board : BoardFacts) (boxes : List MailboxFacts) → KeepAll p board boxes shards.entry.items → KeepAll p board boxes result.items }
    ensures queue { CallTo queue.now result.items }
{
    let mut shards = shards;
    let mut callers = callers.into_list();
    while let Some(caller) = callers.pop() {
        give(&mut shards[callers.len()], Calling { queue, caller });
    }
    shards
}

/// Turns the shards until each has ended, and hears what they call between two rounds of the calling thread's turns.
fn turn_and_hear<
    'a,
    'm,
    L: CostLaw + Send,
    K: Covers + Send,
    R: Threads + Wait + Sync,
    G: Gate,
    S: Sink,
>(
    rt: &R,
    alloc: Global,
    floor: &Floor<Vec<Mailbox<Envelope>>, G>,
    shards: &mut Vec<Seated<Turner<'m, L, K>>>,
    ear: Ear<'a, S>,
) -> Ear<'a, S>
    requires players { AreHeld (plays_by L.minimize L.operator K.prune K.minimize K.operator) floor.now.board.now floor.now.boxes.now shards.old.items }
    requires ear { (h : HeardBy) × Hears S.taken S.faults h ear }
    ensures stay { AllStay (plays_by L.minimize L.operator K.prune K.minimize K.operator) floor.now.board.now floor.now.boxes.now shards.old.items shards.new.items }
    ensures ended { AllEnded shards.new.items }
    ensures ear { (h : HeardBy) → Hears S.taken S.faults h ear.entry → Hears S.taken S.faults h result }
    ensures crier { result.crier.ghost_name ≡ ear.entry.crier.ghost_name }
    ensures sink { result.out.ghost_name ≡ ear.entry.out.ghost_name }
{
    let waiting = mem::replace(shards, Vec::new(alloc));
    let (turned, heard) = turn_in_threads(rt, alloc, floor, waiting, ear);
    *shards = turned;
    heard
}

/// Turns the shards until each has ended, and announces what they call between two rounds of the calling thread's turns.
fn turn_and_announce<
    'm,
    L: CostLaw + Send,
    K: Covers + Send,
    R: Threads + Wait + Sync,
    G: Gate,
    S: Sink,
>(
    rt: &R,
    alloc: Global,
    floor: &Floor<Vec<Mailbox<Envelope>>, G>,
    shards: &mut Vec<Seated<Turner<'m, L, K>>>,
    queue: &AnnounceQueue,
    crier: &mut Crier,
    out: &mut S,
    minimize: bool,
    last: Option<i64>,
) -> Told
    requires players { AreHeld (plays_by L.minimize L.operator K.prune K.minimize K.operator) floor.now.board.now floor.now.boxes.now shards.old.items }
    requires crier { crier.old ≡ new_crier queue.now }
    ensures stay { AllStay (plays_by L.minimize L.operator K.prune K.minimize K.operator) floor.now.board.now floor.now.boxes.now shards.old.items shards.new.items }
    ensures ended { AllEnded shards.new.items }
    ensures heard { HasHeard S.taken S.faults queue.now minimize last crier.new out.old out.new result }
{
    let told = Told {
        last,
        count: 0,
        failed: false,
    };
    let ear = Ear {
        queue,
        crier,
        out,
        told,
        minimize,
    };
    turn_and_hear(rt, alloc, floor, shards, ear).told
}

/// Makes a pass whose shards call costs to a queue. The calling thread announces them between its turns. `Err` is the answer of a
/// pass that could not begin.
fn hear_pass<'m, L: CostLaw + Send, K: Covers + Send, R: Threads + Wait + Sync, G: Gate, S: Sink>(
    rt: &R,
    alloc: Global,
    model: &'m DpModel,
    options: &Options,
    share: u64,
    board: &Board,
    seat: &mut BoardSeat,
    gate: &G,
    queue: &'m AnnounceQueue,
    callers: Seq<Caller>,
    crier: Crier,
    out: &mut S,
    last: Option<i64>,
) -> Result<Heard, PassEnd>
    requires law { IsLawOf model.now L.minimize L.operator }
    requires covering { IsLawOf model.now K.minimize K.operator }
    requires prune { K.prune ≡ options.now.prune }
    requires may { MayPass model.now options.now share board.now seat.old }
    requires callers { AreNewCallers queue.now callers }
    requires senders { queue.now.senders ≡ options.now.workers }
    requires crier { crier ≡ new_crier queue.now }
    ensures seat { IsSeatOf board.now seat.new }
    ensures whole { IsWhole seat.new.view }
    ensures answer { (some : 1 ≤ options.now.workers) → IfOk result (λ heard. IsPassEnd (pass_of model.now options.now share some) seat.old.view seat.new.view heard.over.end
        × AreLastCallers (pass_of model.now options.now share some) (best_known seat.old.view) (best_known seat.new.view) queue.now heard.over.callers.items) }
    ensures begun { (some : 1 ≤ options.now.workers) → IfErr result (λ end. IsPassEnd (pass_of model.now options.now share some) seat.old.view seat.new.view end) }
    ensures silent { IfErr result (λ end. RanOut end × (out.new ≡ out.old)) }
    ensures crier { IfOk result (λ heard. IsCrierOf queue.now heard.crier × (heard.told.count ≤ 2 ^ 62) × ((k : ℕ) (x : CalledCost) → slice_get heard.crier.taken k ≡ Some x → x.from < queue.now.senders)) }
    ensures told { IfOk result (λ heard. IsTold model.now.minimize last (costs_cried heard.crier.taken) (S.taken out.old) (S.taken out.new) (S.faults out.old) (S.faults out.new) heard.told) }
{
    match begin_pass::<L, K>(alloc, model, options, share, board, seat) {
        Ok(begun) => {
            let Begun {
                before,
                shards,
                boxes,
                room,
            } = begun;
            let mut shards = give_callers(queue, callers, shards);
            let mut crier = crier;
            let told = turn_and_announce(
                rt,
                alloc,
                &Floor {
                    board,
                    boxes: &boxes,
                    gate,
                },
                &mut shards,
                queue,
                &mut crier,
                out,
                model.minimize(),
                last,
            );
            let ended = Begun {
                before,
                shards,
                boxes,
                room,
            };
            let over = end_pass(rt, alloc, options, share, board, seat, ended);
            Ok(Heard { over, crier, told })
        }
        Err(end) => Err(end),
    }
}

/// The same pass, where memory ran out at its end.
fn forget(end: PassEnd) -> PassEnd
    ensures { result ≡ forgotten end }
{
    match end {
        PassEnd::Closed {
            visited,
            dropped,
            ..
        } => out_of_memory(visited, dropped),
        PassEnd::Halted {
            visited,
            dropped,
            ..
        } => out_of_memory(visited, dropped),
    }
}

/// Looks at the costs that were left in the queue, and at last at the pass's best. More costs than can be counted have ended the
/// memory.
fn look_last<S: Sink>(
    out: &mut S,
    told: &mut Told,
    minimize: bool,
    costs: &Vec<i64>,
    end: PassEnd,
) -> PassEnd
    requires { told.old.count ≤ 2 ^ 62 }
    ensures { (last : Option ℤ) (cried : List ℤ) (bytes : Option (List ℕ)) (faults : ℕ) → IsTold minimize last cried bytes (S.taken out.old) faults (S.faults out.old) told.old
        → HasLooked minimize last cried costs.now.items bytes (S.taken out.new) faults (S.faults out.new) told.new end result }
{
    if costs.len() as u64 >= MOST_HEARD {
        return forget(end);
    }
    look_all(out, told, minimize, costs);
    look_some(out, told, minimize, best_cost(&end));
    end
}

/// How often callers were refused together.
fn refused_by(callers: &Vec<Caller>) -> u64
    ensures { result ≡ min (refused_of callers.now.items) (2 ^ 64 - 1) }
{
    let mut refused = 0u64;
    for caller in callers {
        refused = refused.saturating_add(caller.refused());
    }
    refused
}

/// Ends the callers of a pass, and looks at what is left. The answer of the pass changes where memory runs out.
fn end_calls<R: Wait, S: Sink>(
    rt: &R,
    queue: AnnounceQueue,
    callers: Vec<Caller>,
    crier: Crier,
    out: &mut S,
    told: &mut Told,
    minimize: bool,
    end: PassEnd,
) -> PassEnd
    requires callers { AreCallersOf queue callers.items }
    requires crier { IsCrierOf queue crier }
    requires few { told.old.count ≤ 2 ^ 62 }
    ensures looked { (last : Option ℤ) (bytes : Option (List ℕ)) (faults : ℕ) → IsTold minimize last (costs_cried crier.taken) bytes (S.taken out.old) faults (S.faults out.old) told.old
        → HasSettled queue callers.items crier minimize last bytes (S.taken out.new) faults (S.faults out.new) told.new end result }
    ensures begun { IsBegunOf callers.items crier.taken }
{
    match queue.settle(rt, Seq::of(callers), crier) {
        Ok(settled) => look_last(out, told, minimize, settled.left.list(), end),
        Err(_) => forget(end),
    }
}

/// The answer of a pass whose shards have ended, when what is left was announced.
fn settle_pass<R: Wait, S: Sink>(
    rt: &R,
    queue: AnnounceQueue,
    heard: Heard,
    out: &mut S,
    minimize: bool,
) -> AnnouncedEnd
    requires callers { AreCallersOf queue heard.over.callers.items }
    requires crier { IsCrierOf queue heard.crier }
    requires few { heard.told.count ≤ 2 ^ 62 }
    ensures { (p : Pass) (was now : View) (last : Option ℤ) (bytes : Option (List ℕ)) (faults : ℕ) → WasHeard p was now queue heard → minimize ≡ p.model.minimize
        → IsTold minimize last (costs_cried heard.crier.taken) bytes (S.taken out.old) faults (S.faults out.old) heard.told
        → EndsAnnounced p was now last bytes (S.taken out.new) faults (S.faults out.new) result }
{
    let Heard {
        over,
        crier,
        mut told,
    } = heard;
    let Over { end, callers } = over;
    let refused = refused_by(&callers);
    let end = end_calls(rt, queue, callers, crier, out, &mut told, minimize, end);
    AnnouncedEnd {
        end,
        last: told.last,
        announced: told.count,
        refused,
        failed: told.failed,
    }
}

/// A pass under a law of costs and a covering.
fn run_shards_announced<
    L: CostLaw + Send,
    K: Covers + Send,
    R: Threads + Wait + Sync,
    G: Gate,
    S: Sink,
>(
    rt: &R,
    alloc: Global,
    model: &DpModel,
    options: &Options,
    share: u64,
    board: &Board,
    seat: &mut BoardSeat,
    gate: &G,
    out: &mut S,
    last: Option<i64>,
) -> AnnouncedEnd
    requires law { IsLawOf model.now L.minimize L.operator }
    requires covering { IsLawOf model.now K.minimize K.operator }
    requires prune { K.prune ≡ options.now.prune }
    requires may { MayPass model.now options.now share board.now seat.old }
    ensures seat { IsSeatOf board.now seat.new }
    ensures whole { IsWhole seat.new.view }
    ensures answer { (some : 1 ≤ options.now.workers) → EndsAnnounced (pass_of model.now options.now share some) seat.old.view seat.new.view last (S.taken out.old) (S.taken out.new) (S.faults out.old) (S.faults out.new) result }
{
    let Ok((queue, callers, crier)) = AnnounceQueue::new(alloc, options.workers()) else {
        return silent(not_begun(board, seat, options), last);
    };
    match hear_pass::<L, K, R, G, S>(
        rt, alloc, model, options, share, board, seat, gate, &queue, callers, crier, out, last,
    ) {
        Ok(heard) => settle_pass(rt, queue, heard, out, model.minimize()),
        Err(end) => silent(end, last),
    }
}

/// A pass under a law of costs: nodes cover others by dominance where pruning is on.
fn run_by_announced<L: CostLaw + Send, R: Threads + Wait + Sync, G: Gate, S: Sink>(
    rt: &R,
    alloc: Global,
    model: &DpModel,
    options: &Options,
    share: u64,
    board: &Board,
    seat: &mut BoardSeat,
    gate: &G,
    out: &mut S,
    last: Option<i64>,
) -> AnnouncedEnd
    requires law { IsLawOf model.now L.minimize L.operator }
    requires may { MayPass model.now options.now share board.now seat.old }
    ensures seat { IsSeatOf board.now seat.new }
    ensures whole { IsWhole seat.new.view }
    ensures answer { (some : 1 ≤ options.now.workers) → EndsAnnounced (pass_of model.now options.now share some) seat.old.view seat.new.view last (S.taken out.old) (S.taken out.new) (S.faults out.old) (S.faults out.new) result }
{
    if options.prune() {
        run_shards_announced::<L, Dominating<L>, R, G, S>(
            rt, alloc, model, options, share, board, seat, gate, out, last,
        )
    } else {
        run_shards_announced::<L, Exact<L>, R, G, S>(
            rt, alloc, model, options, share, board, seat, gate, out, last,
        )
    }
}

/// A pass under the law of costs that the model names.
fn run_announced<R: Threads + Wait + Sync, G: Gate, S: Sink>(
    rt: &R,
    alloc: Global,
    model: &DpModel,
    options: &Options,
    share: u64,
    board: &Board,
    seat: &mut BoardSeat,
    gate: &G,
    out: &mut S,
    last: Option<i64>,
) -> AnnouncedEnd
    requires { MayPass model.now options.now share board.now seat.old }
    ensures seat { IsSeatOf board.now seat.new }
    ensures whole { IsWhole seat.new.view }
    ensures answer { (some : 1 ≤ options.now.workers) → EndsAnnounced (pass_of model.now options.now share some) seat.old.view seat.new.view last (S.taken out.old) (S.taken out.new) (S.faults out.old) (S.faults out.new) result }
{
    by_law!(
        model,
        run_by_announced::<R, G, S>(
            rt, alloc, model, options, share, board, seat, gate, out, last
        )
    )
}

/// Makes a pass as `run_pass` does, and announces the costs of better solutions while it runs. A shard calls the cost of what it
/// holds where its word bettered the board. Between its turns the calling thread looks at each cost that was called; when the shards
/// have ended it looks at those that are left, and at last at the pass's best. It writes the line `announce C` of each that is
/// strictly better than the last one that was announced, which at first is `last`. After a write that failed it writes nothing
/// more. A call that finds the queue full is let go and counted.
///
/// Where there is no memory for the queue, or for what is left in it, the pass is halted for want of memory, also where a shard met
/// a fault.
pub fn run_pass_announced<R: Threads + Wait + Sync, G: Gate, S: Sink>(
    rt: &R,
    alloc: Global,
    model: &DpModel,
    options: &Options,
    share: u64,
    board: &Board,
    seat: &mut BoardSeat,
    gate: &G,
    out: &mut S,
    last: Option<i64>,
) -> AnnouncedEnd
    requires inner { Inner model.now model.now.target }
    requires share { 1 ≤ share }
    requires options { AreOptions options.now }
    requires seat { IsSeatOf board.now seat.old }
    requires whole { IsWhole seat.old.view }
    requires no_halt { seat.old.view.raised ≡ 0 }
    requires drawn { seat.old.view.drawn ≤ 2 ^ 41 }
    requires limit { board.now.limit ≡ options.now.budget }
    ensures seat { IsSeatOf board.now seat.new }
    ensures whole { IsWhole seat.new.view }
    ensures answer { (some : 1 ≤ options.now.workers) → IsPassEnd (pass_of model.now options.now share some) seat.old.view seat.new.view result.end }
    ensures announced { HasAnnounced model.now last (S.taken out.old) (S.taken out.new) (S.faults out.old) (S.faults out.new) result }
    ensures last { HasLast model.now (best_known seat.old.view) (best_known seat.new.view) last result }
    ensures refused { (some : 1 ≤ options.now.workers) → HasRefused (pass_of model.now options.now share some) result.refused }
{
    run_announced(
        rt, alloc, model, options, share, board, seat, gate, out, last,
    )
}
