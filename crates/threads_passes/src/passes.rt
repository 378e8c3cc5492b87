//! Passes whose shards are turned in a given order.

ghost use Rattle.std.specs.Prelude.{IfSome, ◌≤◌};
ghost use Rattle.dp_steps.specs.States.{Inner};
ghost use Rattle.pass_ends.specs.Passes.{AreOptions};

use crate::orders::drawn_order;
use board_words::Board;
use cost_laws::NO_INCUMBENT;
use dp_base::{FILE_LIMIT, Seq};
use dp_model::{Cause, Keep, Model, Options};
use dp_outside::OpenGate;
use dypdl_load::load;
use pass_run::{PassEnd, run_pass_in_order, start_at};
use std::alloc::Global;
use std::sync::Wait;
use successors::Start;
use yaml_tree::{Tree, read};

/// So many orders are drawn.
const ORDERS: u32 = 200;

/// The greatest share of a pass.
const GREATEST_SHARE: u64 = 1 << 20;

/// The tree of a text, if it is one and memory lasts.
fn tree_of(alloc: Global, file: u8, bytes: &[u8]) -> Option<Tree> {
    if bytes.len() > FILE_LIMIT {
        return None;
    }
    read(alloc, file, bytes).ok()
}

/// The model of two texts, if they have one and memory lasts.
pub(crate) fn model_of(alloc: Global, domain: &[u8], problem: &[u8]) -> Option<Model> {
    let domain = tree_of(alloc, 1, domain)?;
    let problem = tree_of(alloc, 2, problem)?;
    load(alloc, &domain, &problem).ok()
}

/// How a model is solved with pruning, if the numbers are in their ranges.
pub(crate) fn options_of(workers: u32, budget: u64) -> Option<Options>
    ensures { IfSome result AreOptions }
{
    if workers < 1 || workers > 64 || budget < 1 || budget > 1 << 40 {
        return None;
    }
    Some(Options {
        workers,
        budget,
        prune: true,
        keep: Keep::Layer,
    })
}

/// A pass over a board of its own, on which a word is the best one so far. With it comes the best one afterwards.
fn make_pass<R: Wait>(
    rt: &R,
    alloc: Global,
    model: &Model,
    options: &Options,
    share: u64,
    best: u64,
    order: &Seq<u32>,
) -> Option<(PassEnd, u64)>
    requires inner { Inner model.now model.now.target }
    requires share { 1 ≤ share }
    requires options { AreOptions options.now }
{
    let (board, mut seat) = Board::new(alloc, best, options.budget()).ok()?;
    let end = run_pass_in_order(
        rt,
        alloc,
        model,
        options,
        share,
        &board,
        &mut seat,
        &OpenGate::new(),
        order,
    );
    Some((end, board.look(&mut seat)))
}

/// Passes with shares that double, until one drops no node. Answers the best cost, if there is one and no pass was halted.
fn make_passes<R: Wait>(
    rt: &R,
    alloc: Global,
    model: &Model,
    options: &Options,
    order: &Seq<u32>,
) -> Option<i64>
    requires inner { Inner model.now model.now.target }
    requires options { AreOptions options.now }
{
    let mut best = NO_INCUMBENT;
    let mut cost = None;
    let mut share = 1;
    while share < GREATEST_SHARE {
        let (end, word) = make_pass(rt, alloc, model, options, share, best, order)?;
        let PassEnd::Closed {
            dropped,
            best: found,
            ..
        } = end
        else {
            return None;
        };
        if let Some(found) = found {
            cost = Some(found.cost());
        }
        best = word;
        if dropped == 0 {
            return cost;
        }
        share *= 2;
    }
    None
}

/// In how many of the drawn orders the passes end with this cost.
fn count_orders<R: Wait>(rt: &R, alloc: Global, model: &Model, options: &Options, cost: i64) -> u32
    requires inner { Inner model.now model.now.target }
    requires options { AreOptions options.now }
{
    let mut count = 0u32;
    for seed in 0..ORDERS {
        let Ok(order) = drawn_order(alloc, options.workers(), seed) else {
            return count;
        };
        if make_passes(rt, alloc, model, options, &order) == Some(cost) {
            count = count.saturating_add(1);
        }
    }
    count
}

/// In how many of the 200 drawn orders the passes end with this cost, if the model has an open target.
pub(crate) fn orders_that_end<R: Wait>(
    rt: &R,
    alloc: Global,
    model: &Model,
    workers: u32,
    cost: i64,
) -> Option<u32> {
    let options = options_of(workers, 10_000_000)?;
    match start_at(alloc, model, true) {
        Ok(Start::Open(_)) => Some(count_orders(rt, alloc, model, &options, cost)),
        _ => None,
    }
}

/// Why a pass in this order was halted, in a word.
pub(crate) fn halt_in_order<R: Wait>(
    rt: &R,
    alloc: Global,
    model: &Model,
    options: &Options,
    order: &Seq<u32>,
) -> &'static str
    requires options { AreOptions options.now }
{
    let Ok(Start::Open(_)) = start_at(alloc, model, true) else {
        return "no open target";
    };
    match make_pass(
        rt,
        alloc,
        model,
        options,
        GREATEST_SHARE,
        NO_INCUMBENT,
        order,
    ) {
        Some((PassEnd::Closed { .. }, _)) => "closed",
        Some((PassEnd::Halted { cause, .. }, _)) => match cause {
            Cause::Budget => "budget",
            Cause::Fault(_) => "fault",
            Cause::Memory => "memory",
        },
        None => "memory",
    }
}
