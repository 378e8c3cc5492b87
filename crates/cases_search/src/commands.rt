//! The commands of a session: what each is given, and how its answer is written.

ghost use Rattle.cases_search.specs.Fits.{AllFit, FitsIn};

use crate::bench::Bench;
use crate::layers::{add, many, take};
use crate::numbers::{cost_of, count_of, floor_of, two_words};
use crate::sessions::Command;
use crate::shown::{cost_shown, end_shown, spot_fault_shown, step_shown};
use cost_laws::{CostLaw, NO_INCUMBENT};
use dom_store::Covers;
use dp_base::{FILE_LIMIT, Seq};
use dp_model::Model;
use replay_list::read_list;
use state_layout::{Node, NodeBox};
use std::alloc::{AllocError, Global};
use std::io;
use successors::{Batch, Offer, Start};

/// Does what a command says, and prints what came out.
pub(crate) fn obey<R: Print + Alloc<A = Global>, L: CostLaw, K: Covers>(
    rt: &R,
    bench: &mut Bench<'_, L, K>,
    command: &Command,
) -> io::Result<()> {
    let rest = str::from_utf8(&command.rest).unwrap_or("");
    match command.word.as_str() {
        "path" => follow(rt, bench, rest),
        "start" => start(rt, bench),
        "allowed" => allowed(rt, bench),
        "base" => base(rt, bench),
        "enabled" => enabled(rt, bench, rest),
        "floor" => floor(rt, bench, rest),
        "expand" => expand(rt, bench, rest),
        "owner" => owner(rt, bench, rest),
        "add" => add(rt, bench, rest),
        "take" => take(rt, bench, rest),
        "many" => many(rt, bench, rest),
        word => println!(rt; "{word}: no such command"),
    }
}

/// The steps that a text names, one on each line. None where it names none, or memory ran out.
fn steps_of(alloc: Global, model: &Model, text: &str) -> Seq<u32> {
    if text.len() > FILE_LIMIT {
        return Seq::of(Vec::new(alloc));
    }
    match read_list(alloc, model, text.as_bytes()) {
        Ok(steps) => steps,
        Err(_) => Seq::of(Vec::new(alloc)),
    }
}

/// Takes steps from the target on, and prints the state that they lead to.
fn follow<R: Print + Alloc<A = Global>, L: CostLaw, K: Covers>(
    rt: &R,
    bench: &mut Bench<'_, L, K>,
    text: &str,
) -> io::Result<()> {
    let alloc = rt.alloc();
    bench.return_to_target(alloc)?;
    for number in steps_of(alloc, bench.model(), text).list() {
        step(rt, bench, *number)?;
    }
    let state = bench.state_shown(alloc)?;
    println!(rt; "path: {state}")
}

/// Takes a step, or prints why it can't be taken.
fn step<R: Print + Alloc<A = Global>, L: CostLaw, K: Covers>(
    rt: &R,
    bench: &mut Bench<'_, L, K>,
    number: u32,
) -> io::Result<()> {
    let alloc = rt.alloc();
    match bench.step(alloc, number) {
        Ok(true) => Ok(()),
        Ok(false) => println!(rt; "path: not enabled"),
        Err(end) => {
            let end = end_shown(alloc, bench.model(), &end)?;
            println!(rt; "path: {end}")
        }
    }
}

/// Prints what the target turns out to be.
fn start<R: Print + Alloc<A = Global>, L: CostLaw, K: Covers>(
    rt: &R,
    bench: &mut Bench<'_, L, K>,
) -> io::Result<()> {
    let alloc = rt.alloc();
    match bench.start(alloc) {
        Ok(Start::NotAllowed) => println!(rt; "start: not allowed"),
        Ok(Start::Base(cost)) => println!(rt; "start: base {cost}"),
        Ok(Start::Open(node)) => {
            let node = bench.node_shown(alloc, &node)?;
            println!(rt; "start: {node}")
        }
        Err(end) => {
            let end = end_shown(alloc, bench.model(), &end)?;
            println!(rt; "start: {end}")
        }
    }
}

/// Prints whether the state at hand is allowed.
fn allowed<R: Print + Alloc<A = Global>, L: CostLaw, K: Covers>(
    rt: &R,
    bench: &mut Bench<'_, L, K>,
) -> io::Result<()> {
    let alloc = rt.alloc();
    match bench.allowed() {
        Ok(allowed) => println!(rt; "allowed: {allowed}"),
        Err(met) => {
            let end = spot_fault_shown(alloc, bench.model(), met)?;
            println!(rt; "allowed: {end}")
        }
    }
}

/// Prints the base cost of the state at hand.
fn base<R: Print + Alloc<A = Global>, L: CostLaw, K: Covers>(
    rt: &R,
    bench: &mut Bench<'_, L, K>,
) -> io::Result<()> {
    let alloc = rt.alloc();
    let told = match bench.base_cost() {
        Ok(cost) => cost_shown(alloc, cost)?,
        Err(met) => spot_fault_shown(alloc, bench.model(), met)?,
    };
    println!(rt; "base: {told}")
}

/// Prints of each step of a text whether it is considered and enabled in the state at hand.
fn enabled<R: Print + Alloc<A = Global>, L: CostLaw, K: Covers>(
    rt: &R,
    bench: &mut Bench<'_, L, K>,
    text: &str,
) -> io::Result<()> {
    let alloc = rt.alloc();
    for number in steps_of(alloc, bench.model(), text).list() {
        let step = step_shown(alloc, bench.model(), *number)?;
        let step = step.as_text();
        match bench.enabled(*number) {
            Ok(enabled) => println!(rt; "enabled: {step} {enabled}")?,
            Err(met) => {
                let end = spot_fault_shown(alloc, bench.model(), met)?;
                println!(rt; "enabled: {step} {end}")?
            }
        }
    }
    Ok(())
}

/// Prints the floor of the state at hand with a cost so far.
fn floor<R: Print + Alloc<A = Global>, L: CostLaw, K: Covers>(
    rt: &R,
    bench: &mut Bench<'_, L, K>,
    text: &str,
) -> io::Result<()> {
    let alloc = rt.alloc();
    let told = match bench.floor(cost_of(text)) {
        Ok(floor) => cost_shown(alloc, floor)?,
        Err(met) => spot_fault_shown(alloc, bench.model(), met)?,
    };
    println!(rt; "floor {text}: {told}")
}

/// Prints what a visit of the state at hand makes, with a cost so far and the cost of an incumbent.
fn expand<R: Print + Alloc<A = Global>, L: CostLaw, K: Covers>(
    rt: &R,
    bench: &mut Bench<'_, L, K>,
    text: &str,
) -> io::Result<()> {
    let alloc = rt.alloc();
    let (cost, best) = two_words(text);
    let best = match floor_of(best) {
        Some(best) => L::word(Some(best)),
        None => NO_INCUMBENT,
    };
    match bench.expand(alloc, cost_of(cost), best) {
        Ok(batch) => {
            println!(rt; "expand {text}: {} not allowed", batch.not_allowed)?;
            print_batch(rt, bench, &batch)
        }
        Err(end) => {
            let end = end_shown(alloc, bench.model(), &end)?;
            println!(rt; "expand {text}: {end}")
        }
    }
}

/// Prints the successors of a batch, each on a line.
fn print_batch<R: Print + Alloc<A = Global>, L: CostLaw, K: Covers>(
    rt: &R,
    bench: &Bench<'_, L, K>,
    batch: &Batch,
) -> io::Result<()>
    requires letters { AllFit bench.now batch.now.letters }
    requires pruned { AllFit bench.now batch.now.pruned }
{
    print_letters(rt, bench, batch.letters.list())?;
    print_offers(rt, bench.model(), batch.offers.list())?;
    print_nodes(rt, bench, "pruned", batch.pruned.list())
}

/// Prints letters, each on a line, with the steps that made them.
fn print_letters<R: Print + Alloc<A = Global>, L: CostLaw, K: Covers>(
    rt: &R,
    bench: &Bench<'_, L, K>,
    letters: &[NodeBox],
) -> io::Result<()>
    requires { AllFit bench.now letters.now }
{
    for letter in letters {
        print_node(rt, bench, "letter", letter.get())?;
    }
    Ok(())
}

/// Prints nodes, each on a line, with the steps that made them.
fn print_nodes<R: Print + Alloc<A = Global>, L: CostLaw, K: Covers>(
    rt: &R,
    bench: &Bench<'_, L, K>,
    word: &str,
    nodes: &[Node],
) -> io::Result<()>
    requires { AllFit bench.now nodes.now }
{
    for node in nodes {
        print_node(rt, bench, word, node)?;
    }
    Ok(())
}

fn print_node<R: Print + Alloc<A = Global>, L: CostLaw, K: Covers>(
    rt: &R,
    bench: &Bench<'_, L, K>,
    word: &str,
    node: &Node,
) -> io::Result<()>
    requires { FitsIn bench.now node.now }
{
    let alloc = rt.alloc();
    let step = step_shown(alloc, bench.model(), node.transition)?;
    let step = step.as_text();
    let text = bench.node_shown(alloc, node)?;
    println!(rt; "    {word} {step}: {text}")
}

fn print_offers<R: Print + Alloc<A = Global>>(
    rt: &R,
    model: &Model,
    offers: &[Offer],
) -> io::Result<()> {
    let alloc = rt.alloc();
    for offer in offers {
        let step = step_shown(alloc, model, offer.transition)?;
        let step = step.as_text();
        let cost = offer.cost;
        println!(rt; "    offer {step}: {cost}")?;
    }
    Ok(())
}

/// Prints which of so many shards owns the state at hand.
fn owner<R: Print + Alloc<A = Global>, L: CostLaw, K: Covers>(
    rt: &R,
    bench: &Bench<'_, L, K>,
    text: &str,
) -> io::Result<()> {
    let owner = bench.owner(count_of(text));
    println!(rt; "owner {text}: {owner}")
}
