//! The commands on the nodes of a layer.

ghost use Rattle.cases_search.specs.Fits.{AllFit};

use crate::bench::Bench;
use crate::numbers::{cost_of, floor_of, two_words};
use crate::shown::cost_shown;
use cost_laws::CostLaw;
use dom_store::{Added, Covers};
use state_layout::Node;
use std::alloc::Global;
use std::io;

/// Adds a node of the state at hand, with a cost so far and a floor, and prints what became of it, and how many nodes
/// are held.
pub(crate) fn add<R: Print + Alloc<A = Global>, L: CostLaw, K: Covers>(
    rt: &R,
    bench: &mut Bench<'_, L, K>,
    text: &str,
) -> io::Result<()> {
    let alloc = rt.alloc();
    let (cost, floor) = two_words(text);
    let told = match bench.add(alloc, cost_of(cost), floor_of(floor))? {
        Some(Added::Kept) => "kept",
        Some(Added::Covered) => "covered",
        None => "memory",
    };
    let held = bench.held();
    println!(rt; "add {text}: {told}, {held} held")
}

/// Takes the nodes out, and prints which are kept and which are dropped, and the best floor of the latter.
pub(crate) fn take<R: Print + Alloc<A = Global>, L: CostLaw, K: Covers>(
    rt: &R,
    bench: &mut Bench<'_, L, K>,
    text: &str,
) -> io::Result<()> {
    let alloc = rt.alloc();
    let share = text.parse::<u64>().unwrap_or(1);
    let taken = bench.take_best(alloc, share)?;
    let floor = cost_shown(alloc, taken.least_floor)?;
    let held = bench.held();
    println!(rt; "take {text}: least floor {floor}, {held} held")?;
    print_taken(rt, bench, "kept", taken.kept.list())?;
    print_taken(rt, bench, "dropped", taken.dropped.list())
}

/// Adds so many nodes of the states that the first ground transition leads to, takes the better half of them, and prints how
/// many there are.
pub(crate) fn many<R: Print + Alloc<A = Global>, L: CostLaw, K: Covers>(
    rt: &R,
    bench: &mut Bench<'_, L, K>,
    text: &str,
) -> io::Result<()> {
    let alloc = rt.alloc();
    let count = text.parse::<u32>().unwrap_or(1);
    if bench.add_along(alloc, 0, count).is_err() {
        return println!(rt; "many {text}: a fault");
    }
    let held = bench.held();
    let taken = bench.take_best(alloc, held / 2)?;
    let kept = taken.kept.list().len();
    let dropped = taken.dropped.list().len();
    println!(rt; "many {text}: {held} held, {kept} kept, {dropped} dropped")
}

/// Prints nodes, each on a line, and whether its copy equals it.
fn print_taken<R: Print + Alloc<A = Global>, L: CostLaw, K: Covers>(
    rt: &R,
    bench: &Bench<'_, L, K>,
    word: &str,
    nodes: &[Node],
) -> io::Result<()>
    requires { AllFit bench.now nodes.now }
{
    let alloc = rt.alloc();
    for node in nodes {
        let text = bench.node_shown(alloc, node)?;
        let copy = if bench.is_copied(alloc, node)? {
            "equal"
        } else {
            "other"
        };
        println!(rt; "    {word} {text} copy {copy}")?;
    }
    Ok(())
}
