//! The model of a session, and its law of costs.

ghost use Rattle.cost_laws.specs.Orders.{IsLawOf};

use crate::bench::Bench;
use crate::commands::obey;
use crate::sessions::Session;
use case_files::escaped;
use cost_laws::{CostLaw, MaxLeast, MaxMost, MaxPlus, MinLeast, MinMost, MinPlus};
use dom_store::{Covers, Dominating, Exact};
use dp_base::FILE_LIMIT;
use dp_model::{JoinOp, Model};
use dypdl_load::load;
use std::alloc::Global;
use std::io;
use yaml_tree::{Tree, read};

/// The tree of a text, if it is one and memory lasts.
fn tree_of(alloc: Global, file: u8, bytes: &[u8]) -> Option<Tree> {
    if bytes.len() > FILE_LIMIT {
        return None;
    }
    read(alloc, file, bytes).ok()
}

/// The model of a session's texts, if they have one and memory lasts.
fn model_of(alloc: Global, session: &Session) -> Option<Model> {
    let domain = tree_of(alloc, 1, &session.domain)?;
    let problem = tree_of(alloc, 2, &session.problem)?;
    load(alloc, &domain, &problem).ok()
}

/// Runs the commands of a session over its model, which has this law of costs and covering.
fn run_commands<R: Print + Alloc<A = Global>, L: CostLaw, K: Covers>(
    rt: &R,
    model: &Model,
    session: &Session,
) -> io::Result<()>
    requires { IsLawOf model.now L.minimize L.operator }
{
    let mut bench: Bench<'_, L, K> = Bench::new(rt.alloc(), model, session.prune)?;
    for command in session.commands.iter() {
        obey(rt, &mut bench, command)?;
    }
    Ok(())
}

/// The same with the covering of a search: by dominance where dual bounds are used, and else of equal states.
fn run_law<R: Print + Alloc<A = Global>, L: CostLaw>(
    rt: &R,
    model: &Model,
    session: &Session,
) -> io::Result<()>
    requires { IsLawOf model.now L.minimize L.operator }
{
    if session.prune {
        run_commands::<R, L, Dominating<L>>(rt, model, session)
    } else {
        run_commands::<R, L, Exact<L>>(rt, model, session)
    }
}

/// The same with the model's law of costs.
fn run_model<R: Print + Alloc<A = Global>>(
    rt: &R,
    model: &Model,
    session: &Session,
) -> io::Result<()> {
    match (model.minimize(), model.join()) {
        (true, JoinOp::Plus) => run_law::<R, MinPlus>(rt, model, session),
        (true, JoinOp::Most) => run_law::<R, MinMost>(rt, model, session),
        (true, JoinOp::Least) => run_law::<R, MinLeast>(rt, model, session),
        (false, JoinOp::Plus) => run_law::<R, MaxPlus>(rt, model, session),
        (false, JoinOp::Most) => run_law::<R, MaxMost>(rt, model, session),
        (false, JoinOp::Least) => run_law::<R, MaxLeast>(rt, model, session),
    }
}

/// Prints the name of a session, and what comes out of its commands.
pub(crate) fn run_session<R: Print + Alloc<A = Global>>(
    rt: &R,
    session: &Session,
) -> io::Result<()> {
    let alloc = rt.alloc();
    let name = escaped(alloc, &session.name)?;
    let prune = if session.prune { "on" } else { "off" };
    println!(rt; "== {name}, prune {prune}")?;
    match model_of(alloc, session) {
        Some(model) => run_model(rt, &model, session),
        None => println!(rt; "no model"),
    }
}
