//! What a search begins with.

ghost use Rattle.std.specs.Prelude.{◌≤◌, IfOk};
ghost use Rattle.cost_laws.specs.Orders.{IsLawOf};
ghost use Rattle.successors.specs.Answers.{Answers};
ghost use Rattle.successors.specs.Starts.{StartFits};
ghost use Rattle.successors.specs.Starts as begins;
ghost use Rattle.solve_start.specs.Targets.{IsTarget};

use crate::by_law;
use cost_laws::CostLaw;
use dp_model::{Model as DpModel, Options};
use state_layout::{Layout, Node};
use std::alloc::{AllocError, Global};
use successors::{ExpandEnd, Expander, Start};

/// The node of the target, and the shard that owns it.
#[derive(Drop)]
pub struct Target {
    pub node: Node,
    pub owner: u32,
}

fn start_by<L: CostLaw>(alloc: Global, model: &DpModel, prune: bool) -> Result<Start, ExpandEnd>
    requires { IsLawOf model.now L.minimize L.operator }
    ensures start { Answers result (begins.start_at model.now prune) }
    ensures fits { IfOk result (StartFits model.now) }
{
    let mut expander = Expander::<L>::new(alloc, model, prune)?;
    expander.start(alloc)
}

/// What the target of a model turns out to be, under the model's law of costs: not allowed, base, or open with its node. Fails
/// with the first fault that is met there, or for want of memory.
pub fn start_at(alloc: Global, model: &DpModel, prune: bool) -> Result<Start, ExpandEnd>
    ensures start { Answers result (begins.start_at model.now prune) }
    ensures fits { IfOk result (StartFits model.now) }
{
    by_law!(model, start_by(alloc, model, prune))
}

/// The node of the target, which is an inner state, and the shard that owns it. Only memory can be wanting.
pub fn find_target<L: CostLaw>(
    alloc: Global,
    model: &DpModel,
    options: &Options,
) -> Result<Target, AllocError>
    requires law { IsLawOf model.now L.minimize L.operator }
    requires some { 1 ≤ options.now.workers }
    ensures { IfOk result (IsTarget model.now options.now) }
{
    let Ok(Start::Open(node)) = start_by::<L>(alloc, model, options.prune()) else {
        return Err(AllocError);
    };
    let owner = Layout::of(alloc, model)?.owner(&node.state, options.workers());
    Ok(Target { node, owner })
}
