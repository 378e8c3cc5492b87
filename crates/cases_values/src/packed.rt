//! Values of expressions in the packed target state of a model by the evaluators of a search, as texts.

ghost use Rattle.std.specs.Prelude.{◌≡◌, ◌≤◌, IfOk, length};
ghost use Rattle.packed_words.specs.Scenes.{AreSmall};
ghost use Rattle.packed_words.specs.Tables.{AreTablesOf};
ghost use Rattle.state_layout.specs.Conditions.{IsLayoutOf, IsPackedFor};

use crate::plain::fault_name;
use dp_base::Seq;
use dp_model::{Cond, Model, Num, SetEx};
use eval_room::{cond_need, num_need, set_count, set_need};
use packed_eval::{holds, number, set_into, words_of};
use packed_spots::in_words;
use packed_words::{Scene, Tables, words_for};
use state_layout::{Layout, Packed};
use std::alloc::{AllocError, Global};

/// How many parameters may be in force.
const MOST_PARAMETERS: usize = 4;

/// A model's target in words, with what evaluators keep of its tables, and the values of parameters.
#[derive(Drop)]
struct Target {
    layout: Layout,
    state: Packed,
    tables: Tables,
    args: [u64; 4],
    given: usize,
}

impl Target {
    /// The target of a model with these values of the parameters, or the first of them that may be in force.
    fn of(alloc: Global, model: &Model, args: &Seq<u32>) -> Result<Target, AllocError>
        ensures layout { IfOk result (λ target. IsLayoutOf model.now target.layout) }
        ensures state { IfOk result (λ target. IsPackedFor target.layout target.state) }
        ensures tables { IfOk result (λ target. AreTablesOf model.now target.tables) }
        ensures small { IfOk result (λ target. AreSmall target.args) }
        ensures few { IfOk result (λ target. target.given ≤ 4) }
    {
        let layout = Layout::of(alloc, model)?;
        let state = layout.pack(alloc, model.target())?;
        let tables = Tables::of(alloc, model)?;
        let given = args.list().len().min(MOST_PARAMETERS);
        let args = in_words(&args.list()[..given]);
        Ok(Target {
            layout,
            state,
            tables,
            args,
            given,
        })
    }

    /// The target, as evaluators look at it.
    #[tactic(auto, using(packed_spots::proofs::Values::front_small))]
    fn scene<'s>(&'s self, model: &'s Model) -> Scene<'s>
        requires layout { IsLayoutOf model.now self.now.layout }
        requires state { IsPackedFor self.now.layout self.now.state }
        requires tables { AreTablesOf model.now self.now.tables }
        requires small { AreSmall self.now.args }
        requires few { self.now.given ≤ 4 }
    {
        Scene {
            model,
            tables: &self.tables,
            slots: self.layout.slots(),
            words: words_of(model, &self.layout, &self.state),
            args: &self.args[..self.given],
        }
    }
}

/// So many words.
pub(crate) fn words(alloc: Global, count: usize) -> Result<Vec<u64>, AllocError>
    ensures { IfOk result (λ words. length words.items ≡ count) }
{
    vec![in alloc; 0u64; count]
}

/// What stands where no room for an expression is found.
fn no_room(alloc: Global) -> Result<String, AllocError> {
    String::from_str(alloc, "no room")
}

/// The members of a set in words, of which it may have so many, between braces.
pub(crate) fn members_in(alloc: Global, count: u32, words: &[u64]) -> Result<String, AllocError> {
    let mut text = String::from_str(alloc, "{")?;
    for member in 0..count {
        if words
            .get(member as usize / 64)
            .is_some_and(|word| word >> (member % 64) & 1 == 1)
        {
            if text.len() > 1 {
                text.push(',')?;
            }
            text.push_str(member.to_string(alloc)?.as_str())?;
        }
    }
    text.push('}')?;
    Ok(text)
}

fn number_at(alloc: Global, at: &Scene<'_>, e: &Num) -> Result<String, AllocError> {
    let Some(need) = num_need(at.model, e, at.args.len()) else {
        return no_room(alloc);
    };
    let mut stack = words(alloc, need)?;
    match number(at, e, stack.as_mut_slice()) {
        Ok(n) => n.to_string(alloc),
        Err(kind) => String::from_str(alloc, fault_name(kind)),
    }
}

fn condition_at(alloc: Global, at: &Scene<'_>, e: &Cond) -> Result<String, AllocError> {
    let Some(need) = cond_need(at.model, e, at.args.len()) else {
        return no_room(alloc);
    };
    let mut stack = words(alloc, need)?;
    match holds(at, e, stack.as_mut_slice()) {
        Ok(held) => String::from_str(alloc, if held { "true" } else { "false" }),
        Err(kind) => String::from_str(alloc, fault_name(kind)),
    }
}

fn members_at(alloc: Global, at: &Scene<'_>, e: &SetEx) -> Result<String, AllocError> {
    let Some(need) = set_need(at.model, e, at.args.len()) else {
        return no_room(alloc);
    };
    let count = set_count(at.model, e);
    let mut set = words(alloc, words_for(count))?;
    let mut stack = words(alloc, need)?;
    match set_into(at, e, count, set.as_mut_slice(), stack.as_mut_slice()) {
        Ok(()) => members_in(alloc, count, &set),
        Err(kind) => String::from_str(alloc, fault_name(kind)),
    }
}

/// The value of a number expression with these values of the parameters, or its fault.
pub(crate) fn number_text(
    alloc: Global,
    model: &Model,
    args: &Seq<u32>,
    e: &Num,
) -> Result<String, AllocError> {
    let target = Target::of(alloc, model, args)?;
    number_at(alloc, &target.scene(model), e)
}

/// Whether a condition holds with these values of the parameters, or its fault.
pub(crate) fn condition_text(
    alloc: Global,
    model: &Model,
    args: &Seq<u32>,
    e: &Cond,
) -> Result<String, AllocError> {
    let target = Target::of(alloc, model, args)?;
    condition_at(alloc, &target.scene(model), e)
}

/// The members of a set expression with these values of the parameters, or its fault.
pub(crate) fn members_text(
    alloc: Global,
    model: &Model,
    args: &Seq<u32>,
    e: &SetEx,
) -> Result<String, AllocError> {
    let target = Target::of(alloc, model, args)?;
    members_at(alloc, &target.scene(model), e)
}
