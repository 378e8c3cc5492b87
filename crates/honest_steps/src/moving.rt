//! A step of a mode as symbols.

ghost use Rattle.std.specs.Prelude.{IfOk, IfSome};
ghost use Rattle.honest_steps.specs.Moves.{IsMove, IsMoveBy};

use crate::effects::{symbols_after, weight_of};
use dp_base::Seq;
use dp_model::{Model, Transition};
use honest_states::{Mode, Symbolic, symbols_of};
use poly_eval::Symbol;
use poly_terms::{Atom, Term};
use std::alloc::{AllocError, Global};

/// A step: the symbols before it and after it, over a table of atoms, and what it weighs, if it has a weight. The atoms
/// below `free` are those of the mode.
#[derive(Debug, Drop)]
pub struct Move {
    pub table: Vec<Atom>,
    pub free: usize,
    pub before: Vec<Symbol>,
    pub after: Vec<Symbol>,
    pub weight: Option<Seq<Term>>,
}

/// The step of a transition with these values of its parameters, over the symbols of a mode.
fn moved_by(
    alloc: Global,
    model: &Model,
    symbolic: Symbolic,
    transition: &Transition,
    args: &[u32],
) -> Result<Option<Move>, AllocError>
    ensures { IfOk result (λ answer. IfSome answer (IsMoveBy model.now symbolic transition.now args.now)) }
{
    let Symbolic {
        mut table,
        symbols: before,
    } = symbolic;
    let free = table.len();
    let effects = transition.effects().list();
    let Some(after) = symbols_after(alloc, model, &mut table, &before, args, effects)? else {
        return Ok(None);
    };
    let Some(weight) = weight_of(alloc, model, &mut table, &before, args, transition.weight())?
    else {
        return Ok(None);
    };
    Ok(Some(Move {
        table,
        free,
        before,
        after,
        weight,
    }))
}

/// The steps of a mode by a ground transition as symbols: where those before the step show a state, those after it show the
/// state where the step leads. `None` says that they are not told.
pub fn moved(
    alloc: Global,
    model: &Model,
    mode: &Mode,
    ground: u32,
) -> Result<Option<Move>, AllocError>
    ensures { IfOk result (λ answer. IfSome answer (IsMove model.now mode.now ground)) }
{
    let Some(step) = model.ground().list().get(ground as usize) else {
        return Ok(None);
    };
    let Some(transition) = model.transitions().list().get(step.transition() as usize) else {
        return Ok(None);
    };
    match symbols_of(alloc, mode)? {
        Some(symbolic) => moved_by(alloc, model, symbolic, transition, step.args().list()),
        None => Ok(None),
    }
}
