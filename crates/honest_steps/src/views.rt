//! States that are looked at: those of a mode, or those where their steps lead.

ghost use Rattle.std.specs.Prelude.{IfOk, IfSome};
ghost use Rattle.honest_steps.specs.Views.{IsSeen};

use crate::copies::copied_symbols;
use crate::moving::{Move, moved};
use dp_model::Model;
use honest_states::{Mode, Symbolic, symbols_of};
use poly_eval::Symbol;
use poly_terms::Atom;
use std::alloc::{AllocError, Global};

/// Which state is looked at from a state of a mode: the same one, or the one where its step by this ground transition leads.
#[derive(Clone, Copy, Debug, PartialEq, Eq)]
pub enum View {
    Here,
    After(u32),
}

/// Symbols of the states of a mode and of those that are looked at, over one table of atoms. The atoms below `free` are those
/// of the mode.
#[derive(Debug, Drop)]
pub struct Seen {
    pub table: Vec<Atom>,
    pub free: usize,
    pub own: Vec<Symbol>,
    pub symbols: Vec<Symbol>,
}

/// The states of a mode themselves.
fn seen_here(alloc: Global, model: &Model, mode: &Mode) -> Result<Option<Seen>, AllocError>
    ensures { IfOk result (λ answer. IfSome answer (IsSeen model.now View.Here mode.now)) }
{
    let Some(Symbolic { table, symbols }) = symbols_of(alloc, mode)? else {
        return Ok(None);
    };
    let own = copied_symbols(alloc, &symbols)?;
    let free = table.len();
    Ok(Some(Seen {
        table,
        free,
        own,
        symbols,
    }))
}

/// The states where the steps of a mode by a ground transition lead.
fn seen_after(
    alloc: Global,
    model: &Model,
    mode: &Mode,
    ground: u32,
) -> Result<Option<Seen>, AllocError>
    ensures { IfOk result (λ answer. IfSome answer (IsSeen model.now (View.After ground) mode.now)) }
{
    match moved(alloc, model, mode, ground)? {
        Some(
            Move {
                table,
                free,
                before,
                after,
                weight: _,
            },
        ) => Ok(Some(Seen {
            table,
            free,
            own: before,
            symbols: after,
        })),
        None => Ok(None),
    }
}

/// The states that are looked at from a mode. `None` says that they are not told.
pub fn look(
    alloc: Global,
    model: &Model,
    mode: &Mode,
    view: View,
) -> Result<Option<Seen>, AllocError>
    ensures { IfOk result (λ answer. IfSome answer (IsSeen model.now view mode.now)) }
{
    match view {
        View::Here => seen_here(alloc, model, mode),
        View::After(ground) => seen_after(alloc, model, mode, ground),
    }
}
