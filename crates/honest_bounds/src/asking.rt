//! What is asked of each step of each mode.

ghost use Rattle.std.specs.Prelude.{◌≡◌, ◌<◌, ℕ, Some, length, slice_get, IfOk, IsTrue};
ghost use Rattle.honest_states.specs.declared.mode.Mode.{Mode};
ghost use Rattle.honest_bounds.specs.Steps.{IsShown};

use crate::bearing::{is_kept, stays_in};
use dp_model::Model;
use honest_states::{Mode, Narrowed};
use honest_steps::{View, entered, inner};
use std::alloc::{AllocError, Global};

/// What is asked: that steps to inner states keep the modes, or that none undercuts the dual bound of this number.
#[derive(Clone, Copy, Debug, PartialEq, Eq)]
pub enum Asked {
    Stays,
    Bound(u32),
}

/// Whether it is shown of the steps from states of a mode, all of which the ground transition may leave.
fn is_shown_inside(
    alloc: Global,
    model: &Model,
    modes: &[Mode],
    asked: Asked,
    mode: &Mode,
    ground: u32,
) -> Result<bool, AllocError>
    ensures { IfOk result (λ shown. IsTrue shown → IsShown model.now modes.now asked mode.now ground) }
{
    match asked {
        Asked::Stays => stays_in(alloc, model, modes, mode, ground),
        Asked::Bound(place) => match model.bounds().list().get(place as usize) {
            Some(e) => is_kept(alloc, model, mode, ground, e),
            None => Ok(true),
        },
    }
}

/// Whether it is shown of the steps of a mode by a ground transition.
fn is_shown(
    alloc: Global,
    model: &Model,
    forced: &[u32],
    modes: &[Mode],
    asked: Asked,
    mode: &Mode,
    ground: u32,
) -> Result<bool, AllocError>
    ensures { IfOk result (λ shown. IsTrue shown → IsShown model.now modes.now asked mode.now ground) }
{
    match entered(alloc, model, forced, mode, ground)? {
        Narrowed::Never => Ok(true),
        Narrowed::To(inside) => is_shown_inside(alloc, model, modes, asked, &inside, ground),
    }
}

/// Whether it is shown of all steps of a mode.
fn is_shown_by_all(
    alloc: Global,
    model: &Model,
    forced: &[u32],
    modes: &[Mode],
    asked: Asked,
    mode: &Mode,
) -> Result<bool, AllocError>
    ensures { IfOk result (λ shown. IsTrue shown → (g : ℕ) → g < length model.now.dp_ground → IsShown model.now modes.now asked mode.now g) }
{
    for place in 0..model.ground().list().len() {
        let Ok(ground) = u32::try_from(place) else {
            return Ok(false);
        };
        if !is_shown(alloc, model, forced, modes, asked, mode, ground)? {
            return Ok(false);
        }
    }
    Ok(true)
}

/// The same, of the inner states of a mode, which alone make steps.
fn is_shown_of(
    alloc: Global,
    model: &Model,
    forced: &[u32],
    modes: &[Mode],
    asked: Asked,
    mode: &Mode,
) -> Result<bool, AllocError>
    ensures { IfOk result (λ shown. IsTrue shown → (g : ℕ) → g < length model.now.dp_ground → IsShown model.now modes.now asked mode.now g) }
{
    match inner(alloc, model, mode, View::Here)? {
        Narrowed::Never => Ok(true),
        Narrowed::To(inside) => is_shown_by_all(alloc, model, forced, modes, asked, &inside),
    }
}

/// Whether it is shown of all steps of all modes.
pub fn is_shown_of_all(
    alloc: Global,
    model: &Model,
    forced: &[u32],
    modes: &[Mode],
    asked: Asked,
) -> Result<bool, AllocError>
    ensures { IfOk result (λ shown. IsTrue shown → (j : ℕ) (mode : Mode) (g : ℕ) → slice_get modes.now j ≡ Some mode → g < length model.now.dp_ground → IsShown model.now modes.now asked mode g) }
{
    for mode in modes {
        if !is_shown_of(alloc, model, forced, modes, asked, mode)? {
            return Ok(false);
        }
    }
    Ok(true)
}
