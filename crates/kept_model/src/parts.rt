//! The parts of a model that are kept or not, in the order in which they are told.

ghost use Rattle.std.specs.Prelude.{◌≡◌, ◌++◌, drop, IfOk, OnOk};
ghost use Rattle.kept_model.specs.Parts.{bounds_from, kept_first, parts_of, preference_of, preferences_in};
ghost use Rattle.dp_model.specs.Typing.{is_without};

use crate::kept::Kept;
use dp_base::Text;
use dp_model::{Model, Num, Preference, Variable};
use std::alloc::{AllocError, Global};

/// What a part of a model is.
#[derive(Debug, Drop)]
pub enum PartName {
    /// A dual bound, by its number from 1 on.
    Bound(u64),
    /// The preference of a variable, by the variable's name.
    Preference(Text),
}

/// A dual bound or a preference of a model, and whether it is kept.
#[derive(Debug, Drop)]
pub struct Part {
    pub name: PartName,
    pub kept: bool,
}

/// Whether the first of some choices keeps; where there is none, nothing is kept.
fn kept_first(choice: &[bool]) -> bool
    ensures { result ≡ kept_first choice.now }
{
    match choice.first() {
        Some(keeps) => *keeps,
        None => false,
    }
}

/// The choices behind the first one.
fn kept_behind(choice: &[bool]) -> &[bool]
    ensures { result.now ≡ drop 1 choice.now }
{
    match choice.split_first() {
        Some((_, more)) => more,
        None => choice,
    }
}

fn is_without(preference: Preference) -> bool
    ensures { result ≡ is_without preference }
{
    match preference {
        Preference::Without => true,
        Preference::Less | Preference::Greater => false,
    }
}

/// Puts the dual bounds behind other parts.
fn push_bounds(parts: &mut Vec<Part>, bounds: &[Num], choice: &[bool]) -> Result<(), AllocError>
    ensures { OnOk result (parts.new.items ≡ parts.old.items ++ bounds_from 1 choice.now bounds.now) }
{
    let mut left = choice;
    for (i, _bound) in bounds.iter().enumerate() {
        parts.push(Part {
            name: PartName::Bound(i as u64 + 1),
            kept: kept_first(left),
        })?;
        left = kept_behind(left);
    }
    Ok(())
}

/// Puts the preference of a variable behind other parts, if it has one.
fn push_preference(
    alloc: Global,
    parts: &mut Vec<Part>,
    variable: &Variable,
    kept: bool,
) -> Result<(), AllocError>
    ensures { OnOk result (parts.new.items ≡ parts.old.items ++ preference_of variable.now kept) }
{
    if is_without(variable.preference) {
        return Ok(());
    }
    let name = String::from_str(alloc, variable.name.as_text())?;
    parts.push(Part {
        name: PartName::Preference(Text::of(name)),
        kept,
    })?;
    Ok(())
}

/// Puts the preferences of variables behind other parts.
fn push_preferences(
    alloc: Global,
    parts: &mut Vec<Part>,
    variables: &[Variable],
    choice: &[bool],
) -> Result<(), AllocError>
    ensures { OnOk result (parts.new.items ≡ parts.old.items ++ preferences_in choice.now variables.now) }
{
    let mut left = choice;
    for variable in variables {
        push_preference(alloc, parts, variable, kept_first(left))?;
        left = kept_behind(left);
    }
    Ok(())
}

/// The parts of a model, each with whether it is kept: its dual bounds, and then the preferences of its variables, both in order.
pub fn parts_of(alloc: Global, model: &Model, kept: &Kept) -> Result<Vec<Part>, AllocError>
    ensures { IfOk result (λ parts. parts.items ≡ parts_of model.now kept.now) }
{
    let mut parts = Vec::new(alloc);
    push_bounds(&mut parts, model.bounds().list(), kept.bounds().list())?;
    push_preferences(
        alloc,
        &mut parts,
        model.variables().list(),
        kept.preferences().list(),
    )?;
    Ok(parts)
}
