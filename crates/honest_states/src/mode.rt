//! What is known of the variables of a state, and whether a state is so.

ghost use Rattle.std.specs.Prelude.{◌≡◌, true, Some, Option, IfOk, IsTrue};
ghost use Rattle.dp_model.specs.declared.parts.PlainValue.{PlainValue};
ghost use Rattle.dp_model.specs.Evaluation.{has};
ghost use Rattle.honest_states.specs.Modes.{is_from, is_to, is_between, is_so, are_so, is_known, in_mode, in_some};

use dp_base::Seq;
use dp_model::{PlainState, PlainValue};
use poly_terms::Span;
use std::alloc::{AllocError, Global};

/// What is known of a variable: where its number lies, or of each member of its object type whether it is in its set.
/// A member of which nothing is known is `None`.
#[derive(Debug, Drop)]
pub enum Known {
    Number(Span),
    Members(Seq<Option<bool>>),
}

/// What is known of each variable of a state, in order.
#[derive(Debug, Drop)]
pub struct Mode {
    pub known: Seq<Known>,
}

/// A mode where more is known, or that no state is left in it.
#[derive(Debug, Drop)]
pub enum Narrowed {
    Never,
    To(Mode),
}

/// The same once more.
pub fn copied(alloc: Global, known: &Known) -> Result<Known, AllocError>
    ensures { IfOk result (λ same. (held : Option PlainValue) → is_known known.now held ≡ true → is_known same held ≡ true) }
{
    match known {
        Known::Number(span) => Ok(Known::Number(*span)),
        Known::Members(members) => {
            let same = copied_members(alloc, members.list())?;
            Ok(Known::Members(Seq::of(same)))
        }
    }
}

fn copied_members(alloc: Global, members: &[Option<bool>]) -> Result<Vec<Option<bool>>, AllocError>
    ensures { IfOk result (λ same. same.items ≡ members.now) }
{
    let mut same = Vec::new(alloc);
    for known in members {
        same.push(*known)?;
    }
    Ok(same)
}

fn is_from(low: Option<i64>, x: i64) -> bool
    ensures { result ≡ is_from low x }
{
    match low {
        Some(low) => low <= x,
        None => true,
    }
}

fn is_to(high: Option<i64>, x: i64) -> bool
    ensures { result ≡ is_to high x }
{
    match high {
        Some(high) => x <= high,
        None => true,
    }
}

/// Whether a number lies between the ends.
fn is_between(span: Span, x: i64) -> bool
    ensures { result ≡ is_between span x }
{
    is_from(span.low, x) && is_to(span.high, x)
}

/// Whether a member is in a set.
fn has_member(set: &[u32], member: usize) -> bool
    ensures { result ≡ has set.now member }
{
    set.iter().any(|x| member == *x as usize)
}

/// Whether a member is in a set or not as is known.
fn is_so(known: Option<bool>, held: bool) -> bool
    ensures { result ≡ is_so known held }
{
    match known {
        Some(true) => held,
        Some(false) => !held,
        None => true,
    }
}

/// Whether a set is as is known of its members.
fn are_so(members: &[Option<bool>], set: &[u32]) -> bool
    ensures { IsTrue result → are_so members.now 0 set.now ≡ true }
{
    for (j, known) in members.iter().enumerate() {
        if !is_so(*known, has_member(set, j)) {
            return false;
        }
    }
    true
}

/// Whether a value is as is known.
fn is_known(known: &Known, held: &PlainValue) -> bool
    ensures { IsTrue result → is_known known.now (Some held.now) ≡ true }
{
    match (known, held) {
        (Known::Number(span), PlainValue::Number(n)) => is_between(*span, *n),
        (Known::Members(members), PlainValue::Members(set)) => {
            are_so(members.list(), set.list())
        }
        _ => false,
    }
}

/// Whether a state is in a mode.
pub fn is_in(mode: &Mode, s: &PlainState) -> bool
    ensures { IsTrue result → in_mode mode.now s.now ≡ true }
{
    for (i, known) in mode.known.list().iter().enumerate() {
        match s.values().list().get(i) {
            Some(held) => {
                if !is_known(known, held) {
                    return false;
                }
            }
            None => return false,
        }
    }
    true
}

/// Whether a state is in one of several modes.
pub fn is_in_some(modes: &[Mode], s: &PlainState) -> bool
    ensures { IsTrue result → in_some modes.now s.now ≡ true }
{
    for mode in modes {
        if is_in(mode, s) {
            return true;
        }
    }
    false
}
