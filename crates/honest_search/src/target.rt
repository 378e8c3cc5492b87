//! The mode of the target state.

use crate::keys::is_point;
use dp_base::Seq;
use dp_model::{Model, PlainValue, VarKind};
use honest_states::{Known, Mode};
use poly_terms::Span;
use std::alloc::{AllocError, Global};

/// How many members an object type has.
fn count_of(model: &Model, kind: VarKind) -> u32 {
    match kind {
        VarKind::Set(object) => match model.objects().list().get(object as usize) {
            Some(of) => of.count(),
            None => 0,
        },
        _ => 0,
    }
}

/// So many members that are not in a set.
fn no_members(alloc: Global, count: u32) -> Result<Vec<Option<bool>>, AllocError> {
    let mut members = Vec::new(alloc);
    for _ in 0..count {
        members.push(Some(false))?;
    }
    Ok(members)
}

/// Which of so many members are in a set.
fn members_in(alloc: Global, set: &[u32], count: u32) -> Result<Vec<Option<bool>>, AllocError> {
    let mut members = no_members(alloc, count)?;
    for member in set {
        if let Some(held) = members.get_mut(*member as usize) {
            *held = Some(true);
        }
    }
    Ok(members)
}

/// This value alone.
fn known_of(alloc: Global, held: &PlainValue, count: u32) -> Result<Known, AllocError> {
    match held {
        PlainValue::Number(n) => Ok(Known::Number(Span {
            low: Some(*n),
            high: Some(*n),
        })),
        PlainValue::Members(set) => {
            let members = members_in(alloc, set.list(), count)?;
            Ok(Known::Members(Seq::of(members)))
        }
    }
}

/// The mode that has the target state alone.
pub fn target_mode(alloc: Global, model: &Model) -> Result<Mode, AllocError> {
    let mut known = Vec::new(alloc);
    for (variable, held) in model
        .variables()
        .list()
        .iter()
        .zip(model.target().values().list())
    {
        known.push(known_of(alloc, held, count_of(model, variable.kind()))?)?;
    }
    Ok(Mode {
        known: Seq::of(known),
    })
}

/// How many numbers and members a mode tells of.
pub fn size_of(mode: &Mode) -> u64 {
    let mut size: u64 = 1;
    for known in mode.known.list() {
        size = size.saturating_add(match known {
            Known::Number(_) => 1,
            Known::Members(members) => members.list().len() as u64,
        });
    }
    size
}

/// How many members are neither surely in nor surely out.
fn open_members(members: &[Option<bool>]) -> u64 {
    let mut open: u64 = 0;
    for member in members {
        if member.is_none() {
            open = open.saturating_add(1);
        }
    }
    open
}

/// How many numbers and members of a mode are not known.
pub fn open_in(mode: &Mode) -> u64 {
    let mut open: u64 = 0;
    for known in mode.known.list() {
        open = open.saturating_add(match known {
            Known::Number(span) => u64::from(!is_point(*span)),
            Known::Members(members) => open_members(members.list()),
        });
    }
    open
}
