//! How trees and refusals are written.

use dypdl_type::TypeEnd;
use std::alloc::{AllocError, Global};
use std::fmt::Debug;

/// A text without each place of a part.
fn without(alloc: Global, text: &str, part: &str) -> Result<String, AllocError> {
    let mut out = String::new(alloc);
    for piece in text.split(part) {
        out.push_str(piece)?;
    }
    Ok(out)
}

/// The `Debug` text of a tree, without the names of what holds its parts.
pub(crate) fn tree_shown(alloc: Global, tree: &impl Debug) -> Result<String, AllocError> {
    let text = format!(in alloc; "{tree:?}")?;
    let text = without(alloc, text.as_str(), "Boxed { inner: ")?;
    let text = without(alloc, text.as_str(), "Seq { items: ")?;
    without(alloc, text.as_str(), " }")
}

/// A refusal at an offset: `refused OFFSET NUMBER NAME`.
pub(crate) fn end_shown(alloc: Global, end: &TypeEnd) -> Result<String, AllocError> {
    match end {
        TypeEnd::UnknownName(at) => format!(in alloc; "refused {at} 30 UnknownName"),
        TypeEnd::WrongKind(at) => format!(in alloc; "refused {at} 31 WrongKind"),
        TypeEnd::WrongCount(at) => format!(in alloc; "refused {at} 32 WrongCount"),
        TypeEnd::CostPlace(at) => format!(in alloc; "refused {at} 33 CostPlace"),
        TypeEnd::Continuous(at) => format!(in alloc; "refused {at} 34 Continuous"),
        TypeEnd::BadNumber(at) => format!(in alloc; "refused {at} 42 BadNumber"),
        TypeEnd::CostForm(at) => format!(in alloc; "refused {at} 47 CostForm"),
        TypeEnd::Memory => String::from_str(alloc, "memory"),
    }
}

/// What a call answered: a tree or a refusal.
pub(crate) fn shown<T: Debug>(
    alloc: Global,
    given: &Result<T, TypeEnd>,
) -> Result<String, AllocError> {
    match given {
        Ok(tree) => tree_shown(alloc, tree),
        Err(end) => end_shown(alloc, end),
    }
}
