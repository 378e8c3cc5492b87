//! Cases of `read_expr`: an expression's tree, or its refusal with its offset.

ghost use Rattle.std.specs.Prelude.{◌≤◌, length};

use case_files::escaped;
use dp_base::Text;
use dypdl_expr::{Expr, ExprEnd, read_expr};
use std::alloc::{AllocError, Global};

/// How many levels are shown: more than an expression can have.
const LEVELS: u32 = 300;

/// The expression of a text, or what it is refused for.
pub(crate) fn answer(alloc: Global, bytes: &[u8]) -> Result<String, AllocError>
    requires { length bytes.now ≤ 16777216 }
{
    match str::from_utf8(bytes) {
        Ok(text) => of_text(alloc, text),
        Err(_) => format!(in alloc; "no text"),
    }
}

fn of_text(alloc: Global, text: &str) -> Result<String, AllocError>
    requires { length text.now ≤ 16777216 }
{
    match read_expr(alloc, text) {
        Ok(expression) => shown(alloc, &expression, LEVELS),
        Err(end) => end_shown(alloc, end),
    }
}

/// An offset and `:word`, `(item item)` or `|form|`.
#[cycle(forms)]
fn shown(alloc: Global, expression: &Expr, levels: u32) -> Result<String, AllocError> {
    if levels == 0 {
        return format!(in alloc; "too deep");
    }
    match expression {
        Expr::Word(at, text) => word(alloc, *at, text),
        Expr::Bars(at, inner) => {
            let inner = shown(alloc, inner.get(), levels - 1)?;
            format!(in alloc; "{at}|{inner}|")
        }
        Expr::List(at, items) => list(alloc, *at, items.list(), levels - 1),
    }
}

fn word(alloc: Global, at: u32, text: &Text) -> Result<String, AllocError> {
    let text = escaped(alloc, text.as_text().as_bytes())?;
    format!(in alloc; "{at}:{text}")
}

#[cycle(forms)]
fn list(alloc: Global, at: u32, items: &[Expr], levels: u32) -> Result<String, AllocError> {
    let mut out = format!(in alloc; "{at}(")?;
    for (index, item) in items.iter().enumerate() {
        let item = shown(alloc, item, levels)?;
        out.push_str(if index > 0 { " " } else { "" })?;
        out.push_str(item.as_str())?;
    }
    out.push(')')?;
    Ok(out)
}

/// A refusal at an offset: `refused OFFSET NUMBER NAME`.
fn end_shown(alloc: Global, end: ExprEnd) -> Result<String, AllocError> {
    match end {
        ExprEnd::BadToken(at) => format!(in alloc; "refused {at} 20 BadToken"),
        ExprEnd::Unbalanced(at) => format!(in alloc; "refused {at} 21 Unbalanced"),
        ExprEnd::Empty(at) => format!(in alloc; "refused {at} 22 Empty"),
        ExprEnd::Rest(at) => format!(in alloc; "refused {at} 23 Rest"),
        ExprEnd::TooNested(at) => format!(in alloc; "refused {at} 24 TooNested"),
        ExprEnd::Memory => format!(in alloc; "memory"),
    }
}
