//! Reads the expression that a text is.

ghost use Rattle.std.specs.Prelude.{◌≡◌, ◌≤◌, ℕ, List, [], length, IfOk, IfErr, MatchResult};
ghost use Rattle.dypdl_expr.specs.Grammar.{IsWord, First, ListBody, BarsBody, Begins, Reads};
ghost use Rattle.dypdl_expr.specs.Refusals.{IsBadWord, FirstFails, ListFails, BarsFails, Fails, WholeFails, Refused, MemoryOr};
ghost use Rattle.dypdl_expr.specs.declared.expr.Expr.{Expr};
ghost use Rattle.dypdl_expr.specs.declared.expr.ExprEnd.{ExprEnd};
ghost use Rattle.dypdl_expr.specs.Rows.{RowEnds, RowFails};
ghost use Rattle.dypdl_expr.specs.Lexemes.{followed_by, after_expression, inside_all};

use crate::expr::{Expr, ExprEnd};
use crate::tokens::{Lexeme, Tokens, has_control};
use dp_base::{Boxed, Seq, Text};
use std::alloc::Global;

/// How many forms may stand inside one another.
const LEVELS: u32 = 200;

fn word(alloc: Global, at: u32, text: &str) -> Result<Expr, ExprEnd>
    ensures read { IfOk result (λ e. IsWord at text.now e) }
    ensures refused { IfErr result (λ r. MemoryOr (IsBadWord at text.now) r) }
{
    if has_control(text) {
        return Err(ExprEnd::BadToken(at));
    }
    Ok(Expr::Word(at, Text::of(String::from_str(alloc, text)?)))
}

fn after_expression(outer: u32, token: Lexeme<'_>) -> ExprEnd
    ensures { result ≡ after_expression outer token.entry }
{
    match token {
        Lexeme::End => ExprEnd::Unbalanced(outer),
        Lexeme::Close(at) => ExprEnd::Unbalanced(at),
        Lexeme::Word(at, text) if has_control(text) => ExprEnd::BadToken(at),
        Lexeme::Open(at) | Lexeme::Bar(at) | Lexeme::Word(at, _) => ExprEnd::Rest(at),
    }
}

fn inside_all(outer: u32, token: Lexeme<'_>) -> ExprEnd
    ensures { result ≡ inside_all outer token.entry }
{
    match token {
        Lexeme::End => ExprEnd::Unbalanced(outer),
        Lexeme::Close(at) => ExprEnd::Unbalanced(at),
        Lexeme::Word(at, text) if has_control(text) => ExprEnd::BadToken(at),
        Lexeme::Open(at) | Lexeme::Bar(at) | Lexeme::Word(at, _) => ExprEnd::TooNested(at),
    }
}

/// The expression that begins with a token. `outer` is where the outermost form begins, and `levels` how many
/// levels the expression may have.
#[cycle(form)]
fn form(
    alloc: Global,
    tokens: &mut Tokens<'_>,
    outer: u32,
    levels: u32,
    token: Lexeme<'_>,
) -> Result<Expr, ExprEnd>
    ensures read { IfOk result
        (λ e. Begins levels (followed_by token.entry tokens.old) e tokens.new) }
    ensures refused { IfErr result
        (λ r. MemoryOr (Fails outer levels (followed_by token.entry tokens.old)) r) }
{
    if levels == 0 {
        return Err(inside_all(outer, token));
    }
    match token {
        Lexeme::End => Err(ExprEnd::Unbalanced(outer)),
        Lexeme::Close(at) => Err(ExprEnd::Unbalanced(at)),
        Lexeme::Word(at, text) => word(alloc, at, text),
        Lexeme::Open(at) => list(alloc, tokens, outer, levels - 1, at),
        Lexeme::Bar(at) => bars(alloc, tokens, outer, levels - 1, at),
    }
}

/// The list whose `(` stands at an offset.
#[cycle(form)]
fn list(
    alloc: Global,
    tokens: &mut Tokens<'_>,
    outer: u32,
    levels: u32,
    at: u32,
) -> Result<Expr, ExprEnd>
    ensures read { IfOk result (λ e. ListBody (Begins levels) at tokens.old e tokens.new) }
    ensures refused { IfErr result
        (λ r. MemoryOr (ListFails (Begins levels) (Fails outer levels) at tokens.old) r) }
{
    let head = first(alloc, tokens, outer, levels, at)?;
    let items = row(alloc, tokens, outer, levels, head)?;
    Ok(Expr::List(at, items))
}

/// The first item of the list whose `(` stands at an offset.
#[cycle(form)]
fn first(
    alloc: Global,
    tokens: &mut Tokens<'_>,
    outer: u32,
    levels: u32,
    at: u32,
) -> Result<Expr, ExprEnd>
    ensures read { IfOk result (λ e. First (Begins levels) tokens.old e tokens.new) }
    ensures refused { IfErr result
        (λ r. MemoryOr (FirstFails (Fails outer levels) at tokens.old) r) }
{
    let token = tokens.next();
    match token {
        Lexeme::Close(_) => Err(ExprEnd::Empty(at)),
        Lexeme::Word(begin, text) => word(alloc, begin, text),
        Lexeme::End | Lexeme::Open(_) | Lexeme::Bar(_) => form(alloc, tokens, outer, levels, token),
    }
}

/// All items of a list, up to its `)`, where `head` is the first and was read.
#[cycle(form)]
fn row(
    alloc: Global,
    tokens: &mut Tokens<'_>,
    outer: u32,
    levels: u32,
    head: Expr,
) -> Result<Seq<Expr>, ExprEnd>
    ensures read { IfOk result (λ items. RowEnds (Begins levels) head tokens.old items tokens.new) }
    ensures refused { IfErr result
        (λ r. MemoryOr (RowFails (Begins levels) (Fails outer levels) tokens.old) r) }
{
    let mut items = Vec::new(alloc);
    items.push(head)?;
    loop {
        let token = tokens.next();
        if let Lexeme::Close(_) = token {
            return Ok(Seq::of(items));
        }
        let item = form(alloc, tokens, outer, levels, token)?;
        items.push(item)?;
    }
}

/// The bars whose first `|` stands at an offset.
#[cycle(form)]
fn bars(
    alloc: Global,
    tokens: &mut Tokens<'_>,
    outer: u32,
    levels: u32,
    at: u32,
) -> Result<Expr, ExprEnd>
    ensures read { IfOk result (λ e. BarsBody (Begins levels) at tokens.old e tokens.new) }
    ensures refused { IfErr result
        (λ r. MemoryOr (BarsFails outer (Begins levels) (Fails outer levels) at tokens.old) r) }
{
    let token = tokens.next();
    if let Lexeme::Bar(_) = token {
        return Err(ExprEnd::Empty(at));
    }
    let inner = form(alloc, tokens, outer, levels, token)?;
    let end = tokens.next();
    if let Lexeme::Bar(_) = end {
        Ok(Expr::Bars(at, Boxed::new(alloc, inner)?))
    } else {
        Err(after_expression(outer, end))
    }
}

/// The one expression that all the tokens are, of at most so many levels.
fn whole(alloc: Global, tokens: &mut Tokens<'_>, levels: u32) -> Result<Expr, ExprEnd>
    ensures read { IfOk result (λ e. Begins levels tokens.old e []) }
    ensures refused { IfErr result (λ r. MemoryOr (WholeFails levels tokens.old) r) }
{
    let token = tokens.next();
    let outer = match token {
        Lexeme::End => return Err(ExprEnd::Empty(0)),
        Lexeme::Open(at) | Lexeme::Close(at) | Lexeme::Bar(at) | Lexeme::Word(at, _) => at,
    };
    let e = form(alloc, tokens, outer, levels, token)?;
    match tokens.next() {
        Lexeme::End => Ok(e),
        next => Err(after_expression(outer, next)),
    }
}

/// The expression that a text is, with the offset of each form in bytes, or what is refused first.
pub fn read_expr(alloc: Global, text: &str) -> Result<Expr, ExprEnd>
    requires { length text.now ≤ 16777216 }
    // What is read stands in the text.
    ensures read { IfOk result (λ e. Reads text.now e) }
    // A text that is an expression is read as it, unless memory runs out.
    ensures every { (e : Expr) → Reads text.now e
        → MatchResult result (λ found. found ≡ e) (λ r. r ≡ ExprEnd.Memory) }
    // A refusal is the text's first one.
    ensures refused { IfErr result (λ r. MemoryOr (Refused text.now) r) }
    // A text that has a refusal is refused so, unless memory runs out.
    ensures every_refusal { (r : ExprEnd) → Refused text.now r
        → MatchResult result (λ _. ⊥) (λ found. MemoryOr (λ first. first ≡ r) found) }
{
    whole(alloc, &mut Tokens::of(text), LEVELS)
}
