//! What a condition that holds adds to what is known.

ghost use Rattle.std.specs.Prelude.{◌≡◌, ℕ, ℤ, Bool, true, pos, negsuc, neg_ℤ, ◌≤ℤ◌, ◌+ℤ◌, ◌-ℤ◌, ◌*ℤ◌, slice_get, List, Some, Option, IfOk, IfSome, IsTrue};
ghost use Rattle.dp_model.specs.Evaluation.{number_held};
ghost use Rattle.dp_model.specs.declared.parts.PlainState.{PlainState};
ghost use Rattle.dp_model.specs.declared.parts.PlainValue.{PlainValue};
ghost use Rattle.poly_terms.specs.declared.terms.Term.{Term};
ghost use Rattle.poly_terms.specs.Worth.{worth, as_bit};
ghost use Rattle.poly_terms.specs.Fits.{Fits};
ghost use Rattle.poly_eval.specs.Shows.{Shows, ShowsValue};
ghost use Rattle.honest_states.specs.Modes.{is_to, is_from, is_between, is_so, is_known, is_still, in_mode, in_narrowed};
ghost use Rattle.honest_states.specs.Facts.{AreFacts};

use crate::learning::{Told, learn, nothing, turned};
use crate::mode::{Known, Mode, Narrowed, copied};
use dp_base::Seq;
use poly_eval::Symbol;
use poly_rules::{at_least_zero, span_of};
use poly_terms::{Atom, Span, Term, add_times, constant};
use std::alloc::{AllocError, Global};

/// How deep conditions within conditions are looked at.
const CONDITIONS: u32 = 4;

/// How deep sums within sums are looked at for their intervals.
const NESTED: u32 = 4;

/// How deep the rules go that show an end.
const DEPTH: u32 = 4;

/// The atom that a sum is.
fn only_atom(sum: &[Term]) -> Option<u32>
    ensures { IfSome result (λ atom. (v : ℕ → ℤ) → worth v sum.now ≡ v atom) }
{
    match sum {
        [term] => match term.atoms.list().as_slice() {
            [atom] if term.coefficient == 1 => Some(*atom),
            _ => None,
        },
        _ => None,
    }
}

/// The value of a bit, if it is settled.
fn value_of(told: &Told, atom: u32) -> Option<bool>
    ensures { IfSome result (λ value. (v : ℕ → ℤ) → AreFacts v told.now → v atom ≡ as_bit value) }
{
    for x in &told.settled {
        if x.atom == atom {
            return Some(x.value);
        }
    }
    None
}

/// The value of a bit that is an atom, if it is settled.
fn bit_value(told: &Told, bit: &[Term]) -> Option<bool>
    ensures { IfSome result (λ value. (v : ℕ → ℤ) → AreFacts v told.now → worth v bit.now ≡ as_bit value) }
{
    match only_atom(bit) {
        Some(atom) => value_of(told, atom),
        None => None,
    }
}

/// What is known of a member.
fn member_by(told: &Told, bit: &[Term], known: Option<bool>) -> Option<bool>
    ensures { (v : ℕ → ℤ) (b : Bool) → AreFacts v told.now → as_bit b ≡ worth v bit.now → is_so known b ≡ true → is_so result b ≡ true }
{
    match known {
        Some(_) => known,
        None => bit_value(told, bit),
    }
}

/// The same for a member that may have no bit.
fn member_at(told: &Told, bits: &[Seq<Term>], member: usize, known: Option<bool>) -> Option<bool>
    ensures { (v : ℕ → ℤ) (b : Bool) → AreFacts v told.now → ((p : List Term) → slice_get bits.now member ≡ Some p → as_bit b ≡ worth v p) → is_so known b ≡ true → is_so result b ≡ true }
{
    match bits.get(member) {
        Some(bit) => member_by(told, bit.list(), known),
        None => known,
    }
}

/// What is known of each member.
fn members_by(
    alloc: Global,
    told: &Told,
    bits: &[Seq<Term>],
    members: &[Option<bool>],
) -> Result<Vec<Option<bool>>, AllocError>
    ensures { IfOk result (λ more. (v : ℕ → ℤ) (held : Option PlainValue) → AreFacts v told.now → ShowsValue v (Symbol.Members bits.now) held → is_known (Known.Members members.now) held ≡ true → is_known (Known.Members more.items) held ≡ true) }
{
    let mut more = Vec::new(alloc);
    for (j, known) in members.iter().enumerate() {
        more.push(member_at(told, bits, j, *known))?;
    }
    Ok(more)
}

/// The coefficient in a sum of an atom that another sum is, or is the negative of.
fn coefficient_of(sum: &[Term], x: &[Term]) -> Option<i64> {
    let [alone] = x else {
        return None;
    };
    for term in sum {
        if term.atoms.list().as_slice() == alone.atoms.list().as_slice() {
            return term.coefficient.checked_mul(alone.coefficient);
        }
    }
    None
}

/// A sum and a multiple of another one.
fn with_times(
    alloc: Global,
    sum: &[Term],
    factor: i64,
    x: &[Term],
) -> Result<Option<Vec<Term>>, AllocError>
    ensures { IfOk result (λ answer. IfSome answer (λ p. (v : ℕ → ℤ) → worth v p.items ≡ worth v sum.now +ℤ factor *ℤ worth v x.now)) }
{
    let mut p = Vec::new(alloc);
    if add_times(&mut p, 1, sum)? && add_times(&mut p, factor, x)? {
        Ok(Some(p))
    } else {
        Ok(None)
    }
}

/// A multiple of a sum.
fn scaled_sum(alloc: Global, factor: i64, x: &[Term]) -> Result<Option<Vec<Term>>, AllocError>
    ensures { IfOk result (λ answer. IfSome answer (λ p. (v : ℕ → ℤ) → worth v p.items ≡ factor *ℤ worth v x.now)) }
{
    let mut p = Vec::new(alloc);
    if add_times(&mut p, factor, x)? {
        Ok(Some(p))
    } else {
        Ok(None)
    }
}

/// An end to try for a number, of which so many and a rest, at least `low`, are at most 0.
fn guessed(low: Option<i64>, times: i64) -> Option<i64> {
    match low?.checked_neg() {
        Some(most) => most.checked_div_euclid(times),
        None => None,
    }
}

/// What so many of a number stay below, where the number is at most an end.
fn room_of(times: i64, end: i64) -> Option<i64>
    ensures { IfSome result (λ room. room ≡ times *ℤ end +ℤ (times -ℤ pos 1)) }
{
    let most = times.checked_mul(end)?;
    let rest = times.checked_sub(1)?;
    most.checked_add(rest)
}

/// Whether a rest says that so many of a number stay below this end's next.
fn ends_at(
    alloc: Global,
    table: &[Atom],
    rest: &[Term],
    times: i64,
    end: i64,
) -> Result<bool, AllocError>
    ensures { IfOk result (λ shown. IsTrue shown → (v : ℕ → ℤ) → Fits table.now v → pos 0 ≤ℤ (worth v rest.now +ℤ (times *ℤ end +ℤ (times -ℤ pos 1)))) }
{
    let Some(room) = room_of(times, end) else {
        return Ok(false);
    };
    let constant = constant(alloc, room)?;
    match with_times(alloc, rest, 1, &constant)? {
        Some(sum) => at_least_zero(alloc, table, &sum, DEPTH),
        None => Ok(false),
    }
}

/// What a number is at most, where a sum is at most 0.
fn high_by(
    alloc: Global,
    table: &[Atom],
    sum: &[Term],
    x: &[Term],
) -> Result<Option<i64>, AllocError>
    ensures { IfOk result (λ end. (v : ℕ → ℤ) → Fits table.now v → worth v sum.now ≤ℤ pos 0 → is_to end (worth v x.now) ≡ true) }
{
    let Some(times) = coefficient_of(sum, x) else {
        return Ok(None);
    };
    if times < 1 {
        return Ok(None);
    }
    let Some(many) = scaled_sum(alloc, times, x)? else {
        return Ok(None);
    };
    let Some(rest) = with_times(alloc, sum, -1, &many)? else {
        return Ok(None);
    };
    let Some(end) = guessed(span_of(table, &rest, NESTED).low, times) else {
        return Ok(None);
    };
    if ends_at(alloc, table, &rest, times, end)? {
        Ok(Some(end))
    } else {
        Ok(None)
    }
}

fn opposite_of(n: i64) -> Option<i64>
    ensures { IfSome result (λ m. m ≡ neg_ℤ n) }
{
    n.checked_neg()
}

/// What a number is at least, where its negative is at most this.
fn turned_end(high: Option<i64>) -> Option<i64>
    ensures { (x : ℤ) (y : ℤ) → y ≡ negsuc 0 *ℤ x → is_to high y ≡ true → is_from result x ≡ true }
{
    match high {
        Some(end) => opposite_of(end),
        None => None,
    }
}

/// What a number is at least, where a sum is at most 0.
fn low_by(
    alloc: Global,
    table: &[Atom],
    sum: &[Term],
    x: &[Term],
) -> Result<Option<i64>, AllocError>
    ensures { IfOk result (λ end. (v : ℕ → ℤ) → Fits table.now v → worth v sum.now ≤ℤ pos 0 → is_from end (worth v x.now) ≡ true) }
{
    let Some(opposite) = scaled_sum(alloc, -1, x)? else {
        return Ok(None);
    };
    let end = high_by(alloc, table, sum, &opposite)?;
    Ok(turned_end(end))
}

/// The lesser of two ends.
fn lesser(a: Option<i64>, b: Option<i64>) -> Option<i64>
    ensures { (x : ℤ) → is_to a x ≡ true → is_to b x ≡ true → is_to result x ≡ true }
{
    match (a, b) {
        (None, _) => b,
        (Some(_), None) => a,
        (Some(x), Some(y)) => Some(x.min(y)),
    }
}

/// The greater of two ends.
fn greater(a: Option<i64>, b: Option<i64>) -> Option<i64>
    ensures { (x : ℤ) → is_from a x ≡ true → is_from b x ≡ true → is_from result x ≡ true }
{
    match (a, b) {
        (None, _) => b,
        (Some(_), None) => a,
        (Some(x), Some(y)) => Some(x.max(y)),
    }
}

/// What a number is at most by what is told.
fn high_of(
    alloc: Global,
    table: &[Atom],
    told: &Told,
    x: &[Term],
    high: Option<i64>,
) -> Result<Option<i64>, AllocError>
    ensures { IfOk result (λ end. (v : ℕ → ℤ) → Fits table.now v → AreFacts v told.now → is_to high (worth v x.now) ≡ true → is_to end (worth v x.now) ≡ true) }
{
    let mut end = high;
    for sum in &told.at_most_zero {
        let other = high_by(alloc, table, sum.list(), x)?;
        end = lesser(end, other);
    }
    Ok(end)
}

/// What a number is at least by what is told.
fn low_of(
    alloc: Global,
    table: &[Atom],
    told: &Told,
    x: &[Term],
    low: Option<i64>,
) -> Result<Option<i64>, AllocError>
    ensures { IfOk result (λ end. (v : ℕ → ℤ) → Fits table.now v → AreFacts v told.now → is_from low (worth v x.now) ≡ true → is_from end (worth v x.now) ≡ true) }
{
    let mut end = low;
    for sum in &told.at_most_zero {
        let other = low_by(alloc, table, sum.list(), x)?;
        end = greater(end, other);
    }
    Ok(end)
}

/// Whether no number lies between two ends.
fn is_empty(span: Span) -> bool
    ensures { IsTrue result → (x : ℤ) → is_between span x ≡ true → ⊥ }
{
    match (span.low, span.high) {
        (Some(low), Some(high)) => high < low,
        _ => false,
    }
}

/// What is known of a number by what is told.
fn number_by(
    alloc: Global,
    table: &[Atom],
    told: &Told,
    x: &[Term],
    span: Span,
) -> Result<Option<Known>, AllocError>
    ensures { IfOk result (λ answer. (v : ℕ → ℤ) (held : Option PlainValue) → Fits table.now v → AreFacts v told.now → number_held held ≡ worth v x.now → is_between span (number_held held) ≡ true → is_still answer held ≡ true) }
{
    let low = low_of(alloc, table, told, x, span.low)?;
    let high = high_of(alloc, table, told, x, span.high)?;
    let narrower = Span { low, high };
    if is_empty(narrower) {
        Ok(None)
    } else {
        Ok(Some(Known::Number(narrower)))
    }
}

/// What is known of a variable by what is told. `None` says that it can hold nothing.
fn known_by(
    alloc: Global,
    table: &[Atom],
    told: &Told,
    symbol: &Symbol,
    known: &Known,
) -> Result<Option<Known>, AllocError>
    ensures { IfOk result (λ answer. (v : ℕ → ℤ) (held : Option PlainValue) → Fits table.now v → AreFacts v told.now → ShowsValue v symbol.now held → is_known known.now held ≡ true → is_still answer held ≡ true) }
{
    match (symbol, known) {
        (Symbol::Number(x), Known::Number(span)) => {
            number_by(alloc, table, told, x.list(), *span)
        }
        (Symbol::Members(bits), Known::Members(members)) => {
            let more = members_by(alloc, told, bits.list(), members.list())?;
            Ok(Some(Known::Members(Seq::of(more))))
        }
        _ => Ok(Some(copied(alloc, known)?)),
    }
}

/// The same for a variable that may have no symbol.
fn known_at(
    alloc: Global,
    table: &[Atom],
    told: &Told,
    symbols: &[Symbol],
    place: usize,
    known: &Known,
) -> Result<Option<Known>, AllocError>
    ensures { IfOk result (λ answer. (v : ℕ → ℤ) (s : PlainState) → Fits table.now v → AreFacts v told.now → Shows v symbols.now s → is_known known.now (slice_get s.values place) ≡ true → is_still answer (slice_get s.values place) ≡ true) }
{
    match symbols.get(place) {
        Some(symbol) => known_by(alloc, table, told, symbol, known),
        None => Ok(Some(copied(alloc, known)?)),
    }
}

/// A mode with what is told.
fn mode_by(
    alloc: Global,
    table: &[Atom],
    told: &Told,
    symbols: &[Symbol],
    mode: &Mode,
) -> Result<Narrowed, AllocError>
    ensures { IfOk result (λ answer. (v : ℕ → ℤ) (s : PlainState) → Fits table.now v → AreFacts v told.now → Shows v symbols.now s → in_mode mode.now s ≡ true → in_narrowed answer s ≡ true) }
{
    let mut more = Vec::new(alloc);
    for (i, known) in mode.known.list().iter().enumerate() {
        match known_at(alloc, table, told, symbols, i, known)? {
            Some(still) => more.push(still)?,
            None => return Ok(Narrowed::Never),
        }
    }
    Ok(Narrowed::To(Mode {
        known: Seq::of(more),
    }))
}

/// What is known of the states of a mode in which a condition holds: the condition is given as a bit, over the symbols
/// that show the states. Bits that it settles become known, and the ends of numbers that a comparison bounds.
pub fn narrowed(
    alloc: Global,
    table: &[Atom],
    symbols: &[Symbol],
    mode: &Mode,
    condition: &[Term],
) -> Result<Narrowed, AllocError>
    ensures { IfOk result (λ answer. (v : ℕ → ℤ) (s : PlainState) → Fits table.now v → Shows v symbols.now s → worth v condition.now ≡ pos 1 → in_mode mode.now s ≡ true → in_narrowed answer s ≡ true) }
{
    let mut told = nothing(alloc);
    match turned(alloc, condition)? {
        Some(sum) => {
            if !learn(alloc, table, &mut told, &sum, CONDITIONS)? {
                return Ok(Narrowed::Never);
            }
            mode_by(alloc, table, &told, symbols, mode)
        }
        None => mode_by(alloc, table, &told, symbols, mode),
    }
}
