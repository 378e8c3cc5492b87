//! What is learned from a sum that is at most 0: bits whose values are settled, and further sums that are at most 0.

ghost use Rattle.std.specs.Prelude.{◌≡◌, ℕ, ℤ, Bool, pos, negsuc, ◌≤ℤ◌, ◌+ℤ◌, ◌*ℤ◌, int_le, IfOk, IfSome, IsTrue, OnOk};
ghost use Rattle.poly_terms.specs.Worth.{worth, as_bit};
ghost use Rattle.poly_terms.specs.Spans.{Within};
ghost use Rattle.poly_terms.specs.Fits.{Fits};
ghost use Rattle.honest_states.specs.Facts.{AreFacts};

use crate::absorbing::absorbed;
use dp_base::Seq;
use poly_rules::span_of;
use poly_terms::{Atom, Span, Term, add_times, constant, is_bit, with_bit};
use std::alloc::{AllocError, Global};

/// How deep sums within sums are looked at for their intervals.
const NESTED: u32 = 4;

/// The longest sum whose bits are tried one by one.
const LONGEST: usize = 400;

/// A bit whose value is known.
#[derive(Clone, Copy, Debug, PartialEq, Eq)]
pub struct Settled {
    pub atom: u32,
    pub value: bool,
}

/// What is known of atoms: bits with their values, and sums that are at most 0.
#[derive(Debug, Drop)]
pub struct Told {
    pub settled: Vec<Settled>,
    pub at_most_zero: Vec<Seq<Term>>,
}

/// Nothing is known.
pub fn nothing(alloc: Global) -> Told
    ensures { (v : ℕ → ℤ) → AreFacts v result }
{
    Told {
        settled: Vec::new(alloc),
        at_most_zero: Vec::new(alloc),
    }
}

/// Whether a number is at least 1.
fn above_zero(span: Span) -> bool
    ensures { IsTrue result → (x : ℤ) → Within span x → x ≤ℤ pos 0 → ⊥ }
{
    match span.low {
        Some(low) => low >= 1,
        None => false,
    }
}

/// One less a sum.
pub fn turned(alloc: Global, sum: &[Term]) -> Result<Option<Vec<Term>>, AllocError>
    ensures { IfOk result (λ answer. IfSome answer (λ p. (v : ℕ → ℤ) → worth v p.items ≡ pos 1 +ℤ negsuc 0 *ℤ worth v sum.now)) }
{
    let mut less = constant(alloc, 1)?;
    if add_times(&mut less, -1, sum)? {
        Ok(Some(less))
    } else {
        Ok(None)
    }
}

/// Whether a sum is above 0: by its interval, or by that of a sum that is no greater.
fn is_above_zero(alloc: Global, table: &[Atom], sum: &[Term]) -> Result<bool, AllocError>
    ensures { IfOk result (λ shown. IsTrue shown → (v : ℕ → ℤ) → Fits table.now v → worth v sum.now ≤ℤ pos 0 → ⊥) }
{
    if above_zero(span_of(table, sum, NESTED)) {
        return Ok(true);
    }
    match absorbed(alloc, table, sum)? {
        Some(less) => Ok(above_zero(span_of(table, &less, NESTED))),
        None => Ok(false),
    }
}

/// Whether a sum is above 0 where a bit has this value.
fn is_barred(
    alloc: Global,
    table: &[Atom],
    sum: &[Term],
    atom: u32,
    value: bool,
) -> Result<bool, AllocError>
    ensures { IfOk result (λ barred. IsTrue barred → (v : ℕ → ℤ) → Fits table.now v → worth v sum.now ≤ℤ pos 0 → v atom ≡ as_bit value → ⊥) }
{
    match with_bit(alloc, sum, atom, value)? {
        Some(rest) => is_above_zero(alloc, table, &rest),
        None => Ok(false),
    }
}

/// The value of a bit where a sum is at most 0: with the other one it would be above 0.
fn settled_value(
    alloc: Global,
    table: &[Atom],
    sum: &[Term],
    atom: u32,
) -> Result<Option<bool>, AllocError>
    ensures { IfOk result (λ answer. IfSome answer (λ value. (v : ℕ → ℤ) → Fits table.now v → worth v sum.now ≤ℤ pos 0 → v atom ≡ as_bit value)) }
{
    if !is_bit(table, atom) {
        return Ok(None);
    }
    if is_barred(alloc, table, sum, atom, false)? {
        return Ok(Some(true));
    }
    if is_barred(alloc, table, sum, atom, true)? {
        return Ok(Some(false));
    }
    Ok(None)
}

/// Adds those of these atoms that are bits.
fn add_bits(table: &[Atom], bits: &mut Vec<u32>, atoms: &[u32]) -> Result<(), AllocError> {
    for atom in atoms {
        if is_bit(table, *atom) && !bits.contains(atom) {
            bits.push(*atom)?;
        }
    }
    Ok(())
}

/// The bits of a sum that is not too long.
fn bits_in(alloc: Global, table: &[Atom], sum: &[Term]) -> Result<Vec<u32>, AllocError> {
    let mut bits = Vec::new(alloc);
    if sum.len() <= LONGEST {
        for term in sum {
            add_bits(table, &mut bits, term.atoms.list())?;
        }
    }
    Ok(bits)
}

/// Whether a bit is settled already.
fn has_settled(told: &Told, atom: u32) -> bool {
    told.settled.iter().any(|x| x.atom == atom)
}

/// Notes the value of a bit.
fn note_bit(told: &mut Told, atom: u32, value: bool) -> Result<(), AllocError>
    ensures { OnOk result ((v : ℕ → ℤ) → v atom ≡ as_bit value → AreFacts v told.old → AreFacts v told.new) }
{
    told.settled.push(Settled { atom, value })?;
    Ok(())
}

/// Notes a sum that is at most 0.
fn note_sum(alloc: Global, told: &mut Told, sum: &[Term]) -> Result<(), AllocError>
    ensures { OnOk result ((v : ℕ → ℤ) → worth v sum.now ≤ℤ pos 0 → AreFacts v told.old → AreFacts v told.new) }
{
    let mut same = Vec::new(alloc);
    if add_times(&mut same, 1, sum)? {
        told.at_most_zero.push(Seq::of(same))?;
    }
    Ok(())
}

/// Learns from a sum that is at most 0. `false` says that it cannot be so.
#[cycle(learning)]
pub fn learn(
    alloc: Global,
    table: &[Atom],
    told: &mut Told,
    sum: &[Term],
    depth: u32,
) -> Result<bool, AllocError>
    ensures { IfOk result (λ possible. (v : ℕ → ℤ) → Fits table.now v → worth v sum.now ≤ℤ pos 0 → AreFacts v told.old → IsTrue possible × AreFacts v told.new) }
{
    if above_zero(span_of(table, sum, NESTED)) {
        return Ok(false);
    }
    note_sum(alloc, told, sum)?;
    let bits = bits_in(alloc, table, sum)?;
    for atom in &bits {
        if !learn_bit(alloc, table, told, sum, *atom, depth)? {
            return Ok(false);
        }
    }
    Ok(true)
}

/// Learns the value of a bit from a sum that is at most 0, and what follows where the bit stands for a comparison.
#[cycle(learning)]
fn learn_bit(
    alloc: Global,
    table: &[Atom],
    told: &mut Told,
    sum: &[Term],
    atom: u32,
    depth: u32,
) -> Result<bool, AllocError>
    ensures { IfOk result (λ possible. (v : ℕ → ℤ) → Fits table.now v → worth v sum.now ≤ℤ pos 0 → AreFacts v told.old → IsTrue possible × AreFacts v told.new) }
{
    if has_settled(told, atom) {
        return Ok(true);
    }
    let Some(value) = settled_value(alloc, table, sum, atom)? else {
        return Ok(true);
    };
    note_bit(told, atom, value)?;
    if depth == 0 {
        return Ok(true);
    }
    match table.get(atom as usize) {
        Some(Atom::AtMostZero(inner)) => {
            learn_truth(alloc, table, told, inner.list(), value, depth - 1)
        }
        _ => Ok(true),
    }
}

/// Learns from a comparison: whether a sum is at most 0.
#[cycle(learning)]
fn learn_truth(
    alloc: Global,
    table: &[Atom],
    told: &mut Told,
    sum: &[Term],
    held: bool,
    depth: u32,
) -> Result<bool, AllocError>
    ensures { IfOk result (λ possible. (v : ℕ → ℤ) → Fits table.now v → int_le (worth v sum.now) (pos 0) ≡ held → AreFacts v told.old → IsTrue possible × AreFacts v told.new) }
{
    if held {
        return learn(alloc, table, told, sum, depth);
    }
    match turned(alloc, sum)? {
        Some(less) => learn(alloc, table, told, &less, depth),
        None => Ok(true),
    }
}
