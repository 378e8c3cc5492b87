//! Expressions that leave the variables with kept preferences out: their values rest on all else alone.

ghost use Rattle.std.specs.Prelude.{◌≡◌, map};
ghost use Rattle.honest_preferences.specs.Leaving.{all_leave, is_kept, leaves_arg, leaves_cond, leaves_num, leaves_set, over_leaves};

use dp_base::Seq;
use dp_model::{Arg, Cond, Num, Over, SetEx};

/// Whether the preference of this variable is kept.
pub fn is_kept(kept: &[bool], v: u32) -> bool
    ensures { result ≡ is_kept kept.now v }
{
    match kept.get(v as usize) {
        Some(keeps) => *keeps,
        None => false,
    }
}

/// Whether what a parameter ranges over leaves them out.
pub fn over_leaves(kept: &[bool], over: Over) -> bool
    ensures { result ≡ over_leaves kept.now over }
{
    match over {
        Over::Object(_) => true,
        Over::Members(v) => !is_kept(kept, v),
    }
}

/// Whether a number expression leaves them out.
#[cycle(leaving)]
pub fn leaves_num(kept: &[bool], e: &Num) -> bool
    ensures { result ≡ leaves_num kept.now e.now }
{
    match e {
        Num::Fixed(_) => true,
        Num::Var(v) => !is_kept(kept, *v),
        Num::Param(_) => true,
        Num::Cell(_, ns) => leaves_nums(kept, ns),
        Num::Sum(_, terms) => leaves_args(kept, terms),
        Num::Size(a) => leaves_set(kept, a.get()),
        Num::Op(_, a, b) => leaves_num(kept, a.get()) && leaves_num(kept, b.get()),
        Num::If(c, a, b) => {
            leaves_cond(kept, c.get()) && (leaves_num(kept, a.get()) && leaves_num(kept, b.get()))
        }
    }
}

/// Whether each of some number expressions leaves them out.
#[cycle(leaving)]
pub fn leaves_nums(kept: &[bool], ns: &Seq<Num>) -> bool
    ensures { result ≡ all_leave (map (leaves_num kept.now) ns.now) }
{
    for n in ns.list() {
        if !leaves_num(kept, n) {
            return false;
        }
    }
    true
}

/// Whether each of the arguments of a `sum` leaves them out.
#[cycle(leaving)]
pub fn leaves_args(kept: &[bool], terms: &Seq<Arg>) -> bool
    ensures { result ≡ all_leave (map (leaves_arg kept.now) terms.now) }
{
    for e in terms.list() {
        if !leaves_arg(kept, e) {
            return false;
        }
    }
    true
}

/// Whether an argument of a `sum` leaves them out.
#[cycle(leaving)]
fn leaves_arg(kept: &[bool], e: &Arg) -> bool
    ensures { result ≡ leaves_arg kept.now e.now }
{
    match e {
        Arg::One(n) => leaves_num(kept, n),
        Arg::Many(a) => leaves_set(kept, a),
    }
}

/// Whether a set expression leaves them out.
#[cycle(leaving)]
pub fn leaves_set(kept: &[bool], e: &SetEx) -> bool
    ensures { result ≡ leaves_set kept.now e.now }
{
    match e {
        SetEx::Var(v) => !is_kept(kept, *v),
        SetEx::Cell(_, ns) => leaves_nums(kept, ns),
        SetEx::Op(_, a, b) => leaves_set(kept, a.get()) && leaves_set(kept, b.get()),
        SetEx::Not(a) => leaves_set(kept, a.get()),
        SetEx::With(n, a) => leaves_num(kept, n.get()) && leaves_set(kept, a.get()),
        SetEx::Without(n, a) => leaves_num(kept, n.get()) && leaves_set(kept, a.get()),
        SetEx::If(c, a, b) => {
            leaves_cond(kept, c.get()) && (leaves_set(kept, a.get()) && leaves_set(kept, b.get()))
        }
    }
}

/// Whether a condition leaves them out.
#[cycle(leaving)]
pub fn leaves_cond(kept: &[bool], e: &Cond) -> bool
    ensures { result ≡ leaves_cond kept.now e.now }
{
    match e {
        Cond::Fixed(_) => true,
        Cond::Cell(_, ns) => leaves_nums(kept, ns),
        Cond::Numbers(_, a, b) => leaves_num(kept, a) && leaves_num(kept, b),
        Cond::SameSet(a, b) => leaves_set(kept, a) && leaves_set(kept, b),
        Cond::OtherSet(a, b) => leaves_set(kept, a) && leaves_set(kept, b),
        Cond::IsIn(n, a) => leaves_num(kept, n) && leaves_set(kept, a),
        Cond::Subset(a, b) => leaves_set(kept, a) && leaves_set(kept, b),
        Cond::Empty(a) => leaves_set(kept, a),
        Cond::Not(c) => leaves_cond(kept, c.get()),
        Cond::And(a, b) => leaves_cond(kept, a.get()) && leaves_cond(kept, b.get()),
        Cond::Or(a, b) => leaves_cond(kept, a.get()) && leaves_cond(kept, b.get()),
        Cond::If(c, a, b) => {
            leaves_cond(kept, c.get()) && (leaves_cond(kept, a.get()) && leaves_cond(kept, b.get()))
        }
        Cond::All(over, c) => over_leaves(kept, *over) && leaves_cond(kept, c.get()),
    }
}
