//! Conditions that stay true where the resources of a state are better.

ghost use Rattle.std.specs.Prelude.{◌≡◌, true, IsTrue, map};
ghost use Rattle.honest_preferences.specs.Answering.{AllEase};
ghost use Rattle.honest_preferences.specs.Easing.{EasesBy};
ghost use Rattle.honest_preferences.specs.Leaving.{all_leave, leaves_cond, leaves_num};
ghost use Rattle.honest_preferences.specs.Sides.{IsNoGreater, IsNoLess};
ghost use Rattle.honest_preferences.specs.Signs.{Eases};

use crate::leaving::{leaves_cond, leaves_num, over_leaves};
use crate::signs::{Signs, is_no_greater, is_no_less};
use dp_base::Seq;
use dp_model::{Compare, Cond, Num};

/// Whether two tests both hold.
fn both(a: bool, b: bool) -> bool
    ensures { IsTrue result → IsTrue a × IsTrue b }
{
    a && b
}

/// Whether the first number is no greater where the resources are better, and the second no less.
fn moves_apart(at: &Signs<'_>, a: &Num, b: &Num) -> bool
    ensures { IsTrue result → IsNoGreater at.now.model.now at.now.kept.now at.now.ends.now a.now × IsNoLess at.now.model.now at.now.kept.now at.now.ends.now b.now }
{
    both(is_no_greater(at, a), is_no_less(at, b))
}

/// Whether both numbers leave the variables with kept preferences out.
fn both_leave(kept: &[bool], a: &Num, b: &Num) -> bool
    ensures { IsTrue result → (leaves_num kept.now a.now ≡ true) × (leaves_num kept.now b.now ≡ true) }
{
    both(leaves_num(kept, a), leaves_num(kept, b))
}

/// Whether a comparison stays true: the side that is to be less is no greater, and the other side no less.
fn eases_by(at: &Signs<'_>, op: Compare, a: &Num, b: &Num) -> bool
    ensures { IsTrue result → EasesBy at.now.model.now at.now.kept.now at.now.ends.now op a.now b.now }
{
    match op {
        Compare::Less => moves_apart(at, a, b),
        Compare::AtMost => moves_apart(at, a, b),
        Compare::More => moves_apart(at, b, a),
        Compare::AtLeast => moves_apart(at, b, a),
        Compare::Same => both_leave(at.kept, a, b),
        Compare::Other => both_leave(at.kept, a, b),
    }
}

/// Whether a condition stays true where the resources are better. What decides which part is evaluated must be the
/// same in both states.
#[cycle(easing)]
pub fn eases(at: &Signs<'_>, c: &Cond) -> bool
    ensures { IsTrue result → Eases at.now.model.now at.now.kept.now at.now.ends.now c.now }
{
    match c {
        Cond::Numbers(op, a, b) => eases_by(at, *op, a, b),
        Cond::And(a, b) => both(eases(at, a.get()), eases(at, b.get())),
        Cond::Or(a, b) => both(leaves_cond(at.kept, a.get()), eases(at, b.get())),
        Cond::If(test, a, b) => {
            let sides = both(eases(at, a.get()), eases(at, b.get()));
            both(leaves_cond(at.kept, test.get()), sides)
        }
        Cond::All(over, each) => both(over_leaves(at.kept, *over), eases(at, each.get())),
        _ => leaves_cond(at.kept, c),
    }
}

/// Whether each of some conditions stays true.
pub fn all_ease(at: &Signs<'_>, conditions: &Seq<Cond>) -> bool
    ensures { IsTrue result → AllEase at.now.model.now at.now.kept.now at.now.ends.now conditions.now }
{
    for condition in conditions.list() {
        if !eases(at, condition) {
            return false;
        }
    }
    true
}

/// Whether each of some conditions leaves the variables with kept preferences out.
pub fn all_leave(kept: &[bool], conditions: &Seq<Cond>) -> bool
    ensures { result ≡ all_leave (map (leaves_cond kept.now) conditions.now) }
{
    for condition in conditions.list() {
        if !leaves_cond(kept, condition) {
            return false;
        }
    }
    true
}
