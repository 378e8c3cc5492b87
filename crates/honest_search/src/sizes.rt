//! How large expressions are as sums of products, at most, so that a search that would take too long is not begun.

use crate::keys::is_key;
use dp_base::Seq;
use dp_model::{Arg, Cells, Cond, Model, Num, NumOp, Over, SetEx, VarKind};

/// A sum with more terms than this is not made.
const MOST_TERMS: u64 = 65_536;

/// The longest sum whose bits are tried one by one.
const BITS: u64 = 400;

/// How large an expression is: a number, a condition, or a set, which is a condition for each member.
#[derive(Clone, Copy)]
pub struct Size {
    /// How many terms are made on the way.
    pub steps: u64,
    /// How many conditions it is.
    pub many: u64,
    /// How many terms each of them has.
    pub terms: u64,
    /// How many each of them has together with the sums that its greater and lesser numbers are made of.
    pub weight: u64,
    /// How many terms are looked at where each bit of each comparison in it is tried.
    pub tries: u64,
    /// How many of its atoms the rules take apart.
    pub splits: u64,
    /// Whether it is not the same in all states of a mode.
    pub open: bool,
}

/// What expressions are measured over: a model, and how large the sums are that a number and a member of a set stand for.
#[derive(Clone, Copy)]
pub struct Scale<'a> {
    pub model: &'a Model,
    pub number: Size,
    pub member: Size,
}

/// A number that is the same in all states of a mode.
pub fn known(steps: u64) -> Size {
    Size {
        steps: steps.saturating_add(1),
        many: 1,
        terms: 1,
        weight: 1,
        tries: 0,
        splits: 0,
        open: false,
    }
}

/// A number, or a bit, that is not.
pub fn unknown() -> Size {
    let mut one = known(1);
    one.open = true;
    one
}

/// The greater of two sizes, of each of their numbers.
pub fn greater(a: Size, b: Size) -> Size {
    Size {
        steps: a.steps.max(b.steps),
        many: a.many.max(b.many),
        terms: a.terms.max(b.terms),
        weight: a.weight.max(b.weight),
        tries: a.tries.max(b.tries),
        splits: a.splits.max(b.splits),
        open: a.open || b.open,
    }
}

/// How many terms are looked at where each bit of a sum is tried: the bits of longer sums are not.
fn tried(a: Size) -> u64 {
    let bits = a.terms.min(BITS);
    bits.saturating_mul(bits.saturating_add(a.weight.min(BITS.saturating_mul(4))))
        .saturating_mul(2)
}

/// The same, with those of the comparisons in it.
pub fn all_tries(a: Size) -> u64 {
    a.tries.saturating_add(tried(a))
}

/// Two sums side by side.
pub fn added(a: Size, b: Size) -> Size {
    let many = a.many.max(b.many);
    let terms = a.terms.saturating_add(b.terms);
    Size {
        steps: a
            .steps
            .saturating_add(b.steps)
            .saturating_add(many.saturating_mul(terms)),
        many,
        terms: terms.min(MOST_TERMS),
        weight: a.weight.saturating_add(b.weight),
        tries: a.tries.saturating_add(b.tries),
        splits: a.splits.saturating_add(b.splits),
        open: a.open || b.open,
    }
}

/// A product of two sums, with both of them.
pub fn multiplied(a: Size, b: Size) -> Size {
    let both = added(a, b);
    if !a.open || !b.open {
        let mut one = greater(a, b);
        one.steps = both.steps;
        return one;
    }
    let terms = a.terms.saturating_mul(b.terms);
    Size {
        steps: both
            .steps
            .saturating_add(both.many.saturating_mul(terms).saturating_mul(2)),
        many: both.many,
        terms: both.terms.saturating_add(terms).min(MOST_TERMS),
        weight: a
            .weight
            .saturating_mul(b.terms)
            .saturating_add(b.weight.saturating_mul(a.terms))
            .saturating_add(both.weight),
        tries: both.tries,
        splits: both.splits.saturating_add(a.terms.min(b.terms)),
        open: true,
    }
}

/// An atom that is made of sums.
fn within_atom(a: Size) -> Size {
    if !a.open {
        return known(a.steps);
    }
    Size {
        steps: a.steps.saturating_add(a.weight.saturating_mul(4)),
        many: 1,
        terms: 1,
        weight: a.weight.saturating_add(1),
        tries: a.tries,
        splits: a.splits.saturating_add(1),
        open: true,
    }
}

/// Whether a sum is at most 0.
fn at_most_zero(a: Size) -> Size {
    if !a.open {
        return known(a.steps);
    }
    Size {
        steps: a.steps.saturating_add(a.weight),
        many: 1,
        terms: 1,
        weight: 1,
        tries: all_tries(a),
        splits: 1,
        open: true,
    }
}

/// The sum of all its conditions.
fn gathered(row: Size) -> Size {
    let terms = row.many.saturating_mul(row.terms);
    Size {
        steps: row.steps.saturating_add(terms),
        many: 1,
        terms: terms.min(MOST_TERMS),
        weight: row.many.saturating_mul(row.weight),
        tries: row.many.saturating_mul(row.tries),
        splits: row.many.saturating_mul(row.splits),
        open: row.open,
    }
}

/// Whether none of its conditions holds: a product of at most four terms, or a comparison.
fn none_of(row: Size) -> Size {
    let mut none = at_most_zero(gathered(row));
    none.steps = none
        .steps
        .saturating_add(row.many.saturating_mul(row.terms).saturating_mul(5))
        .saturating_add(row.many.saturating_mul(row.many) / 32);
    if row.open {
        none.terms = row.terms.saturating_add(1).min(4);
        none.weight = row.weight.saturating_add(4);
        none.splits = row.splits.saturating_add(4).min(8);
    }
    none
}

/// Two of them side by side, as a row.
fn row_of(a: Size, b: Size) -> Size {
    Size {
        steps: a.steps.saturating_add(b.steps),
        many: 2,
        terms: a.terms.max(b.terms).saturating_add(1),
        weight: a.weight.max(b.weight).saturating_add(1),
        tries: a.tries.max(b.tries),
        splits: a.splits.max(b.splits),
        open: a.open || b.open,
    }
}

/// What is chosen by a condition.
fn chosen(c: Size, a: Size, b: Size) -> Size {
    if c.open {
        return multiplied(c, added(a, b));
    }
    let mut one = greater(a, b);
    one.steps = c.steps.saturating_add(a.steps).saturating_add(b.steps);
    one
}

/// How many members an object type has.
fn count_of(model: &Model, object: u32) -> u64 {
    match model.objects().list().get(object as usize) {
        Some(of) => u64::from(of.count()),
        None => 0,
    }
}

/// How many members the object type of a set variable has.
fn variable_count(model: &Model, place: u32) -> u64 {
    match model.variables().list().get(place as usize) {
        Some(variable) => match variable.kind() {
            VarKind::Set(object) => count_of(model, object),
            _ => 0,
        },
        None => 0,
    }
}

/// How many members the object type of a table's sets has.
fn cell_count(model: &Model, place: u32) -> u64 {
    match model.tables().list().get(place as usize) {
        Some(table) => match table.cells() {
            Cells::Sets(object, _) => count_of(model, *object),
            _ => 0,
        },
        None => 0,
    }
}

/// How many members the object types of a table's arguments have together.
fn argument_counts(model: &Model, place: u32) -> u64 {
    let mut counts: u64 = 0;
    if let Some(table) = model.tables().list().get(place as usize) {
        for object in table.args().list() {
            counts = counts.saturating_add(count_of(model, *object));
        }
    }
    counts
}

/// A set that is the same in all states of a mode, of an object type with so many members.
fn known_set(steps: u64, many: u64) -> Size {
    let mut set = known(
        steps
            .saturating_add(many.saturating_mul(2))
            .saturating_add(many.saturating_mul(many) / 64),
    );
    set.many = many;
    set
}

/// A set with one member more, or without one.
fn changed(n: Size, of: Size) -> Size {
    let mut set = of;
    set.steps = n
        .steps
        .saturating_add(of.steps)
        .saturating_add(of.many.saturating_mul(of.terms.saturating_add(2)))
        .saturating_add(of.many.saturating_mul(of.many) / 64);
    set
}

/// A variable that holds a number: an element without preference is the same in all states of a mode.
fn variable(at: &Scale<'_>, place: u32) -> Size {
    match at.model.variables().list().get(place as usize) {
        Some(of) if is_key(of) => known(1),
        _ => at.number,
    }
}

/// The members that a condition is asked of.
fn range_of(at: &Scale<'_>, over: Over) -> Size {
    match over {
        Over::Object(object) => known_set(0, count_of(at.model, object)),
        Over::Members(place) => variable_set(at, place),
    }
}

/// A set variable.
fn variable_set(at: &Scale<'_>, place: u32) -> Size {
    let mut of = at.member;
    of.many = variable_count(at.model, place);
    of.steps = of.many.saturating_mul(of.terms.saturating_add(1));
    of
}

/// Where a condition fails, for each of so many members.
fn failures(guard: Size, c: Size) -> Size {
    let mut one = guard;
    one.many = 1;
    one.steps = 0;
    let mut row = multiplied(one, c);
    row.many = guard.many;
    row.steps = guard
        .steps
        .saturating_add(guard.many.saturating_mul(row.steps));
    row
}

/// An operation on two numbers.
fn operated(op: NumOp, a: Size, b: Size) -> Size {
    let both = added(a, b);
    match op {
        NumOp::Plus | NumOp::Minus => both,
        NumOp::Times => multiplied(a, b),
        NumOp::Most | NumOp::Least | NumOp::Over => within_atom(both),
        NumOp::Rest => added(a, within_atom(both)),
    }
}

/// A sum over one more argument.
fn summed(all: Size, next: Size) -> Size {
    let mut more = multiplied(all, next);
    more.terms = all.terms.saturating_mul(next.terms).min(MOST_TERMS);
    more
}

/// How large a number expression is.
#[cycle(sizes)]
pub fn number(at: &Scale<'_>, e: &Num) -> Size {
    match e {
        Num::Fixed(_) | Num::Param(_) => known(1),
        Num::Var(place) => variable(at, *place),
        Num::Cell(_, ns) => numbers(at, ns),
        Num::Sum(table, arguments) => {
            let mut all = choices(at, arguments);
            all.steps = all.steps.saturating_add(argument_counts(at.model, *table));
            all
        }
        Num::Size(of) => gathered(set(at, of.get())),
        Num::Op(op, a, b) => operated(*op, number(at, a.get()), number(at, b.get())),
        Num::If(c, a, b) => chosen(
            condition(at, c.get()),
            number(at, a.get()),
            number(at, b.get()),
        ),
    }
}

/// How large numbers are that name a cell.
#[cycle(sizes)]
fn numbers(at: &Scale<'_>, ns: &Seq<Num>) -> Size {
    let mut steps: u64 = 1;
    for n in ns.list() {
        steps = steps.saturating_add(number(at, n).steps);
    }
    known(steps)
}

/// How large a sum over these arguments is.
#[cycle(sizes)]
fn choices(at: &Scale<'_>, arguments: &Seq<Arg>) -> Size {
    let mut all = known(1);
    for argument in arguments.list() {
        all = summed(all, choice(at, argument));
    }
    all
}

/// How large an argument of a sum is.
#[cycle(sizes)]
fn choice(at: &Scale<'_>, argument: &Arg) -> Size {
    match argument {
        Arg::One(n) => known(number(at, n).steps),
        Arg::Many(of) => gathered(set(at, of)),
    }
}

/// How large a set expression is.
#[cycle(sizes)]
pub fn set(at: &Scale<'_>, e: &SetEx) -> Size {
    match e {
        SetEx::Var(place) => variable_set(at, *place),
        SetEx::Cell(table, ns) => known_set(numbers(at, ns).steps, cell_count(at.model, *table)),
        SetEx::Op(_, a, b) => multiplied(set(at, a.get()), set(at, b.get())),
        SetEx::Not(a) => added(known(1), set(at, a.get())),
        SetEx::With(n, a) | SetEx::Without(n, a) => {
            changed(number(at, n.get()), set(at, a.get()))
        }
        SetEx::If(c, a, b) => chosen(condition(at, c.get()), set(at, a.get()), set(at, b.get())),
    }
}

/// How large a condition is.
#[cycle(sizes)]
pub fn condition(at: &Scale<'_>, e: &Cond) -> Size {
    match e {
        Cond::Fixed(_) => known(1),
        Cond::Cell(_, ns) => numbers(at, ns),
        Cond::Numbers(_, a, b) => at_most_zero(added(number(at, a), number(at, b))),
        Cond::SameSet(a, b) | Cond::OtherSet(a, b) | Cond::Subset(a, b) => {
            none_of(multiplied(set(at, a), set(at, b)))
        }
        Cond::IsIn(n, a) => is_in(number(at, n), set(at, a)),
        Cond::Empty(a) => none_of(set(at, a)),
        Cond::Not(c) => added(known(1), condition(at, c.get())),
        Cond::And(a, b) | Cond::Or(a, b) => {
            none_of(row_of(condition(at, a.get()), condition(at, b.get())))
        }
        Cond::If(c, a, b) => chosen(
            condition(at, c.get()),
            condition(at, a.get()),
            condition(at, b.get()),
        ),
        Cond::All(over, c) => none_of(failures(range_of(at, *over), condition(at, c.get()))),
    }
}

/// A number that is a member of a set.
fn is_in(n: Size, of: Size) -> Size {
    let mut bit = of;
    bit.many = 1;
    bit.steps = n.steps.saturating_add(of.steps);
    bit
}
