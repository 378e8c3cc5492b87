//! How much work the steps of a mode are, about, so that a search that would take too long is given up.

use crate::sizes::{
    Scale, Size, all_tries, condition, greater, known, multiplied, number, set, unknown,
};
use dp_model::{BaseCase, Cond, Effect, Model, Num, Transition};
use std::alloc::{AllocError, Global};

/// The longest sum whose bits are tried one by one.
const BITS: u64 = 400;

/// The most atoms that the rules take apart one after the other.
const DEPTH: u64 = 8;

/// The work of something, apart from the mode that it is done in.
#[derive(Clone, Copy)]
pub struct Work {
    /// How many terms are made.
    steps: u64,
    /// How many terms are looked at where bits are tried.
    tries: u64,
    /// How often the mode is looked at.
    looks: u64,
}

/// The work of a step: to see which states it may leave, and to see where it leads.
#[derive(Clone, Copy)]
pub struct StepWork {
    pub entering: Work,
    pub moving: Work,
}

/// The work of the steps of a model.
#[derive(Drop)]
pub struct Effort {
    /// That of a step of each transition.
    pub steps: Vec<StepWork>,
    /// That of seeing which states of a mode are inner.
    pub around: Work,
    /// How many dual bounds there are, and one more.
    pub bounds: u64,
    /// The work to compare each bound with what a step costs.
    pub comparing: u64,
}

/// No work.
fn no_work() -> Work {
    Work {
        steps: 0,
        tries: 0,
        looks: 0,
    }
}

/// The work of two things.
fn together(a: Work, b: Work) -> Work {
    Work {
        steps: a.steps.saturating_add(b.steps),
        tries: a.tries.saturating_add(b.tries),
        looks: a.looks.saturating_add(b.looks),
    }
}

/// The work to see where a condition holds.
fn work_of(size: Size) -> Work {
    Work {
        steps: size.steps,
        tries: all_tries(size),
        looks: 1,
    }
}

/// The work to see where each of these conditions holds.
fn each_asked(at: &Scale<'_>, conditions: &[Cond]) -> Work {
    let mut work = no_work();
    for c in conditions {
        work = together(work, work_of(condition(at, c)));
    }
    work
}

/// A product that has no limit, where conditions are multiplied that all hold.
fn both(a: Size, b: Size) -> Size {
    let mut all = multiplied(a, b);
    if a.open && b.open {
        all.terms = a.terms.saturating_mul(b.terms);
    }
    all
}

/// The work to see where conditions do not all hold.
fn all_asked(at: &Scale<'_>, conditions: &[Cond]) -> Work {
    let mut all = known(1);
    for c in conditions {
        all = both(all, condition(at, c));
    }
    work_of(all)
}

/// The work to see where no base case holds.
fn cases_asked(at: &Scale<'_>, cases: &[BaseCase]) -> Work {
    let mut work = no_work();
    for case in cases {
        work = together(work, all_asked(at, case.conditions().list()));
    }
    work
}

/// The work to see where forced ground transitions may not go.
fn forced_asked(at: &Scale<'_>, forced: &[u32]) -> Work {
    let mut work = no_work();
    for number in forced {
        if let Some((transition, _)) = at.model.step(*number) {
            work = together(work, all_asked(at, transition.preconditions().list()));
        }
    }
    work
}

/// How often the rules look at a sum in which they take so many atoms apart.
fn branches(splits: u64) -> u64 {
    let mut many: u64 = 2;
    for _ in 0..splits.min(DEPTH) {
        many = many.saturating_mul(2);
    }
    many
}

/// The work to compare an expression with what a step costs.
fn compared(at: &Scale<'_>, e: &Num) -> u64 {
    let size = number(at, e);
    branches(size.splits)
        .saturating_mul(size.weight)
        .saturating_add(size.steps)
        .saturating_mul(2)
}

/// The work to compare each bound with what a step costs, once.
fn bounds_compared(at: &Scale<'_>, bounds: &[Num]) -> u64 {
    let mut work: u64 = 0;
    for e in bounds {
        work = work.saturating_add(compared(at, e));
    }
    work
}

/// The work to compare the cost of each base case with a bound.
fn cases_compared(at: &Scale<'_>, cases: &[BaseCase]) -> u64 {
    let mut work: u64 = 0;
    for case in cases {
        work = work.saturating_add(compared(at, case.cost()));
    }
    work
}

/// The size of what an effect makes of a variable.
fn effect_size(at: &Scale<'_>, effect: &Effect) -> Size {
    match effect {
        Effect::Number(_, e) => number(at, e),
        Effect::Members(_, e) => set(at, e),
    }
}

/// How many terms are made where a transition makes its step.
fn step_size(at: &Scale<'_>, transition: &Transition) -> u64 {
    let mut steps = match transition.weight() {
        Some(e) => number(at, e).steps,
        None => 1,
    };
    for effect in transition.effects().list() {
        steps = steps.saturating_add(effect_size(at, effect).steps);
    }
    steps
}

/// How large the sums are at most that a number and a member of a set stand for after a transition.
fn after_one<'m>(at: &Scale<'m>, most: Scale<'m>, transition: &Transition) -> Scale<'m> {
    let mut after = most;
    for effect in transition.effects().list() {
        match effect {
            Effect::Number(_, e) => after.number = greater(after.number, number(at, e)),
            Effect::Members(_, e) => after.member = greater(after.member, set(at, e)),
        }
    }
    after
}

/// The same, after any transition.
fn after_any<'m>(at: &Scale<'m>) -> Scale<'m> {
    let mut after = *at;
    for transition in at.model.transitions().list() {
        after = after_one(at, after, transition);
    }
    after.number.steps = after.number.terms;
    after.number.many = 1;
    after
}

/// The work of a step of a transition, where `forced` is that of the forced ones and `around` that of what is asked where it leads.
fn step_work(at: &Scale<'_>, forced: Work, around: Work, transition: &Transition) -> StepWork {
    let mut entering = together(forced, each_asked(at, transition.preconditions().list()));
    entering.looks = entering.looks.saturating_add(2);
    let mut moving = around;
    moving.looks = moving.looks.saturating_add(1);
    let each = step_size(at, transition);
    moving.steps = moving
        .steps
        .saturating_add(moving.looks.saturating_mul(each));
    StepWork { entering, moving }
}

/// The work of a step of each transition.
fn step_works(
    alloc: Global,
    at: &Scale<'_>,
    forced: Work,
    around: Work,
) -> Result<Vec<StepWork>, AllocError> {
    let mut works = Vec::new(alloc);
    for transition in at.model.transitions().list() {
        works.push(step_work(at, forced, around, transition))?;
    }
    Ok(works)
}

/// The work of the steps of a model.
pub fn effort_of(alloc: Global, model: &Model, forced: &[u32]) -> Result<Effort, AllocError> {
    let here = Scale {
        model,
        number: unknown(),
        member: unknown(),
    };
    let after = after_any(&here);
    let cases = model.base_cases().list();
    let around = together(
        each_asked(&after, model.constraints().list()),
        cases_asked(&after, cases),
    );
    let many = model.bounds().list().len() as u64;
    Ok(Effort {
        steps: step_works(alloc, &here, forced_asked(&here, forced), around)?,
        around,
        bounds: many.saturating_add(1),
        comparing: bounds_compared(&after, model.bounds().list())
            .saturating_mul((cases.len() as u64).saturating_add(1))
            .saturating_add(cases_compared(&after, cases).saturating_mul(many)),
    })
}

/// What work costs in a mode that tells of so many numbers and members, so many of which are open.
pub fn cost_of(work: Work, size: u64, open: u64) -> u64 {
    let look = (size / 2)
        .saturating_add(open.saturating_mul(4))
        .saturating_add(32);
    let bits = open.min(BITS);
    let most = bits
        .saturating_mul(bits)
        .saturating_add(open)
        .saturating_add(8)
        .saturating_mul(8);
    work.steps
        .saturating_add(work.tries.min(work.looks.saturating_mul(most)))
        .saturating_add(work.looks.saturating_mul(look))
}
