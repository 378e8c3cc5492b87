//! Calls that take memory, each where it lasts, and the model that the lines are printed for.

use crate::texts::{FROM_ZERO, TWO_WAYS};
use dp_base::{Boxed, Seq, Text};
use dp_model::{Found, Model, Num, step_text};
use dypdl_load::load;
use std::alloc::Global;
use std::test::Fail;
use yaml_tree::read;

/// The model of two ways.
pub(crate) fn two_ways(alloc: Global) -> Result<Model, Fail> {
    let domain = read(alloc, 1, TWO_WAYS.as_bytes())?;
    let problem = read(alloc, 2, FROM_ZERO.as_bytes())?;
    Ok(load(alloc, &domain, &problem)?)
}

#[test]
fn a_text_takes_steps(rt: HostRuntime) -> Result<(), Fail> {
    let model = two_ways(rt.alloc())?;
    let mut text = Text::of(String::from_str(rt.alloc(), "steps ")?);
    text.push_text("are ")?;
    for number in [2u32, 9, 0] {
        step_text(rt.alloc(), &model, number, &mut text)?;
    }
    assert_eq!(rt; text.as_text(), "steps are ep");
    Ok(())
}

#[test]
fn a_list_takes_a_step(rt: HostRuntime) -> Result<(), Fail> {
    let mut steps = Seq::of(Vec::new(rt.alloc()));
    steps.list_mut().push(4u32)?;
    let found = Found { cost: 11, steps };
    assert_eq!(rt; (found.cost(), found.steps().list().len()), (11, 1));
    Ok(())
}

#[test]
fn a_box_takes_a_number(rt: HostRuntime) -> Result<(), Fail> {
    let held = Boxed::new(rt.alloc(), Num::Fixed(-7))?;
    assert!(rt; matches!(held.into_inner(), Num::Fixed(-7)));
    Ok(())
}
