//! Ground transitions by their numbers, and how they are written.

ghost use Rattle.std.specs.Prelude.{◌≡◌, ◌++◌, codes, decimal, option_map, string_bytes, OnOk, OnErr};
ghost use Rattle.std.specs.List.{flat_map};
ghost use Rattle.dp_model.specs.StepTexts.{ground_of, step_text};

use crate::parts::Transition;
use crate::whole::Model;
use dp_base::{Seq, Text};
use itoa::Buffer;
use std::alloc::{AllocError, Global};

impl Model {
    /// The transition of a ground transition, and the values of its parameters. `None` where the number names none.
    pub fn step(&self, number: u32) -> Option<(&Transition, &Seq<u32>)>
        ensures { option_map (λ pair. (pair.0.now, pair.1.now)) result ≡ ground_of self.now number }
    {
        let step = self.dp_ground.list().get(number as usize)?;
        let transition = self.transitions.list().get(step.transition as usize)?;
        Some((transition, &step.args))
    }
}

fn push_argument(text: &mut String, argument: u32) -> Result<(), AllocError>
    ensures { OnOk result (string_bytes text.new ≡ string_bytes text.old ++ (codes " " ++ decimal argument)) }
{
    text.push_str(" ")?;
    text.push_str(Buffer::new().format(argument))
}

fn push_arguments(text: &mut String, arguments: &[u32]) -> Result<(), AllocError>
    ensures { OnOk result (string_bytes text.new ≡ string_bytes text.old ++ flat_map (λ k. codes " " ++ decimal k) arguments.now) }
{
    for argument in arguments {
        push_argument(text, *argument)?;
    }
    Ok(())
}

/// Appends the text of a ground transition: the name of its transition, and for each argument a space and its number.
/// Nothing is appended where the number names none. Where memory runs out the text stays as it was.
pub fn step_text(
    alloc: Global,
    model: &Model,
    number: u32,
    room: &mut Text,
) -> Result<(), AllocError>
    ensures ok { OnOk result (room.new ≡ room.old ++ step_text model.now number) }
    ensures err { OnErr result (room.new ≡ room.old) }
{
    let Some((transition, arguments)) = model.step(number) else {
        return Ok(());
    };
    let mut text = String::new(alloc);
    text.push_str(transition.name.as_text())?;
    push_arguments(&mut text, arguments.list())?;
    room.push_text(text.as_str())
}
