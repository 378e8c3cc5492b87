//! What is searched or checked of a model, and the lines that tell its parts before that.

ghost use Rattle.std.specs.Prelude.{◌≡◌, true, IfOk};
ghost use Rattle.solve_report.specs.Puts.{Puts};
ghost use Rattle.solve_top.specs.Parts.{ServesFor, part_line, part_lines, proved_text};

use dp_model::Model;
use dp_outside::{Failed, Sink};
use honest_parts::proved_parts;
use kept_model::{Part, PartName, keep_parts, parts_of};
use solve_report::{Piece, put_pieces};
use std::alloc::{AllocError, Global};

/// What is searched or checked of a model: the model itself, or the model with what is proved of its dual bounds and preferences
/// alone.
#[derive(Debug, Drop)]
pub struct Searched {
    /// The dual bounds and preferences, each with whether it is proved; none where all of them are believed.
    pub parts: Vec<Part>,
    pub model: Model,
}

/// The model with what is proved of it alone.
fn proved_of(alloc: Global, model: Model) -> Result<Searched, AllocError>
    ensures { IfOk result (ServesFor model true) }
{
    let kept = proved_parts(alloc, &model)?;
    let parts = parts_of(alloc, &model, &kept)?;
    let model = keep_parts(alloc, model, &kept)?;
    Ok(Searched { parts, model })
}

/// What is searched or checked of a model, as it is asked for.
pub fn searched_of(alloc: Global, model: Model, proved: bool) -> Result<Searched, AllocError>
    ensures { IfOk result (ServesFor model proved) }
{
    if proved {
        proved_of(alloc, model)
    } else {
        Ok(Searched {
            parts: Vec::new(alloc),
            model,
        })
    }
}

/// How it is told whether a part is proved.
fn proved_text(proved: bool) -> &'static str
    ensures { result.now ≡ proved_text proved }
{
    if proved { " proved" } else { " open" }
}

/// Prints the line of a part.
fn put_part<S: Sink>(out: &mut S, part: &Part) -> Result<(), Failed>
    ensures { Puts (S.taken out.old) (S.taken out.new) (S.faults out.old) (S.faults out.new)
        (part_line part.now.name part.now.kept) result }
{
    let told = Piece::Text(proved_text(part.kept));
    match &part.name {
        PartName::Bound(number) => {
            put_pieces(out, &[Piece::Text("bound "), Piece::Number(*number), told])
        }
        PartName::Preference(name) => put_pieces(
            out,
            &[
                Piece::Text("preference "),
                Piece::Text(name.as_text()),
                told,
            ],
        ),
    }
}

/// Prints the lines of parts.
pub fn put_parts<S: Sink>(out: &mut S, parts: &[Part]) -> Result<(), Failed>
    ensures { Puts (S.taken out.old) (S.taken out.new) (S.faults out.old) (S.faults out.new)
        (part_lines parts.now) result }
{
    for part in parts {
        put_part(out, part)?;
    }
    Ok(())
}
