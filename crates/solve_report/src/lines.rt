//! Lines of the report, each written in one piece where it is short.

ghost use Rattle.std.specs.Prelude.{◌≡◌};
ghost use Rattle.dp_base.specs.Bytes.{line};
ghost use Rattle.solve_report.specs.Lines.{announced_line, bound_line, found_text, pass_line, searched_line, solution_text};
ghost use Rattle.solve_report.specs.Pieces.{pieces_text};
ghost use Rattle.solve_report.specs.Puts.{Puts};

use crate::pieces::{Held, Piece, add_pieces, add_text, end_line};
use crate::steps::{length_of, put_steps};
use dp_model::{Found, Model};
use dp_outside::{Failed, Sink};

/// Writes a line of one text.
pub fn put_line<S: Sink>(out: &mut S, text: &str) -> Result<(), Failed>
    ensures { Puts (S.taken out.old) (S.taken out.new) (S.faults out.old) (S.faults out.new)
        (line text.now) result }
{
    let mut held = Held::new();
    add_text(out, &mut held, text)?;
    end_line(out, &mut held)
}

/// Writes a line of pieces, one after another.
pub fn put_pieces<S: Sink>(out: &mut S, pieces: &[Piece<'_>]) -> Result<(), Failed>
    ensures { Puts (S.taken out.old) (S.taken out.new) (S.faults out.old) (S.faults out.new)
        (line (pieces_text pieces.now)) result }
{
    let mut held = Held::new();
    add_pieces(out, &mut held, pieces)?;
    end_line(out, &mut held)
}

/// Writes the line of a solution behind the words in front of it, and a line for each of its steps.
pub(crate) fn put_found<S: Sink>(
    out: &mut S,
    model: &Model,
    front: &str,
    found: &Found,
) -> Result<(), Failed>
    ensures { Puts (S.taken out.old) (S.taken out.new) (S.faults out.old) (S.faults out.new)
        (found_text front.now model.now found.now) result }
{
    let pieces = [
        Piece::Text(front),
        Piece::Signed(found.cost),
        Piece::Text(" "),
        Piece::Number(length_of(&found.steps)),
    ];
    put_pieces(out, &pieces)?;
    put_steps(out, model, found.steps.list())
}

/// Writes the line of a solution, and a line for each of its steps.
pub fn put_solution<S: Sink>(out: &mut S, model: &Model, found: &Found) -> Result<(), Failed>
    ensures { Puts (S.taken out.old) (S.taken out.new) (S.faults out.old) (S.faults out.new)
        (solution_text model.now found.now) result }
{
    put_found(out, model, "solution ", found)
}

/// Writes the line of a pass: its number from 1, how many nodes each shard kept per layer, and how many nodes it
/// visited and dropped.
pub fn put_pass<S: Sink>(
    out: &mut S,
    pass: u32,
    share: u64,
    visited: u64,
    dropped: u64,
) -> Result<(), Failed>
    ensures { Puts (S.taken out.old) (S.taken out.new) (S.faults out.old) (S.faults out.new)
        (pass_line pass share visited dropped) result }
{
    let pieces = [
        Piece::Text("pass "),
        Piece::Number(u64::from(pass)),
        Piece::Text(" share "),
        Piece::Number(share),
        Piece::Text(" visited "),
        Piece::Number(visited),
        Piece::Text(" dropped "),
        Piece::Number(dropped),
    ];
    put_pieces(out, &pieces)
}

/// Writes the line of a bound.
pub fn put_bound<S: Sink>(out: &mut S, cost: i64) -> Result<(), Failed>
    ensures { Puts (S.taken out.old) (S.taken out.new) (S.faults out.old) (S.faults out.new)
        (bound_line cost) result }
{
    let pieces = [Piece::Text("bound "), Piece::Signed(cost)];
    put_pieces(out, &pieces)
}

/// Writes the line of a search of the best node first: how many nodes it visited.
pub fn put_searched<S: Sink>(out: &mut S, visited: u64) -> Result<(), Failed>
    ensures { Puts (S.taken out.old) (S.taken out.new) (S.faults out.old) (S.faults out.new)
        (searched_line visited) result }
{
    let pieces = [Piece::Text("search visited "), Piece::Number(visited)];
    put_pieces(out, &pieces)
}

/// Writes the line of the announced costs of a pass: how many there were, and how many calls were refused.
pub fn put_announced<S: Sink>(out: &mut S, announced: u64, refused: u64) -> Result<(), Failed>
    ensures { Puts (S.taken out.old) (S.taken out.new) (S.faults out.old) (S.faults out.new)
        (announced_line announced refused) result }
{
    let pieces = [
        Piece::Text("announced "),
        Piece::Number(announced),
        Piece::Text(" refused "),
        Piece::Number(refused),
    ];
    put_pieces(out, &pieces)
}
