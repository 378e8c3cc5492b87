//! How large tables are.

ghost use Rattle.std.specs.Prelude.{◌≡◌, ◌≤◌, ◌^◌};
ghost use Rattle.std.specs.List.{sum_by};
ghost use Rattle.dp_base.specs.Results.{AnswersBy};
ghost use Rattle.dp_model.specs.Typing.{cell_count};
ghost use Rattle.dypdl_nodes.specs.Reads.{told};
ghost use Rattle.dypdl_data.specs.Tables.{words_of_cell, words_of_head, few_words};
ghost use Rattle.dypdl_data.specs.Sizes.{capped};

use crate::heads::type_count;
use crate::kinds::{CellKind, TableHead};
use dp_base::{Place, Seq};
use dp_model::ObjectType;
use dypdl_nodes::rules::TOO_MANY;
use dypdl_nodes::{LoadEnd, refused};

/// How many words the tables of a model may have together.
pub const MOST_WORDS: u64 = 16_777_216;

/// So many, or one more than a model may have.
fn capped(n: u64) -> u64
    ensures { result ≡ capped n }
{
    n.min(MOST_WORDS + 1)
}

/// How many choices of arguments of these object types there are, counted up to one more than a model may have.
pub fn cell_count(objects: &Seq<ObjectType>, args: &[u32]) -> u64
    ensures { result ≡ capped (cell_count objects.now args.now) }
{
    let [object, args @ ..] = args else {
        return 1;
    };
    capped(u64::from(type_count(objects, *object)) * cell_count(objects, args))
}

/// Words of one cell.
fn words_of_cell(objects: &Seq<ObjectType>, kind: CellKind) -> u64
    ensures words { result ≡ words_of_cell objects.now kind }
    ensures small { result ≤ 2 ^ 32 }
{
    match kind {
        CellKind::Integer | CellKind::Element | CellKind::Truth => 1,
        CellKind::Set(object) => ((u64::from(type_count(objects, object)) + 1) / 2).max(1),
    }
}

#[tactic(auto, using(crate::proofs::Caps::capped_times))]
fn words_of_head(objects: &Seq<ObjectType>, head: &TableHead) -> u64
    ensures { result ≡ capped (words_of_head objects.now head.now) }
{
    capped(cell_count(objects, head.args.list()) * words_of_cell(objects, head.kind))
}

fn words_of_heads(objects: &Seq<ObjectType>, heads: &[TableHead]) -> u64
    ensures { result ≡ capped (sum_by (words_of_head objects.now) heads.now) }
{
    let mut words = 0;
    for head in heads {
        words = capped(words + words_of_head(objects, head));
    }
    words
}

/// Nothing where tables have no more words together than a model may have, else `TOO_MANY`.
#[tactic(auto, using(crate::proofs::Caps::capped_few))]
pub fn few_words(objects: &Seq<ObjectType>, at: Place, heads: &[TableHead]) -> Result<(), LoadEnd>
    ensures { AnswersBy told (λ _. heads.now) result (few_words objects.now at heads.now) }
{
    if words_of_heads(objects, heads) > MOST_WORDS {
        return Err(refused(TOO_MANY, at));
    }
    Ok(())
}
