//! Sets of members of an object type.

ghost use Rattle.std.specs.Prelude.{◌≡◌, ◌≤◌, ◌^◌, IfOk, length};
ghost use Rattle.dp_base.specs.Results.{Answers, AnswersBy};
ghost use Rattle.dypdl_nodes.specs.Reads.{told};
ghost use Rattle.dypdl_data.specs.Marks.{mark_step, marked_from, marked_in};
ghost use Rattle.dypdl_data.specs.Tables.{members_of};

use dp_base::Seq;
use dypdl_nodes::{LoadEnd, index_of, items_of};
use std::alloc::{AllocError, Global};
use yaml_tree::Tree;

fn mark(count: u32, marks: &mut Vec<bool>, item: &Tree) -> Result<(), LoadEnd>
    requires { length marks.old.items ≡ count }
    ensures mark { AnswersBy told (λ _. marks.new.items) result (mark_step count marks.old.items item.now) }
    ensures len { length marks.new.items ≡ length marks.old.items }
{
    let member = index_of(count, item)?;
    marks[member as usize] = true;
    Ok(())
}

/// The places of the marks, ascending.
fn marked(alloc: Global, marks: &[bool]) -> Result<Vec<u32>, AllocError>
    requires { length marks.now ≤ 2 ^ 32 }
    ensures { IfOk result (λ members. members.items ≡ marked_from 0 marks.now) }
{
    let mut members = Vec::new(alloc);
    for (member, mark) in marks.iter().enumerate() {
        if *mark {
            members.push(member as u32)?;
        }
    }
    Ok(members)
}

fn marked_in(alloc: Global, count: u32, tree: &Tree) -> Result<Vec<u32>, LoadEnd>
    ensures { AnswersBy told (λ members. members.items) result (marked_in count tree.now) }
{
    let items = items_of(tree)?;
    let mut marks = vec![in alloc; false; count as usize]?;
    for item in items {
        mark(count, &mut marks, item)?;
    }
    Ok(marked(alloc, &marks)?)
}

/// The members that a list names, ascending, of an object type with this count. One that is named twice counts once.
#[tactic(auto, using(crate::proofs::Marks::members_marked))]
pub fn members_of(alloc: Global, count: u32, tree: &Tree) -> Result<Seq<u32>, LoadEnd>
    ensures { Answers told result (members_of count tree.now) }
{
    Ok(Seq::of(marked_in(alloc, count, tree)?))
}
