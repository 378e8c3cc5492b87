//! The calls: an expression's value in a packed state, with what is kept beside the model.

ghost use Rattle.std.specs.Prelude.{◌≡◌, ◌≤◌, length, take, IfOk, IsTrue};
ghost use Rattle.bit_sets.specs.Sets.{members_of};
ghost use Rattle.dp_model.specs.Evaluation.{count_of, num_value, set_value, cond_value};
ghost use Rattle.state_layout.specs.Conditions.{IsLayoutOf, IsPackedFor};
ghost use Rattle.state_layout.specs.Signatures.{word_count};
ghost use Rattle.eval_room.specs.Fits.{num_fits, set_fits, cond_fits, operand_fits};
ghost use Rattle.packed_words.specs.Operands.{Tells};
ghost use Rattle.packed_words.specs.Sets.{IsClean, one_word};
ghost use Rattle.packed_words.specs.Scenes.{Shows, AreSmall};
ghost use Rattle.state_layout.specs.Packing.{state_in};
ghost use Rattle.packed_eval.specs.Scratches.{IsScratchOf, room_of};

use crate::evaluate;
use crate::evaluate::{holds, number, set_into};
use crate::quick::quick_set;
use dp_base::Seq;
use dp_model::{Cond, FaultKind, Model, Num, SetEx};
use eval_room::{room_for, set_count};
use packed_words::{Scene, Tables};
use state_layout::{Layout, Packed};
use std::alloc::{AllocError, Global};

/// How many parameters a transition may have.
const MOST_PARAMETERS: usize = 4;

/// What evaluators keep beside a model: its tables' counts and sets in words, a place for parameters, and a stack of words
/// for the sets that an expression needs at once.
#[derive(Debug, Drop)]
pub struct Scratch {
    tables: Tables,
    params: Vec<u64>,
    stack: Vec<u64>,
}

impl Scratch {
    /// What evaluators keep beside a model, with room for each of its expressions. Memory is wanting also where no word holds
    /// the room that they need.
    pub fn of(alloc: Global, model: &Model) -> Result<Scratch, AllocError>
        ensures { IfOk result (IsScratchOf model.now) }
    {
        let room = room_for(model).ok_or(AllocError)?;
        Ok(Scratch {
            tables: Tables::of(alloc, model)?,
            params: vec![in alloc; 0u64; MOST_PARAMETERS]?,
            stack: vec![in alloc; 0u64; room]?,
        })
    }
}

/// Writes the values of parameters at the front of some words.
fn write_params(values: &[u32], params: &mut [u64])
    requires { length values.now ≤ length params.old }
    ensures value { take (length values.now) params.new ≡ values.now }
    ensures small { AreSmall values.now }
{
    for k in 0..values.len() {
        params[k] = u64::from(values[k]);
    }
}

fn write_args(args: &Seq<u32>, params: &mut [u64])
    requires { length args.now ≤ length params.old }
    ensures value { take (length args.now) params.new ≡ args.now }
    ensures small { AreSmall args.now }
{
    write_params(args.list(), params);
}

/// How many values there are.
fn args_len(args: &Seq<u32>) -> usize
    ensures { result ≡ length args.now }
{
    args.list().len()
}

/// The words of a packed state, as a scene shows them.
pub fn words_of<'a>(model: &Model, layout: &Layout, p: &'a Packed) -> &'a [u64]
    requires layout { IsLayoutOf model.now layout.now }
    requires state { IsPackedFor layout.now p.now }
    ensures shown { Shows model.now layout.now result.now }
    ensures state { state_in result.now ≡ p.now }
{
    let words = layout.words(p);
    words
}

/// The value of a number expression in a packed state, with these values of the parameters, or the fault that it meets. It
/// takes no memory.
pub fn packed_num(
    model: &Model,
    layout: &Layout,
    e: &Num,
    args: &Seq<u32>,
    p: &Packed,
    x: &mut Scratch,
) -> Result<i64, FaultKind>
    requires layout { IsLayoutOf model.now layout.now }
    requires state { IsPackedFor layout.now p.now }
    requires scratch { IsScratchOf model.now x.old }
    requires few { length args.now ≤ 4 }
    requires fits { IsTrue (num_fits model.now e.now (length args.now) (room_of x.old)) }
    ensures value { result ≡ num_value model.now p.now e.now args.now }
    ensures scratch { IsScratchOf model.now x.new }
    ensures room { room_of x.new ≡ room_of x.old }
{
    write_args(args, x.params.as_mut_slice());
    let slots = layout.slots();
    let words = words_of(model, layout, p);
    let given = &x.params[..args_len(args)];
    let at = Scene {
        model,
        tables: &x.tables,
        slots,
        words,
        args: given,
    };
    number(&at, e, x.stack.as_mut_slice())
}

/// Whether a condition holds in a packed state, with these values of the parameters, or the fault that it meets. It takes no
/// memory.
pub fn packed_cond(
    model: &Model,
    layout: &Layout,
    e: &Cond,
    args: &Seq<u32>,
    p: &Packed,
    x: &mut Scratch,
) -> Result<bool, FaultKind>
    requires layout { IsLayoutOf model.now layout.now }
    requires state { IsPackedFor layout.now p.now }
    requires scratch { IsScratchOf model.now x.old }
    requires few { length args.now ≤ 4 }
    requires fits { IsTrue (cond_fits model.now e.now (length args.now) (room_of x.old)) }
    ensures value { result ≡ cond_value model.now p.now e.now args.now }
    ensures scratch { IsScratchOf model.now x.new }
    ensures room { room_of x.new ≡ room_of x.old }
{
    write_args(args, x.params.as_mut_slice());
    let slots = layout.slots();
    let words = words_of(model, layout, p);
    let given = &x.params[..args_len(args)];
    let at = Scene {
        model,
        tables: &x.tables,
        slots,
        words,
        args: given,
    };
    holds(&at, e, x.stack.as_mut_slice())
}

/// Writes the members of a set expression in a packed state, with these values of the parameters, as words, or says the fault
/// that it meets. It takes no memory. After a fault nothing is known of the words.
pub fn packed_set(
    model: &Model,
    layout: &Layout,
    e: &SetEx,
    args: &Seq<u32>,
    p: &Packed,
    x: &mut Scratch,
    room: &mut [u64],
) -> Result<(), FaultKind>
    requires layout { IsLayoutOf model.now layout.now }
    requires state { IsPackedFor layout.now p.now }
    requires scratch { IsScratchOf model.now x.old }
    requires few { length args.now ≤ 4 }
    requires fits { IsTrue ((set_fits model.now e.now).1 (length args.now) (room_of x.old)) }
    requires room { length room.old ≡ word_count (count_of model.now (set_fits model.now e.now).0) }
    ensures value { Tells (λ _. members_of room.new) result ((set_value model.now p.now e.now).1 args.now) }
    ensures scratch { IsScratchOf model.now x.new }
    ensures same { room_of x.new ≡ room_of x.old }
{
    write_args(args, x.params.as_mut_slice());
    let slots = layout.slots();
    let words = words_of(model, layout, p);
    let given = &x.params[..args_len(args)];
    let at = Scene {
        model,
        tables: &x.tables,
        slots,
        words,
        args: given,
    };
    set_into(&at, e, set_count(model, e), room, x.stack.as_mut_slice())
}

/// The members of a set, in one word, behind the words that it would be written to. What has few parts needs no stack.
#[inline(always)]
pub fn operand_word(
    at: &Scene<'_>,
    e: &SetEx,
    count: u32,
    stack: &mut [u64],
) -> Result<u64, FaultKind>
    requires fits { IsTrue (operand_fits at.now.model.now (set_fits at.now.model.now e.now) (length at.now.args.now) (length stack.old)) }
    requires count { count ≡ count_of at.now.model.now (set_fits at.now.model.now e.now).0 }
    requires few { count ≤ 64 }
    ensures members { Tells (λ w. members_of (one_word w)) result
        ((set_value at.now.model.now (state_in at.now.words.now) e.now).1 at.now.args.now) }
    ensures clean { IfOk result (λ w. IsClean count (one_word w)) }
{
    match quick_set(at, e, count) {
        Some(word) => Ok(word),
        None => evaluate::operand_word(at, e, count, stack),
    }
}
