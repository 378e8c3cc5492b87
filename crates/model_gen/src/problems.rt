//! The problems of the generated models.

ghost use Rattle.std.specs.Prelude.{◌≡◌, ◌++◌, ◌≤◌, ◌+◌, ◌-◌, ◌*◌, [], codes, decimal, map, string_bytes, IfOk, OnOk};
ghost use Rattle.std.specs.List.{flat_map, range_with_len};
ghost use Rattle.dp_base.specs.Bytes.{line};
ghost use Rattle.model_gen.specs.Texts.{named, counted, room_line, towns_line, lines, way_to, path_problem, pack_problem, tour_problem, others, ways, way_cell, distances_from};

use crate::draws::{Generator, draw_pairs};
use crate::rows::{cells, push_joined, rests, table_line, text_of};
use dp_base::Text;
use std::alloc::{AllocError, Global};

/// A line that is always the same.
fn fixed(alloc: Global, words: &str) -> Result<Text, AllocError>
    ensures { IfOk result (λ text. text ≡ words.now) }
{
    Ok(Text::of(String::from_str(alloc, words)?))
}

/// The line of the domain's name.
fn domain_line(alloc: Global, domain: &str) -> Result<Text, AllocError>
    ensures { IfOk result (λ text. text ≡ codes "domain: " ++ domain.now) }
{
    Ok(Text::of(format!(in alloc; "domain: {domain}")?))
}

/// The line of the problem's name: its domain, its size and its seed.
fn name_line(alloc: Global, domain: &str, size: u32, seed: u64) -> Result<Text, AllocError>
    ensures { IfOk result (λ text. text ≡ named domain.now size seed) }
{
    Ok(Text::of(format!(in alloc; "problem: {domain}-{size}-{seed}")?))
}

/// The line of how many objects of a type there are.
fn objects_line(alloc: Global, object: &str, size: u32) -> Result<Text, AllocError>
    ensures { IfOk result (λ text. text ≡ counted object.now size) }
{
    let count = format!(in alloc; ": {size} }}")?;
    let mut text = String::from_str(alloc, "object_numbers: { ")?;
    text.push_str(object)?;
    text.push_str(count.as_str())?;
    Ok(Text::of(text))
}

/// The line of the table `n`, which has one number.
fn size_line(alloc: Global, size: u32) -> Result<Text, AllocError>
    ensures { IfOk result (λ text. text ≡ codes "  n: " ++ decimal size) }
{
    Ok(Text::of(format!(in alloc; "  n: {size}")?))
}

/// The problem of a path.
pub(crate) fn path_problem(alloc: Global, size: u32, seed: u64) -> Result<String, AllocError>
    ensures { IfOk result (λ text. string_bytes text ≡ lines (path_problem size seed)) }
{
    let pairs = draw_pairs(alloc, size, seed)?;
    let a = cells(alloc, &pairs.first)?;
    let b = cells(alloc, &pairs.second)?;
    let lines = [
        domain_line(alloc, "path")?,
        name_line(alloc, "path", size, seed)?,
        objects_line(alloc, "node", size)?,
        fixed(alloc, "target: { at: 0 }")?,
        fixed(alloc, "table_values:")?,
        size_line(alloc, size)?,
        table_line(alloc, "a", &a)?,
        table_line(alloc, "b", &b)?,
    ];
    text_of(alloc, &lines)
}

/// The line of a knapsack's target: the first item, and the room.
fn room_line(alloc: Global, room: u32) -> Result<Text, AllocError>
    ensures { IfOk result (λ text. text ≡ room_line room) }
{
    Ok(Text::of(format!(in alloc; "target: {{ i: 0, r: {room} }}")?))
}

/// The problem of a knapsack.
pub(crate) fn pack_problem(alloc: Global, size: u32, seed: u64) -> Result<String, AllocError>
    requires { size ≤ 200 }
    ensures { IfOk result (λ text. string_bytes text ≡ lines (pack_problem size seed)) }
{
    let pairs = draw_pairs(alloc, size, seed)?;
    let weights = cells(alloc, &pairs.first)?;
    let profits = cells(alloc, &pairs.second)?;
    let rests = cells(alloc, &rests(alloc, &pairs.second)?)?;
    let lines = [
        domain_line(alloc, "pack")?,
        name_line(alloc, "pack", size, seed)?,
        objects_line(alloc, "item", size)?,
        room_line(alloc, 40 * size)?,
        fixed(alloc, "table_values:")?,
        size_line(alloc, size)?,
        table_line(alloc, "w", &weights)?,
        table_line(alloc, "p", &profits)?,
        table_line(alloc, "rest", &rests)?,
    ];
    text_of(alloc, &lines)
}

/// A number as a text.
fn number_text(alloc: Global, number: u32) -> Result<Text, AllocError>
    ensures { IfOk result (λ text. text ≡ decimal number) }
{
    Ok(Text::of(format!(in alloc; "{number}")?))
}

/// Adds the way from a town to another, and none from a town to itself.
fn push_way(ways: &mut Vec<(u32, u32)>, from: u32, to: u32) -> Result<(), AllocError>
    ensures { OnOk result (ways.new.items ≡ ways.old.items ++ way_to from to) }
{
    if from == to {
        return Ok(());
    }
    ways.push((from, to))?;
    Ok(())
}

/// Adds the ways from a town to all others.
fn push_ways(ways: &mut Vec<(u32, u32)>, from: u32, size: u32) -> Result<(), AllocError>
    ensures { OnOk result (ways.new.items ≡ ways.old.items ++ others size from) }
{
    for to in 0..size {
        push_way(ways, from, to)?;
    }
    Ok(())
}

/// The ways from each town to all others.
#[tactic(auto, using(crate::proofs::Steps::all_ways_more))]
fn ways(alloc: Global, size: u32) -> Result<Vec<(u32, u32)>, AllocError>
    ensures { IfOk result (λ list. list.items ≡ ways size) }
{
    let mut list = Vec::new(alloc);
    for from in 0..size {
        push_ways(&mut list, from, size)?;
    }
    Ok(list)
}

/// A cell of the distances.
fn way_cell(alloc: Global, way: &(u32, u32), distance: u64) -> Result<Text, AllocError>
    ensures { IfOk result (λ text. text ≡ way_cell way.now distance) }
{
    let (from, to) = way;
    Ok(Text::of(format!(in alloc; "[{from}, {to}]: {distance}")?))
}

/// The cells of the distances of these ways.
fn distances(alloc: Global, ways: &[(u32, u32)], seed: u64) -> Result<Vec<Text>, AllocError>
    ensures { IfOk result (λ texts. texts.items ≡ distances_from seed 0 ways.now) }
{
    let mut generator = Generator::of(seed);
    let mut texts = Vec::new(alloc);
    for way in ways {
        let cell = way_cell(alloc, way, generator.draw())?;
        texts.push(cell)?;
    }
    Ok(texts)
}

/// The numbers of the towns that are left at first, as texts.
#[tactic(auto, using(crate::proofs::Steps::towns_more, crate::proofs::Steps::towns_end))]
fn towns_left(alloc: Global, size: u32) -> Result<Vec<Text>, AllocError>
    requires { 1 ≤ size }
    ensures { IfOk result (λ texts. texts.items ≡ map decimal (range_with_len 1 (size - 1))) }
{
    let mut texts = Vec::new(alloc);
    for town in 1..size {
        texts.push(number_text(alloc, town)?)?;
    }
    Ok(texts)
}

/// The line of a tour's target: all towns but 0 are left, and the tour is in 0.
fn towns_line(alloc: Global, size: u32) -> Result<Text, AllocError>
    requires { 1 ≤ size }
    ensures { IfOk result (λ text. text ≡ towns_line size) }
{
    let mut text = String::from_str(alloc, "target: { left: [ ")?;
    push_joined(&mut text, &towns_left(alloc, size)?)?;
    text.push_str(" ], at: 0 }")?;
    Ok(Text::of(text))
}

/// The problem of a round tour.
pub(crate) fn tour_problem(alloc: Global, size: u32, seed: u64) -> Result<String, AllocError>
    requires { 1 ≤ size }
    ensures { IfOk result (λ text. string_bytes text ≡ lines (tour_problem size seed)) }
{
    let ways = ways(alloc, size)?;
    let cells = distances(alloc, &ways, seed)?;
    let lines = [
        domain_line(alloc, "tour")?,
        name_line(alloc, "tour", size, seed)?,
        objects_line(alloc, "town", size)?,
        towns_line(alloc, size)?,
        fixed(alloc, "table_values:")?,
        table_line(alloc, "d", &cells)?,
    ];
    text_of(alloc, &lines)
}
