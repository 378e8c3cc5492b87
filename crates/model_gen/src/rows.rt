//! The cells and the lines of a problem's tables.

ghost use Rattle.std.specs.Prelude.{◌≡◌, ◌++◌, ◌≤◌, ◌*◌, ℕ, codes, decimal, length, map, sum, slice_index_or, string_bytes, IfOk, OnOk};
ghost use Rattle.std.specs.List.{range_with_len};
ghost use Rattle.dp_base.specs.Bytes.{line};
ghost use Rattle.model_gen.specs.Texts.{cell, cells, joined, lines as texts_of, rests, table};

use dp_base::Text;
use std::alloc::{AllocError, Global};

/// Adds a line and its line feed.
pub(crate) fn push_line(text: &mut String, words: &str) -> Result<(), AllocError>
    ensures { OnOk result (string_bytes text.new ≡ string_bytes text.old ++ line words.now) }
{
    text.push_str(words)?;
    text.push_str("\n")
}

/// The text of these lines.
pub(crate) fn text_of(alloc: Global, lines: &[Text]) -> Result<String, AllocError>
    ensures { IfOk result (λ text. string_bytes text ≡ texts_of lines.now) }
{
    let mut text = String::new(alloc);
    for words in lines {
        push_line(&mut text, words.as_text())?;
    }
    Ok(text)
}

/// Adds texts with a comma between them.
pub(crate) fn push_joined(text: &mut String, cells: &[Text]) -> Result<(), AllocError>
    ensures { OnOk result (string_bytes text.new ≡ string_bytes text.old ++ joined cells.now) }
{
    let Some((first, others)) = cells.split_first() else {
        return Ok(());
    };
    text.push_str(first.as_text())?;
    for cell in others {
        text.push_str(", ")?;
        text.push_str(cell.as_text())?;
    }
    Ok(())
}

/// The line of a table: its name and its cells.
pub(crate) fn table_line(alloc: Global, name: &str, cells: &[Text]) -> Result<Text, AllocError>
    ensures { IfOk result (λ text. text ≡ table name.now cells.now) }
{
    let mut text = String::from_str(alloc, "  ")?;
    text.push_str(name)?;
    text.push_str(": { ")?;
    push_joined(&mut text, cells)?;
    text.push_str(" }")?;
    Ok(Text::of(text))
}

/// A cell of a table with one argument.
fn cell_of(alloc: Global, place: usize, value: u64) -> Result<Text, AllocError>
    ensures { IfOk result (λ text. text ≡ cell place value) }
{
    Ok(Text::of(format!(in alloc; "{place}: {value}")?))
}

/// The cells of a table with one argument.
pub(crate) fn cells(alloc: Global, values: &[u64]) -> Result<Vec<Text>, AllocError>
    ensures { IfOk result (λ texts. texts.items ≡ cells values.now) }
{
    let mut texts = Vec::new(alloc);
    for value in values {
        let cell = cell_of(alloc, texts.len(), *value)?;
        texts.push(cell)?;
    }
    Ok(texts)
}

/// The sum of numbers that are at most 100.
#[tactic(auto, using(crate::proofs::Steps::sum_step))]
fn sum_of(values: &[u64]) -> u64
    requires few { length values.now ≤ 1000 }
    requires small { (i : ℕ) → slice_index_or values.now i 0 ≤ 100 }
    ensures { result ≡ sum values.now }
{
    let mut total = 0;
    for value in values {
        total += *value;
    }
    total
}

/// Of each place, the sum of the numbers from there on.
pub(crate) fn rests(alloc: Global, values: &[u64]) -> Result<Vec<u64>, AllocError>
    requires few { length values.now ≤ 1000 }
    requires small { (i : ℕ) → slice_index_or values.now i 0 ≤ 100 }
    ensures { IfOk result (λ sums. sums.items ≡ rests values.now) }
{
    let mut left = sum_of(values);
    let mut sums = Vec::new(alloc);
    for value in values {
        sums.push(left)?;
        left -= *value;
    }
    Ok(sums)
}
