//! The keys of maps: which may be there, and which must.

ghost use Rattle.std.specs.Prelude.{◌≡◌, option_map};
ghost use Rattle.dp_base.specs.Results.{AnswersBy};
ghost use Rattle.yaml_tree.specs.Fields.{scalar_text, is_text, value_in};
ghost use Rattle.dypdl_nodes.specs.Reads.{told};
ghost use Rattle.dypdl_nodes.specs.Shapes.{texts, is_among, left_out, key_step, known_keys, keyed, file_keyed, needed};

use crate::ends::{LoadEnd, refused};
use crate::maps::{entries_of, file_entries};
use crate::rules::{LEFT_OUT, MISSING_KEY, UNKNOWN_KEY};
use dp_base::Place;
use yaml_tree::{Pair, Tree};

fn is_among(words: &[&str], word: &str) -> bool
    ensures { result ≡ is_among (texts words.now) word.now }
{
    for other in words {
        if word == *other {
            return true;
        }
    }
    false
}

/// Whether a key is one of DyPDL's that no map may have here.
fn is_left_out(word: &str) -> bool
    ensures { result ≡ is_among left_out word.now }
{
    matches!(word, "base_states" | "state_functions")
}

fn check_key(known: &[&str], pair: &Pair) -> Result<(), LoadEnd>
    ensures { AnswersBy told (λ _. tt) result (key_step (texts known.now) tt pair.now) }
{
    let number = match pair.key.text() {
        Some(word) if is_among(known, word.as_text()) => return Ok(()),
        Some(word) if is_left_out(word.as_text()) => LEFT_OUT,
        _ => UNKNOWN_KEY,
    };
    Err(refused(number, pair.key.place()))
}

/// These entries, where all their keys are known. Else `LEFT_OUT` or `UNKNOWN_KEY` at the first that is not.
pub fn known_keys<'a>(known: &[&str], entries: &'a [Pair]) -> Result<&'a [Pair], LoadEnd>
    ensures { AnswersBy told (λ e. e.now) result (known_keys (texts known.now) entries.now) }
{
    for pair in entries {
        check_key(known, pair)?;
    }
    Ok(entries)
}

/// The entries of what must be a map with known keys.
pub fn keyed<'a>(known: &[&str], tree: &'a Tree) -> Result<&'a [Pair], LoadEnd>
    ensures { AnswersBy told (λ e. e.now) result (keyed (texts known.now) tree.now) }
{
    known_keys(known, entries_of(tree)?)
}

/// The same of a whole file.
pub fn file_keyed<'a>(known: &[&str], tree: &'a Tree) -> Result<&'a [Pair], LoadEnd>
    ensures { AnswersBy told (λ e. e.now) result (file_keyed (texts known.now) tree.now) }
{
    known_keys(known, file_entries(tree)?)
}

fn is_named(tree: &Tree, name: &str) -> bool
    ensures { result ≡ is_text name.now (scalar_text tree.now) }
{
    match tree.text() {
        Some(text) => text.as_text() == name,
        None => false,
    }
}

/// The value of the first entry whose key is a scalar with this text.
pub fn value_in<'a>(entries: &'a [Pair], name: &str) -> Option<&'a Tree>
    ensures { option_map (λ value. value.now) result ≡ value_in name.now entries.now }
{
    for entry in entries {
        if is_named(&entry.key, name) {
            return Some(&entry.value);
        }
    }
    None
}

/// The value of a key that the map at this place must have. `MISSING_KEY` where it has none.
pub fn needed<'a>(place: Place, entries: &'a [Pair], name: &str) -> Result<&'a Tree, LoadEnd>
    ensures { AnswersBy told (λ t. t.now) result (needed place entries.now name.now) }
{
    match value_in(entries, name) {
        Some(value) => Ok(value),
        None => Err(refused(MISSING_KEY, place)),
    }
}
