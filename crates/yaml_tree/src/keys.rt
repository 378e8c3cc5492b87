//! The keys of a map: which were read before, and which are too deep.

ghost use Rattle.std.specs.Prelude.{◌≡◌, List, [], ◌∷◌, ◌++◌, map, not, OnOk, IfOk};
ghost use Rattle.yaml_tree.specs.Flow.{entry};
ghost use Rattle.yaml_tree.specs.Keys.{stands_before, first_deep, deep_place};
ghost use Rattle.yaml_tree.specs.Known.{code_of, byte_code, key_code, pair_code, deep_pair, Knows};
ghost use Rattle.yaml_tree.specs.declared.tree.Tree.{Tree};
ghost use Rattle.yaml_tree.specs.declared.tree.Pair.{Pair};

use crate::tree::{Pair, Tree};
use dp_base::Place;
use std::alloc::{AllocError, Global};
use std::collections::BTreeSet;

/// The kind of a node, with which its code begins.
const SCALAR: u16 = 1;

const LIST: u16 = 2;

const MAP: u16 = 3;

/// Ends the code of a node.
const END: u16 = 0;

/// The keys of a map that were read so far, as codes.
#[derive(Drop)]
pub(crate) struct Keys {
    alloc: Global,
    codes: BTreeSet<Vec<u16>>,
}

impl Keys {
    pub(crate) fn new(alloc: Global) -> Keys
        ensures { Knows result [] }
    {
        Keys {
            alloc,
            codes: BTreeSet::new(alloc),
        }
    }

    /// Adds the key of one more entry, and says whether it is none of the keys before.
    pub(crate) fn add(&mut self, key: &Tree) -> Result<bool, AllocError>
        ensures fresh { (earlier : List Pair) → Knows self.old earlier
            → IfOk result (λ fresh. fresh ≡ not (stands_before key.now earlier)) }
        ensures knows { (earlier : List Pair) (value : Tree) → Knows self.old earlier
            → OnOk result (Knows self.new (earlier ++ entry key.now value ∷ [])) }
    {
        let mut code = Vec::new(self.alloc);
        write_key(&mut code, key)?;
        Ok(self.codes.insert(code)?)
    }
}

fn write_scalar(code: &mut Vec<u16>, text: &[u8]) -> Result<(), AllocError>
    ensures { OnOk result (code.new.items ≡ code.old.items ++ code_of 1 (map byte_code text.now)) }
{
    code.push(SCALAR)?;
    for byte in text {
        code.push(u16::from(*byte) + 1)?;
    }
    code.push(END)?;
    Ok(())
}

/// Writes the code of a key behind others.
#[cycle(code)]
fn write_key(code: &mut Vec<u16>, key: &Tree) -> Result<(), AllocError>
    ensures { OnOk result (code.new.items ≡ code.old.items ++ key_code key.now) }
{
    match key {
        Tree::Scalar(_, text) => write_scalar(code, text.as_text().as_bytes()),
        Tree::List(_, items) => write_items(code, items.list()),
        Tree::Map(_, entries) => write_entries(code, entries.list()),
    }
}

#[cycle(code)]
fn write_items(code: &mut Vec<u16>, items: &[Tree]) -> Result<(), AllocError>
    ensures { OnOk result (code.new.items ≡ code.old.items ++ code_of 2 (map key_code items.now)) }
{
    code.push(LIST)?;
    for item in items {
        write_key(code, item)?;
    }
    code.push(END)?;
    Ok(())
}

#[cycle(code)]
fn write_entries(code: &mut Vec<u16>, entries: &[Pair]) -> Result<(), AllocError>
    ensures { OnOk result (code.new.items ≡ code.old.items ++ code_of 3 (map pair_code entries.now)) }
{
    code.push(MAP)?;
    for entry in entries {
        write_key(code, &entry.key)?;
        write_key(code, &entry.value)?;
    }
    code.push(END)?;
    Ok(())
}

/// The place of the first node of a key for which no level is left.
#[cycle(deep)]
pub(crate) fn deep_place(key: &Tree, levels: u32) -> Option<Place>
    ensures { result ≡ deep_place key.now levels }
{
    match key {
        Tree::Scalar(place, _) | Tree::List(place, _) | Tree::Map(place, _) if levels == 0 => {
            Some(*place)
        }
        Tree::Scalar(_, _) => None,
        Tree::List(_, items) => deep_item(items.list(), levels - 1),
        Tree::Map(_, entries) => deep_entry(entries.list(), levels - 1),
    }
}

#[cycle(deep)]
fn deep_item(items: &[Tree], levels: u32) -> Option<Place>
    ensures { result ≡ first_deep levels (map deep_place items.now) }
{
    for item in items {
        if let Some(place) = deep_place(item, levels) {
            return Some(place);
        }
    }
    None
}

#[cycle(deep)]
fn deep_entry(entries: &[Pair], levels: u32) -> Option<Place>
    ensures { result ≡ first_deep levels (map deep_pair entries.now) }
{
    for entry in entries {
        if let Some(place) = deep_pair(entry, levels) {
            return Some(place);
        }
    }
    None
}

#[cycle(deep)]
fn deep_pair(entry: &Pair, levels: u32) -> Option<Place>
    ensures { result ≡ deep_pair entry.now levels }
{
    match deep_place(&entry.key, levels) {
        None => deep_place(&entry.value, levels),
        found => found,
    }
}
