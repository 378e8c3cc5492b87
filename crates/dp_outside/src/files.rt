//! Files in memory, as the shelves that have no system below them keep them.

ghost use Rattle.std.specs.Prelude.{◌≡◌, ◌≤◌, ◌<◌, [], ◌∷◌, ◌++◌, length, OnOk, OnErr, IfOk};
ghost use Rattle.std.specs.Option.{option_copied};
ghost use Rattle.std.specs.Str.{bytes_eq};
ghost use Rattle.dp_outside.specs.Files.{file_under};
ghost use Rattle.dp_outside.specs.Outside.{ReadsAt};

use std::alloc::{AllocError, Global};
use std::marker::Model;

/// A file: its name, and its bytes.
#[derive(Drop)]
pub struct NamedFile {
    name: String,
    bytes: Vec<u8>,
}

impl Model for NamedFile {
    ghost use Rattle.std.specs.Prelude.{ℕ, List, string_bytes};

    ghost Value = { List ℕ × List ℕ };

    ghost view = { λ f. (string_bytes f.name, f.bytes.items) };
}

impl NamedFile {
    fn new(alloc: Global, name: &str, bytes: &[u8]) -> Result<NamedFile, AllocError>
        ensures { IfOk result (λ file. file ≡ (name.now, bytes.now)) }
    {
        let name = String::from_str(alloc, name)?;
        let bytes = Vec::from_slice(alloc, bytes)?;
        Ok(NamedFile { name, bytes })
    }

    fn is_named(&self, name: &str) -> bool
        ensures { result ≡ bytes_eq self.now.0 name.now }
    {
        self.name.as_str() == name
    }

    fn bytes(&self) -> &[u8]
        ensures { result.now ≡ self.now.1 }
    {
        self.bytes.as_slice()
    }
}

/// The bytes of the first file of the name.
pub fn bytes_of<'a>(files: &'a [NamedFile], name: &str) -> Option<&'a [u8]>
    ensures { option_copied result ≡ file_under files.now name.now }
{
    for file in files {
        if file.is_named(name) {
            return Some(file.bytes());
        }
    }
    None
}

/// Adds a file behind the others.
pub fn add_file(
    alloc: Global,
    files: &mut Vec<NamedFile>,
    name: &str,
    bytes: &[u8],
) -> Result<(), AllocError>
    ensures ok { OnOk result (files.new.items ≡ files.old.items ++ (name.now, bytes.now) ∷ []) }
    ensures err { OnErr result (files.new.items ≡ files.old.items) }
{
    let file = NamedFile::new(alloc, name, bytes)?;
    files.push(file)?;
    Ok(())
}

/// Copies the bytes from a place on to the front of the room, as many as it has room for.
pub fn copy_from_place(bytes: &[u8], place: u64, room: &mut [u8]) -> usize
    requires { 0 < length room.old }
    ensures within { result ≤ length room.old }
    ensures bytes { ReadsAt bytes.now place result room.new }
{
    if place >= bytes.len() as u64 {
        return 0;
    }
    let rest = &bytes[place as usize..];
    let count = rest.len().min(room.len());
    room[..count].copy_from_slice(&rest[..count]);
    count
}
