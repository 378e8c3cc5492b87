//! A file read whole, up to a limit.

ghost use Rattle.std.specs.Prelude.{◌≡◌, ℕ, ◌≤◌, ◌<◌, List, length, vec_len, [], IfOk, IfSome, IsErrOf};
ghost use Rattle.dp_outside.specs.Outside.{Rose};
ghost use Rattle.dp_outside.specs.declared.reading.ReadEnd.TheVariants.{Fault, Memory};

use crate::failing::Failed;
use crate::shelves::Shelf;
use std::alloc::{AllocError, Global};
use thiserror::Error;

/// How many bytes one read of `read_all` has room for.
const PIECE: usize = 65536;

/// Why a file was not read whole.
#[derive(Debug, Drop, Error)]
pub enum ReadEnd {
    /// A read failed.
    #[error("a read failed")]
    Fault,
    /// More bytes came than the limit allows.
    #[error("the file is longer than the limit")]
    TooLong,
    /// Memory for the bytes, or for the room of a read, was refused.
    #[error("out of memory")]
    Memory,
}

impl From<AllocError> for ReadEnd {
    ghost from_gives = { λ _ e. e ≡ Memory };

    fn from(_error: AllocError) -> ReadEnd {
        ReadEnd::Memory
    }
}

impl From<Failed> for ReadEnd {
    ghost from_gives = { λ _ e. e ≡ Fault };

    fn from(_error: Failed) -> ReadEnd {
        ReadEnd::Fault
    }
}

/// Reads a file whole, in pieces of 65,536 bytes, until a read answers 0 or more than `limit` bytes came.
/// `Memory` may come at any time, and says nothing of the file.
pub fn read_all<F: Shelf>(
    alloc: Global,
    shelf: &mut F,
    name: &str,
    limit: u64,
) -> Result<Vec<u8>, ReadEnd>
    ensures bytes { IfOk result
        (λ v. IfSome (F.bytes_under shelf.old name.now) (λ bytes. v.items ≡ bytes)) }
    ensures short { IfOk result (λ v. vec_len v ≤ limit) }
    ensures fault { IsErrOf result ReadEnd.Fault → Rose (F.faults shelf.old) (F.faults shelf.new) }
    ensures too_long { IsErrOf result ReadEnd.TooLong
        → IfSome (F.bytes_under shelf.old name.now) (λ bytes. limit < length bytes) }
    ensures count { F.faults shelf.old ≤ F.faults shelf.new }
    ensures telling { (file : List ℕ)
        → F.bytes_under shelf.new file ≡ F.bytes_under shelf.old file }
{
    let mut room = vec![in alloc; 0u8; PIECE]?;
    let read = Vec::new(alloc);
    read_pieces(shelf, name, limit, &mut room, read)
}

fn read_pieces<F: Shelf>(
    shelf: &mut F,
    name: &str,
    limit: u64,
    room: &mut [u8],
    mut read: Vec<u8>,
) -> Result<Vec<u8>, ReadEnd>
    requires room { 0 < length room.old }
    requires empty { read.items ≡ [] }
    ensures bytes { IfOk result
        (λ v. IfSome (F.bytes_under shelf.old name.now) (λ bytes. v.items ≡ bytes)) }
    ensures short { IfOk result (λ v. vec_len v ≤ limit) }
    ensures fault { IsErrOf result ReadEnd.Fault → Rose (F.faults shelf.old) (F.faults shelf.new) }
    ensures too_long { IsErrOf result ReadEnd.TooLong
        → IfSome (F.bytes_under shelf.old name.now) (λ bytes. limit < length bytes) }
    ensures count { F.faults shelf.old ≤ F.faults shelf.new }
    ensures telling { (file : List ℕ)
        → F.bytes_under shelf.new file ≡ F.bytes_under shelf.old file }
{
    loop {
        let have = read.len() as u64;
        let count = shelf.read(name, have, room)?;
        if count == 0 {
            return Ok(read);
        }
        if count as u64 > limit - have {
            return Err(ReadEnd::TooLong);
        }
        read.extend_from_slice(&room[..count])?;
    }
}
