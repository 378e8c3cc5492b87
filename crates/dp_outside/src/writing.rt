//! A piece written whole.

ghost use Rattle.std.specs.Prelude.{◌≤◌, ◌<◌, length, OnOk, OnErr};
ghost use Rattle.dp_outside.specs.Outside.{Rose, Takes, TakesFront};

use crate::failing::Failed;
use crate::sinks::Sink;

/// Writes a piece whole. After an `Err` the sink took a front of it. It takes no memory.
pub fn put_all<S: Sink>(out: &mut S, piece: &[u8]) -> Result<(), Failed>
    ensures ok { OnOk result (Takes (S.taken out.old) (S.taken out.new) piece.now) }
    ensures err { OnErr result (TakesFront (S.taken out.old) (S.taken out.new) piece.now) }
    ensures failed { OnErr result (Rose (S.faults out.old) (S.faults out.new)) }
    ensures count { S.faults out.old ≤ S.faults out.new }
{
    let mut done = 0;
    while done < piece.len() {
        done += out.write(&piece[done..])?;
    }
    Ok(())
}
