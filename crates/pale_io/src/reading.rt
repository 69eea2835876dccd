//! A whole read.
ghost use Rattle.std.specs.Prelude.{◌≤◌, IfOk, OnErr, IsErrOf};
ghost use Rattle.pale_io.specs.Faults.{Rose};
ghost use Rattle.pale_io.specs.Whole.{ReadsAll, ReadsTooMany, ReadsFront};

use crate::{ReadStop, Source};
use std::alloc::Global;

// The bytes of a piece, all but the one that shows that there are too many.
const PIECE: usize = 4096;

/// Reads to the end, where at most `most` bytes are left.
///
/// `Fault` comes only where the source's count of faults rose, `TooLong` where more than `most` bytes were left,
/// after one more than `most` was taken, and `NoMemory` where there is no memory for the bytes. What was read
/// before a stop has been taken from the source.
pub fn read_all<S: Source>(alloc: Global, source: &mut S, most: usize) -> Result<Vec<u8>, ReadStop>
    ensures whole { IfOk result (λ bytes. ReadsAll most (S.left source.old) (S.left source.new) bytes.items) }

    ensures fault { IsErrOf result ReadStop.Fault → Rose (S.faults source.old) (S.faults source.new) }
    ensures too_long { IsErrOf result ReadStop.TooLong → ReadsTooMany most (S.left source.old) (S.left source.new) }
    ensures err { OnErr result (ReadsFront most (S.left source.old) (S.left source.new)) }

    ensures kept { S.faults source.old ≤ S.faults source.new }
{
    let mut bytes = Vec::new(alloc);
    let mut piece = [0; PIECE];
    loop {
        let room = most - bytes.len();
        let count = source.read(&mut piece[..room.min(PIECE - 1) + 1])?;
        if count == 0 {
            return Ok(bytes);
        }
        if count > room {
            return Err(ReadStop::TooLong);
        }
        bytes.extend_from_slice(&piece[..count])?;
    }
}
