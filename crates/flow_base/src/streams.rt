//! A source read to its end, and an output given all of some bytes.
//!
//! These two loops are all that stands between the bytes of the system and those of a shelf or a
//! sink. They know no file and no standard output: what is proved of them is proved of every source and
//! every output.

ghost use Rattle.std.specs.Prelude.{IsErrOf};
ghost use Rattle.flow_base.specs.Streams.{IsReadWhole, IsWrittenWhole};

use crate::{Output, ReadError, Refusal, Source, WriteError};
use std::alloc::Global;

// How many bytes are read at once.
const PIECE: usize = 8192;

/// All that is left in the source, at most `limit` bytes.
///
/// At most a piece is read past the limit. A read that was interrupted is made again, and `Failed`
/// comes only where a read failed.
pub fn read_whole<S: Source + Drop>(
    mut source: S,
    alloc: Global,
    limit: u64,
) -> Result<Vec<u8>, ReadError>
    ensures whole { IsReadWhole limit (S.left source) result }
    ensures due { IsErrOf result ReadError.Failed → S.fails source }
{
    let mut bytes = Vec::new(alloc);
    let mut piece = [0; PIECE];
    while bytes.len() as u64 <= limit {
        match source.read(&mut piece) {
            Ok(0) => return Ok(bytes),
            Ok(count) => {
                if bytes.extend_from_slice(&piece[..count]).is_err() {
                    return Err(ReadError::Memory);
                }
            }
            Err(Refusal::Interrupted) => {}
            Err(Refusal::Memory) => return Err(ReadError::Memory),
            Err(Refusal::Failed) => return Err(ReadError::Failed),
        }
    }
    Err(ReadError::TooLong(limit))
}

/// Gives the output all of the bytes, piece by piece as it takes them.
///
/// A write that was interrupted is made again, and `Failed` comes only where a write failed or took
/// nothing.
pub fn write_whole<W: Output>(output: &mut W, bytes: &[u8]) -> Result<(), WriteError>
    ensures whole { IsWrittenWhole (W.taken output.old) (W.taken output.new) bytes.now result }
    ensures due { IsErrOf result WriteError.Failed → W.fails output.old }
{
    let mut rest = bytes;
    while !rest.is_empty() {
        match output.write(rest) {
            Ok(0) => return Err(WriteError::Failed),
            Ok(count) => rest = &rest[count..],
            Err(Refusal::Interrupted) => {}
            Err(Refusal::Memory | Refusal::Failed) => return Err(WriteError::Failed),
        }
    }
    Ok(())
}
