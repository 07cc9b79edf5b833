// Whole streams: a source read to its end within a limit, a piece of bytes written whole.
ghost use Rattle.std.specs.Prelude.{◌≡◌, ◌≤◌, ◌<◌, ◌+◌, ◌^◌, ℕ, length, IfOk, IfErr, OnOk};
ghost use Rattle.std.specs.Io.KnownBytes.{Appends};
ghost use Rattle.ec_streams.specs.Streams.{ReadWhole, ReadFailed};
ghost use Rattle.ec_streams.specs.Writes.{WrotePart};

use ec_base::{Gave, Sink, Source, Took};
use std::alloc::Global;

/// Why a source was not read to its end.
#[derive(Clone, Copy, Debug, Drop, PartialEq, Eq)]
pub enum ReadFault {
    /// It has more bytes than the limit.
    TooMany,
    Failed,
    NoMemory,
}

/// Why a sink took no more.
#[derive(Clone, Copy, Debug, Drop, PartialEq, Eq)]
pub enum WriteFault {
    Failed,
    NoMemory,
}

// So many bytes are asked for at once.
const PIECE_BYTES: usize = 65_536;

/// The bytes of a source, read to its end. At most one more than the limit is read. Room for the
/// limit is asked for at once, where there is memory for it, so that no byte is moved.
pub fn read_whole<S: Source>(
    alloc: Global,
    source: &mut S,
    limit: usize,
) -> Result<Vec<u8>, ReadFault>
    requires { limit < 2 ^ 63 }
    ensures ok { IfOk result (λ bytes. ReadWhole (S.left source.old) (S.left source.new) limit bytes.items) }
    ensures later { S.faults source.old ≤ S.faults source.new }
    ensures err { IfErr result (λ f. ReadFailed (S.left source.old) (S.left source.new) (S.faults source.old) (S.faults source.new) limit f) }
{
    let mut bytes = Vec::new(alloc);
    let _ = bytes.reserve(limit + 1);
    let mut buffer = [0u8; PIECE_BYTES];
    'reading: while bytes.len() <= limit {
        let room = (limit + 1 - bytes.len()).min(PIECE_BYTES);
        match source.take(&mut buffer[..room]) {
            Took::Bytes(count) => {
                if bytes.extend_from_slice(&buffer[..count]).is_err() {
                    return Err(ReadFault::NoMemory);
                }
            }
            Took::End => return Ok(bytes),
            Took::Failed => return Err(ReadFault::Failed),
        }
    }
    Err(ReadFault::TooMany)
}

/// Gives the piece to the sink, and after a partial take the rest of it again.
pub fn write_whole<K: Sink>(sink: &mut K, piece: &[u8]) -> Result<(), WriteFault>
    ensures ok { OnOk result (Appends (K.held sink.old) (K.held sink.new) piece.now) }
    ensures later { K.faults sink.old ≤ K.faults sink.new }
    ensures err { IfErr result (λ f. WrotePart (K.held sink.old) (K.held sink.new) (K.faults sink.old) (K.faults sink.new) piece.now f) }
{
    let mut at = 0;
    'writing: while at < piece.len() {
        match sink.give(&piece[at..]) {
            Gave::Bytes(count) => at += count,
            Gave::Failed => return Err(WriteFault::Failed),
            Gave::NoMemory => return Err(WriteFault::NoMemory),
        }
    }
    Ok(())
}
