// The lines of a transcript.
ghost use Rattle.std.specs.Prelude.{◌≡◌, ◌≤◌, ◌++◌, ◌∷◌, if◌then◌else◌, [], T, length, is_ok, IfOk, IfErr, MatchResult};
ghost use Rattle.ec_legal.specs.Bounded.{is_bounded_line};
ghost use Rattle.ec_shown.specs.Lines.{IsShown, IsUnfit};
ghost use Rattle.ec_legal.specs.OfTranscript.Limits.{max_transcript_bytes};
ghost use Rattle.ec_legal.specs.OfTranscript.LinesRead.{TranscriptIsRead, HasBadLine};

use ec_base::NoMemory;
use ec_history::Shown;
use ec_script::{LineFault, split_line};
use std::alloc::Global;

/// A transcript has at most this many bytes.
pub const MAX_TRANSCRIPT_BYTES: usize = 16_777_216;

/// Why lines were not read.
#[derive(Clone, Copy, Debug, Drop, PartialEq, Eq)]
pub enum ReadFault {
    /// This line, from 1, is outside the grammar at this column, from 1.
    BadLine(u32, u32),
    NoMemory,
}

/// Reads each line, and leaves room for so many more behind them, where there is memory for it.
pub fn read_lines(alloc: Global, bytes: &[u8], room: usize) -> Result<Vec<Shown>, ReadFault>
    requires { length bytes.now ≤ max_transcript_bytes }
    ensures read { IfOk result (λ shown. TranscriptIsRead bytes.now shown.items) }
    ensures fault { IfErr result (λ fault. HasBadLine bytes.now fault) }
{
    let mut lines = Vec::new(alloc);
    let _ = lines.reserve(count_about(bytes).saturating_add(room));
    let mut rest = bytes;
    'lines: while !rest.is_empty() {
        let (line, behind) = split_line(rest);
        match read_line(alloc, line) {
            Ok(shown) => {
                if add(&mut lines, shown).is_err() {
                    return Err(ReadFault::NoMemory);
                }
            }
            Err(LineFault::At(column)) => {
                return Err(ReadFault::BadLine(lines.len() as u32 + 1, column));
            }
            Err(LineFault::NoMemory) => return Err(ReadFault::NoMemory),
        }
        rest = behind;
    }
    Ok(lines)
}

// So many of the first bytes tell about how many lines there are.
const SAMPLE_BYTES: usize = 65_536;

/// About how many lines there are, by those among the first bytes.
pub fn count_about(bytes: &[u8]) -> usize {
    let sample = &bytes[..bytes.len().min(SAMPLE_BYTES)];
    let lines = sample.iter().filter(|byte| **byte == b'\n').count();
    lines.saturating_mul(bytes.len() / SAMPLE_BYTES + 1)
}

fn add(lines: &mut Vec<Shown>, line: Shown) -> Result<(), NoMemory>
    ensures items { lines.new.items ≡ (if is_ok result then lines.old.items ++ line ∷ [] else lines.old.items) }
{
    lines.push(line)?;
    Ok(())
}

// Reads a line, whose call is within its bounds.
fn read_line(alloc: Global, line: &[u8]) -> Result<Shown, LineFault>
    ensures shown { MatchResult result (IsShown line.now) (IsUnfit line.now) }
    ensures bounded { IfOk result (λ shown. T (is_bounded_line shown)) }
{
    ec_shown::read(alloc, line)
}
