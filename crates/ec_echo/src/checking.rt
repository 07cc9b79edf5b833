// Transcripts are judged.
ghost use Rattle.std.specs.Prelude.{◌≡◌, ◌≤◌, IfOk};
ghost use Rattle.ec_echo.specs.Check.{Judged, rule_text, illegal_text};
ghost use Rattle.ec_echo.specs.OfNamed.Seen.{stream};

use crate::status::Status;
use crate::writing::{line_text, write_made, write_text};
use ec_base::{NoMemory, Sink, Source};
use ec_check::{CheckFault, Checked, check_transcript};
use ec_history::{LimitName, Rule, Shown};
use itoa::Buffer;
use std::alloc::Global;
use std::thread::Threads;

/// Judges the transcript that the source gives, of a volume formatted for so many objects, and writes the
/// line that tells what it is.
pub(crate) fn check<R: Threads + Sync, S: Source, K: Sink>(
    rt: &R,
    alloc: Global,
    source: &mut S,
    sink: &mut K,
    max_objects: u32,
) -> Status
    ensures later { (S.faults source.old ≤ S.faults source.new) × (K.faults sink.old ≤ K.faults sink.new) }
    ensures judged { Judged max_objects result (stream S.left S.faults source.old source.new) (stream K.held K.faults sink.old sink.new) }
{
    match check_transcript(rt, alloc, source, max_objects) {
        Ok(Checked::Legal) => write_text(sink, b"legal\n", Status::Done),
        Ok(Checked::Illegal(line, rule)) => {
            write_made(sink, illegal_text(alloc, line, rule), Status::Illegal)
        }
        Err(CheckFault::BadLine(line, column)) => {
            let text = line_text(alloc, Shown::Bad(line, column));
            write_made(sink, text, Status::BadLine)
        }
        Err(CheckFault::Limit(bytes)) => {
            let text = line_text(alloc, Shown::Limit(LimitName::Bytes, bytes));
            write_made(sink, text, Status::Limit)
        }
        Err(CheckFault::SourceFailed) => Status::SourceFault,
        Err(CheckFault::NoMemory) => Status::NoMemory,
    }
}

// The line that tells the first fault of a transcript.
fn illegal_text(alloc: Global, line: u32, rule: Rule) -> Result<Vec<u8>, NoMemory>
    ensures { IfOk result (λ text. text.items ≡ illegal_text line rule) }
{
    let mut buffer = Buffer::new();
    let mut text = Vec::new(alloc);
    text.extend_from_slice(b"illegal ")?;
    text.extend_from_slice(buffer.format(line).as_bytes())?;
    text.extend_from_slice(b" ")?;
    text.extend_from_slice(rule_text(rule))?;
    text.extend_from_slice(b"\n")?;
    Ok(text)
}

fn rule_text(rule: Rule) -> &'static [u8]
    ensures { result.now ≡ rule_text rule }
{
    match rule {
        Rule::Shape => b"shape",
        Rule::Number => b"number",
        Rule::Report => b"report",
        Rule::Room => b"room",
        Rule::Reply => b"reply",
        Rule::Named => b"named",
        Rule::Covered => b"covered",
        Rule::Touched => b"touched",
        Rule::Closed => b"closed",
        Rule::Fits => b"fits",
    }
}
