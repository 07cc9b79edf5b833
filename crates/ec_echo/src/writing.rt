// Texts are written.
ghost use Rattle.std.specs.Prelude.{◌≡◌, ◌≤◌, IfOk, MatchResult};
ghost use Rattle.ec_words.specs.OfText.Lines.{shown_text};
ghost use Rattle.ec_echo.specs.Written.{WroteWith, WroteNothing};

use crate::status::Status;
use ec_base::{NoMemory, Sink};
use ec_history::Shown;
use ec_streams::{WriteFault, write_whole};
use std::alloc::Global;

/// Writes this text, where there was memory for it, and answers this status where the sink has it whole.
pub(crate) fn write_made<K: Sink>(
    sink: &mut K,
    text: Result<Vec<u8>, NoMemory>,
    status: Status,
) -> Status
    ensures later { K.faults sink.old ≤ K.faults sink.new }
    ensures written { MatchResult text
        (λ text. WroteWith text.items status result (K.held sink.old) (K.held sink.new) (K.faults sink.old) (K.faults sink.new))
        (λ _. WroteNothing result (K.held sink.old) (K.held sink.new)) }
{
    match text {
        Ok(text) => write_text(sink, &text, status),
        Err(NoMemory) => Status::NoMemory,
    }
}

/// Writes this text, and answers this status where the sink has it whole.
pub(crate) fn write_text<K: Sink>(sink: &mut K, text: &[u8], status: Status) -> Status
    ensures later { K.faults sink.old ≤ K.faults sink.new }
    ensures written { WroteWith text.now status result (K.held sink.old) (K.held sink.new) (K.faults sink.old) (K.faults sink.new) }
{
    match write_whole(sink, text) {
        Ok(()) => status,
        Err(WriteFault::Failed) => Status::SinkFault,
        Err(WriteFault::NoMemory) => Status::NoMemory,
    }
}

/// The text of a transcript line, with its end.
pub(crate) fn line_text(alloc: Global, line: Shown) -> Result<Vec<u8>, NoMemory>
    ensures { IfOk result (λ text. text.items ≡ shown_text line) }
{
    let text = ec_words::text::print(alloc, &line);
    drop(line);
    text
}
