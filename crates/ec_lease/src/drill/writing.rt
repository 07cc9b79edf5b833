// Transcript lines are written.
ghost use Rattle.std.specs.Prelude.{◌≤◌, IfErr, OnOk};
ghost use Rattle.std.specs.Io.KnownBytes.{Appends};
ghost use Rattle.ec_lease_machine.specs.OfWords.Text.{lease_text, lease_texts};
ghost use Rattle.ec_lease.specs.OfDrill.Writing.{CutText, CutLines};

use ec_base::Sink;
use ec_lease_machine::LeaseShown;
use ec_lease_machine::words::print_lease;
use ec_streams::{WriteFault, write_whole};
use std::alloc::Global;

/// Why a run was cut off.
#[derive(Clone, Copy, Debug, Drop, PartialEq, Eq)]
pub(crate) enum Cut {
    /// The disk failed.
    Disk,
    /// The sink failed.
    Sink,
    NoMemory,
}

/// Writes lines, each as one piece of bytes.
pub(crate) fn write_lines<K: Sink>(
    alloc: Global,
    sink: &mut K,
    lines: &[LeaseShown],
) -> Result<(), Cut>
    ensures ok { OnOk result (Appends (K.held sink.old) (K.held sink.new) (lease_texts lines.now)) }
    ensures err { IfErr result (λ cut. CutLines cut lines.now (K.held sink.old) (K.held sink.new) (K.faults sink.old) (K.faults sink.new)) }
    ensures later { K.faults sink.old ≤ K.faults sink.new }
{
    'writing: for line in lines {
        if let Err(cut) = write_line(alloc, sink, line) {
            return Err(cut);
        }
    }
    Ok(())
}

/// Writes a line as one piece of bytes.
pub(crate) fn write_line<K: Sink>(alloc: Global, sink: &mut K, line: &LeaseShown) -> Result<(), Cut>
    ensures ok { OnOk result (Appends (K.held sink.old) (K.held sink.new) (lease_text line.now)) }
    ensures err { IfErr result (λ cut. CutText cut (lease_text line.now) (K.held sink.old) (K.held sink.new) (K.faults sink.old) (K.faults sink.new)) }
    ensures later { K.faults sink.old ≤ K.faults sink.new }
{
    let Ok(text) = print_lease(alloc, line) else {
        return Err(Cut::NoMemory);
    };
    match write_whole(sink, &text) {
        Ok(()) => Ok(()),
        Err(WriteFault::Failed) => Err(Cut::Sink),
        Err(WriteFault::NoMemory) => Err(Cut::NoMemory),
    }
}
