// Scripts that are made, drilled and counted.
ghost use Rattle.std.specs.Prelude.{◌≡◌, ◌≤◌, ◌++◌, [], List, None, IfOk, OnOk};
ghost use Rattle.ec_script.specs.Lines.{lines_of};
ghost use Rattle.ec_echo.specs.Soak.{Told, TellsCounts, AreSorts, IsSort, sort_of, answers, answers_in, unsettled, unsettled_in, summary_text, last_line as last_of, last_text, named};
ghost use Rattle.ec_echo.specs.Written.{TellsText};
ghost use Rattle.ec_echo.specs.SoakDrills.{Soaked};
ghost use Rattle.ec_echo.specs.declared.soaking.Sort.{Sort};

use crate::making::MADE_LINES;
use crate::memory::{Script, Transcript};
use crate::status::Status;
use crate::writing::write_made;
use ec_base::{NoMemory, Sink};
use ec_disk::CrashDisk;
use ec_drill::{MOST_OBJECTS, drill};
use ec_history::Shown;
use ec_script::generator::script;
use ec_script::{LineFault, split_line};
use ec_shown::read;
use itoa::Buffer;
use std::alloc::Global;

/// What a line of a transcript counts as.
#[derive(Clone, Copy, Debug, Drop, PartialEq, Eq)]
pub(crate) enum Sort {
    /// A call's answer.
    Answer,
    /// A line that didn't settle.
    Unsettled,
    Other,
}

/// Drills the script of this number on the disk, from memory to memory, and writes one line with the counts of its transcript. Of a drill that
/// ended early the last line is written, where that says why.
pub(crate) fn soak<K: Sink, D: CrashDisk>(
    alloc: Global,
    number: u32,
    sink: &mut K,
    disk: &mut D,
) -> Status
    requires { (D.counts disk.old).armed ≡ None }
    ensures later { K.faults sink.old ≤ K.faults sink.new }
    ensures counts { ((D.counts disk.old).faults ≤ (D.counts disk.new).faults) × ((D.counts disk.old).stops ≤ (D.counts disk.new).stops) }
    ensures soaked { Soaked number result
        (record {
          source = record { bytes = None; bytes_after = None; faults = 0; faults_after = 0 };
          sink = record { bytes = K.held sink.old; bytes_after = K.held sink.new; faults = K.faults sink.old; faults_after = K.faults sink.new };
          store = record { tells = D.tells; disk = D.view disk.old; disk_after = D.view disk.new; counts = D.counts disk.old; counts_after = D.counts disk.new };
        }) }
{
    let Ok(script) = script(alloc, number, MADE_LINES) else {
        return Status::NoMemory;
    };
    let mut source = Script { ahead: &script };
    let mut transcript = Transcript::new(alloc);
    let end = drill(alloc, &mut source, &mut transcript, disk, MOST_OBJECTS);
    tell(alloc, number, end, transcript.bytes(), sink)
}

// Writes what a drill that ended so with this transcript tells.
fn tell<K: Sink>(
    alloc: Global,
    number: u32,
    end: ec_drill::Status,
    transcript: &[u8],
    sink: &mut K,
) -> Status
    ensures later { K.faults sink.old ≤ K.faults sink.new }
    ensures told { Told number end transcript.now result (K.held sink.old) (K.held sink.new) (K.faults sink.old) (K.faults sink.new) }
{
    match end {
        ec_drill::Status::Done => tell_counts(alloc, number, transcript, sink),
        ec_drill::Status::BadLine => tell_last(alloc, transcript, Status::BadLine, sink),
        ec_drill::Status::BadDisk => tell_last(alloc, transcript, Status::BadDisk, sink),
        ec_drill::Status::Limit => tell_last(alloc, transcript, Status::Limit, sink),
        ec_drill::Status::Spent => tell_last(alloc, transcript, Status::Spent, sink),
        ec_drill::Status::Usage => Status::Usage,
        ec_drill::Status::SourceFault => Status::SourceFault,
        ec_drill::Status::SinkFault => Status::SinkFault,
        ec_drill::Status::DiskFault => Status::DiskFault,
        ec_drill::Status::NoMemory => Status::NoMemory,
    }
}

fn tell_counts<K: Sink>(alloc: Global, number: u32, transcript: &[u8], sink: &mut K) -> Status
    ensures later { K.faults sink.old ≤ K.faults sink.new }
    ensures told { TellsCounts number transcript.now result (K.held sink.old) (K.held sink.new) (K.faults sink.old) (K.faults sink.new) }
{
    write_made(sink, summary(alloc, number, transcript), Status::Done)
}

fn tell_last<K: Sink>(alloc: Global, transcript: &[u8], status: Status, sink: &mut K) -> Status
    ensures later { K.faults sink.old ≤ K.faults sink.new }
    ensures told { TellsText (last_text transcript.now) status result (K.held sink.old) (K.held sink.new) (K.faults sink.old) (K.faults sink.new) }
{
    write_made(sink, last_text(alloc, transcript), status)
}

// The line of the counts.
fn summary(alloc: Global, number: u32, transcript: &[u8]) -> Result<Vec<u8>, NoMemory>
    ensures { IfOk result (λ text. (sorts : List Sort) × AreSorts (lines_of transcript.now) sorts × (text.items ≡ summary_text number sorts)) }
{
    let sorts = sorts_of(alloc, transcript)?;
    summary_text(alloc, number, &sorts)
}

fn summary_text(alloc: Global, number: u32, sorts: &[Sort]) -> Result<Vec<u8>, NoMemory>
    ensures { IfOk result (λ text. text.items ≡ summary_text number sorts.now) }
{
    let lines = u64::from(MADE_LINES);
    let answers = answers(sorts);
    let mut text = Vec::new(alloc);
    push_named(&mut text, b"soak ", u64::from(number))?;
    push_named(&mut text, b" lines ", lines)?;
    push_named(&mut text, b" answers ", answers)?;
    push_named(&mut text, b" waiting ", lines.saturating_sub(answers))?;
    push_named(&mut text, b" unsettled ", unsettled(sorts))?;
    text.push(b'\n')?;
    Ok(text)
}

fn push_named(text: &mut Vec<u8>, name: &[u8], number: u64) -> Result<(), NoMemory>
    ensures { OnOk result (text.new.items ≡ text.old.items ++ named name.now number) }
{
    let mut buffer = Buffer::new();
    text.extend_from_slice(name)?;
    text.extend_from_slice(buffer.format(number).as_bytes())?;
    Ok(())
}

fn answers(sorts: &[Sort]) -> u64
    ensures { result ≡ answers sorts.now }
{
    let mut count: usize = 0;
    'counting: for sort in sorts {
        count += answers_in(*sort);
    }
    count as u64
}

fn answers_in(sort: Sort) -> usize
    ensures { result ≡ answers_in sort }
{
    match sort {
        Sort::Answer => 1,
        Sort::Unsettled => 0,
        Sort::Other => 0,
    }
}

fn unsettled(sorts: &[Sort]) -> u64
    ensures { result ≡ unsettled sorts.now }
{
    let mut count: usize = 0;
    'counting: for sort in sorts {
        count += unsettled_in(*sort);
    }
    count as u64
}

fn unsettled_in(sort: Sort) -> usize
    ensures { result ≡ unsettled_in sort }
{
    match sort {
        Sort::Answer => 0,
        Sort::Unsettled => 1,
        Sort::Other => 0,
    }
}

// What each line of a transcript counts as.
fn sorts_of(alloc: Global, transcript: &[u8]) -> Result<Vec<Sort>, NoMemory>
    ensures { IfOk result (λ sorts. AreSorts (lines_of transcript.now) sorts.items) }
{
    let mut sorts = Vec::new(alloc);
    let mut ahead = transcript;
    'lines: while !ahead.is_empty() {
        let (line, next) = split_line(ahead);
        sorts.push(sort_in(alloc, line)?)?;
        ahead = next;
    }
    Ok(sorts)
}

fn sort_in(alloc: Global, line: &[u8]) -> Result<Sort, NoMemory>
    ensures { IfOk result (IsSort line.now) }
{
    match read(alloc, line) {
        Ok(shown) => {
            let sort = sort_of(&shown);
            drop(shown);
            Ok(sort)
        }
        Err(LineFault::At(_)) => Ok(Sort::Other),
        Err(LineFault::NoMemory) => Err(NoMemory),
    }
}

fn sort_of(shown: &Shown) -> Sort
    ensures { result ≡ sort_of shown.now }
{
    match shown {
        Shown::Answered(_, _, _, _, _) => Sort::Answer,
        Shown::Unsettled => Sort::Unsettled,
        _ => Sort::Other,
    }
}

// The last line of a transcript, with its end.
fn last_text(alloc: Global, transcript: &[u8]) -> Result<Vec<u8>, NoMemory>
    ensures { IfOk result (λ text. text.items ≡ last_text transcript.now) }
{
    let mut text = Vec::new(alloc);
    text.extend_from_slice(last_line(transcript))?;
    text.push(b'\n')?;
    Ok(text)
}

fn last_line(transcript: &[u8]) -> &[u8]
    ensures { result.now ≡ last_of [] (lines_of transcript.now) }
{
    let mut last = &transcript[..0];
    let mut ahead = transcript;
    'lines: while !ahead.is_empty() {
        let (line, next) = split_line(ahead);
        last = line;
        ahead = next;
    }
    last
}
