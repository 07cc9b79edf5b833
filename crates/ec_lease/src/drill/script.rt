// The lines of a script, as they are read.
ghost use Rattle.std.specs.Prelude.{◌≡◌, ◌≤◌, ◌+◌, [], ◌∷◌, map, length, IfOk, OnOk, MatchOption};
ghost use Rattle.ec_lease_machine.specs.Drill.{bound, named_in, clerks_in};
ghost use Rattle.ec_protocol.specs.Drill.{clerk_in as drill_clerk};
ghost use Rattle.ec_script.specs.Lines.{lines_of};
ghost use Rattle.ec_lease.specs.OfDrill.Script.{AreRead, IsRead, machine_line, machine_lease, most_lines};
ghost use Rattle.ec_lease.specs.OfDrill.Lines.{read_of, each_noted};
ghost use Rattle.ec_volume.specs.Update.{member};

use crate::drill::limits::DELIVERIES;
use ec_base::{ClerkId, NoMemory};
use ec_lease_machine::words::{LeaseLine, read_lease_line};
use ec_script::{Line, LineFault, last_column, split_line};
use std::alloc::Global;

/// A line of a script, as it was read.
#[derive(Drop)]
pub(crate) enum ScriptLine {
    /// The line, and the column of its last word.
    Fits(LeaseLine, u32),
    /// It's outside the grammar, from this column on.
    Unfit(u32),
}

/// Reads all lines of a script. Clocks differ by at most `most`.
pub(crate) fn read_script(
    alloc: Global,
    most: u64,
    script: &[u8],
) -> Result<Vec<ScriptLine>, NoMemory>
    requires { most ≤ 1000000 }
    ensures { IfOk result (λ lines. AreRead most (lines_of script.now) (map read_of lines.items)) }
{
    let mut lines = Vec::new(alloc);
    let mut ahead = script;
    'lines: while !ahead.is_empty() {
        let (line, next) = split_line(ahead);
        lines.push(read(alloc, most, line)?)?;
        ahead = next;
    }
    Ok(lines)
}

fn read(alloc: Global, most: u64, line: &[u8]) -> Result<ScriptLine, NoMemory>
    requires { most ≤ 1000000 }
    ensures { IfOk result (λ read. IsRead most line.now (read_of read)) }
{
    match read_lease_line(alloc, most, line) {
        Ok(read) => Ok(ScriptLine::Fits(read, last_column(line))),
        Err(LineFault::At(column)) => Ok(ScriptLine::Unfit(column)),
        Err(LineFault::NoMemory) => Err(NoMemory),
    }
}

/// How many messages are delivered after a line before it's unsettled, by the clerks that lines name.
pub(crate) fn bound_of(alloc: Global, lines: &[ScriptLine]) -> Result<u64, NoMemory>
    requires { length lines.now ≤ most_lines }
    ensures { IfOk result (λ n. n ≡ bound (map read_of lines.now)) }
{
    let mut named: Vec<ClerkId> = Vec::new(alloc);
    'naming: for line in lines {
        note_clerk(&mut named, line)?;
    }
    Ok(DELIVERIES * (named.len() as u64 + 1))
}

// Notes the clerk that the line names, if none before names it.
fn note_clerk(named: &mut Vec<ClerkId>, line: &ScriptLine) -> Result<(), NoMemory>
    ensures names { OnOk result (named.new.items ≡ each_noted named.old.items (named_in (read_of line.now ∷ []))) }
    ensures few { OnOk result (length named.new.items ≤ length named.old.items + 1) }
{
    let Some(clerk) = clerk_in(line) else {
        return Ok(());
    };
    if is_one_of(named, clerk) {
        return Ok(());
    }
    named.push(clerk)?;
    Ok(())
}

fn is_one_of(named: &[ClerkId], clerk: ClerkId) -> bool
    ensures { result ≡ member clerk named.now }
{
    named.contains(&clerk)
}

fn clerk_in(line: &ScriptLine) -> Option<ClerkId>
    ensures { MatchOption result (named_in (read_of line.now ∷ []) ≡ []) (λ clerk. named_in (read_of line.now ∷ []) ≡ clerk ∷ []) }
{
    match line {
        ScriptLine::Fits(line, _) => clerk_of(line),
        ScriptLine::Unfit(_) => None,
    }
}

fn clerk_of(line: &LeaseLine) -> Option<ClerkId>
    ensures { MatchOption result (clerks_in (machine_lease line.now) ≡ []) (λ clerk. clerks_in (machine_lease line.now) ≡ clerk ∷ []) }
{
    match line {
        LeaseLine::Drill(line) => clerk_of_drill(line),
        LeaseLine::Tick(_) => None,
        LeaseLine::Skew(clerk, _) => Some(*clerk),
        LeaseLine::Grant(clerk) => Some(*clerk),
        LeaseLine::Hand(clerk, _) => Some(*clerk),
    }
}

fn clerk_of_drill(line: &Line) -> Option<ClerkId>
    ensures { MatchOption result (drill_clerk (machine_line line.now) ≡ []) (λ clerk. drill_clerk (machine_line line.now) ≡ clerk ∷ []) }
{
    match line {
        Line::Comment | Line::Stop | Line::Restart => None,
        Line::Arm(_, _) => None,
        Line::Call(clerk, _) => Some(*clerk),
        Line::Push(clerk, _) => Some(*clerk),
        Line::Drop(clerk, _, _) => Some(*clerk),
        Line::Repeat(clerk, _, _) => Some(*clerk),
        Line::Deliver(clerk, _, _) => Some(*clerk),
        Line::Cut(clerk) => Some(*clerk),
        Line::Uncut(clerk) => Some(*clerk),
        Line::Resend(clerk) => Some(*clerk),
        Line::Crash(clerk) => Some(*clerk),
        Line::End(clerk) => Some(*clerk),
    }
}
