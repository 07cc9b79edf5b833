// Lines are judged as they come, placed and judged side by side.
ghost use Rattle.std.specs.Prelude.{◌≡◌, ◌≤◌, ◌<◌, ◌+◌, ◌-◌, ◌^◌, ◌++◌, [], ℕ, List as Listed, T, true, false, take, length, IfOk, OnOk, IfErr};
ghost use Rattle.std.specs.List.{list_all};
ghost use Rattle.ec_history.specs.OfLaws.Bases.{AreAtLines};
ghost use Rattle.ec_history.specs.declared.shown.Shown.{Shown as Line};
ghost use Rattle.ec_history.specs.History.{Each};
ghost use Rattle.ec_history.specs.Legal.{IsLegal, from_formatted};
ghost use Rattle.ec_history.specs.Placing.{place, ArePlaceable};
ghost use Rattle.ec_judge.specs.Fault.{IsEntryFault};
ghost use Rattle.ec_judge.specs.Faults.{IsFirstEntry};
ghost use Rattle.ec_legal.specs.Ahead.{IsAhead, IsSettled, AreTold, is_left, placed_from};
ghost use Rattle.ec_legal.specs.Bounded.{is_bounded_line};
ghost use Rattle.ec_legal.specs.Placed.{IsPlaceFault, IsJudgeFault};
ghost use Rattle.ec_legal.specs.declared.ahead.Ahead.{Ahead as Lead};
ghost use Rattle.ec_legal.specs.Tried.{IsTried, IsFollowed, Stops};

use crate::ahead::{Ahead, follow_to, is_left, none_placed, place_next};
use ec_base::NoMemory;
use ec_history::{Entry, Rule, Shown};
use ec_judge::{HistoryFault, Judging};
use std::alloc::Global;
use std::mem;
use std::thread::{Threads, join_mut};

/// The lines of one transcript, judged as they come.
#[derive(Drop)]
pub struct Trial {
    pub ahead: Ahead,
    pub judging: Judging,
    /// The entries that are judged next.
    pub entries: Vec<(u32, Entry)>,
    /// Room for those behind them.
    pub next: Vec<(u32, Entry)>,
}

// What is done in one step: more of the lines are placed, and entries of those above are judged.
#[derive(Clone, Copy, Drop)]
struct Block<'a> {
    shown: &'a [Shown],
    // No line comes behind them.
    is_last: bool,
    entries: &'a [(u32, Entry)],
    // There may be so many objects.
    most: u32,
}

/// Why a trial goes no further.
#[derive(Clone, Copy, Debug, Drop, PartialEq, Eq)]
pub enum Stop {
    /// This line, from 1, is the first that may not follow those above it, and this is the first rule
    /// that it breaks.
    Line(u32, Rule),
    /// If each line may follow those above it, the entry of this line is the first that breaks a rule,
    /// and this is the first rule that it breaks.
    Entry(u32, Rule),
    NoMemory,
}

impl Trial {
    /// No line came yet. There is room for about so many.
    pub fn new(alloc: Global, lines: usize) -> Result<Trial, NoMemory>
        ensures { IfOk result (λ trial. (most : ℕ) → IsTried most trial []) }
    {
        let mut judging = Judging::new(alloc)?;
        judging.reserve(lines)?;
        Ok(Trial {
            ahead: none_placed(alloc, lines)?,
            judging,
            entries: Vec::new(alloc),
            next: Vec::new(alloc),
        })
    }

    /// Judges these lines as far as none behind them changes what they give, where they begin with
    /// those that came before.
    pub fn judge_on<R: Threads + Sync>(
        &mut self,
        rt: &R,
        alloc: Global,
        shown: &[Shown],
        max_objects: u32,
    ) -> Result<(), Stop>
        requires few { length shown.now < 2 ^ 31 }
        requires bounded { T (list_all is_bounded_line shown.now) }
        requires tried { IsTried max_objects self.old shown.now }
        ensures tried { OnOk result (IsTried max_objects self.new shown.now) }
        ensures stop { IfErr result (Stops max_objects self.new.ahead shown.now) }
    {
        'blocks: while is_left(&self.ahead, shown, false) {
            let block = Block {
                shown,
                is_last: false,
                entries: &self.entries,
                most: max_objects,
            };
            let (placed, judged) = step(
                rt,
                alloc,
                &block,
                &mut self.ahead,
                &mut self.next,
                &mut self.judging,
            );
            if let Err(fault) = placed {
                return Err(at_line(fault));
            }
            if let Err(fault) = judged {
                return Err(at_entry(fault));
            }
            mem::swap(&mut self.entries, &mut self.next);
        }
        Ok(())
    }

    /// Judges the rest of these lines, which are all. `At` shows the first line that may not follow
    /// those above it; where all may, the line of the first entry that breaks a rule. In both cases it
    /// shows the first rule that is broken.
    pub fn judge_rest<R: Threads + Sync>(
        &mut self,
        rt: &R,
        alloc: Global,
        shown: &[Shown],
        max_objects: u32,
    ) -> Result<(), HistoryFault>
        requires few { length shown.now < 2 ^ 31 }
        requires bounded { T (list_all is_bounded_line shown.now) }
        requires tried { IsTried max_objects self.old shown.now }
        ensures placeable { OnOk result (ArePlaceable [] shown.now) }
        ensures legal { OnOk result (IsLegal from_formatted max_objects (place shown.now)) }
        ensures fault { IfErr result (λ fault. IsJudgeFault max_objects shown.now fault) }
    {
        'blocks: while is_left(&self.ahead, shown, true) {
            let block = Block {
                shown,
                is_last: true,
                entries: &self.entries,
                most: max_objects,
            };
            let (placed, judged) = step(
                rt,
                alloc,
                &block,
                &mut self.ahead,
                &mut self.next,
                &mut self.judging,
            );
            placed?;
            if let Err(fault) = judged {
                follow_rest(alloc, &mut self.ahead, shown)?;
                return Err(fault);
            }
            mem::swap(&mut self.entries, &mut self.next);
        }
        self.judging.judge_on(max_objects, &self.entries)
    }

    /// What all of these lines are at fault for, where the trial stopped at the entry of this line: the
    /// first line that may not follow those above it, and else this one.
    pub fn conclude(
        &mut self,
        alloc: Global,
        shown: &[Shown],
        line: u32,
        rule: Rule,
    ) -> HistoryFault
        requires few { length shown.now < 2 ^ 31 }
        requires followed { IsFollowed self.old.ahead shown.now }
        ensures { (most : ℕ) → IsFirstEntry from_formatted most (place shown.now) line rule → IsJudgeFault most shown.now result }
    {
        match follow_rest(alloc, &mut self.ahead, shown) {
            Ok(()) => HistoryFault::At(line, rule),
            Err(fault) => fault,
        }
    }
}

// Follows the rest of these lines.
fn follow_rest(alloc: Global, ahead: &mut Ahead, shown: &[Shown]) -> Result<(), HistoryFault>
    requires few { length shown.now < 2 ^ 31 }
    requires followed { IsFollowed ahead.old shown.now }
    ensures placeable { OnOk result (ArePlaceable [] shown.now) }
    ensures fault { IfErr result (λ fault. IsPlaceFault shown.now fault) }
{
    let from = ahead.followed;
    follow_to(alloc, &mut ahead.following, shown, from, shown.len())
}

fn at_line(fault: HistoryFault) -> Stop
    ensures { (most : ℕ) (ahead : Lead) (shown : Listed Line) → IsPlaceFault shown fault → Stops most ahead shown result }
{
    match fault {
        HistoryFault::At(line, rule) => Stop::Line(line, rule),
        HistoryFault::NoMemory => Stop::NoMemory,
    }
}

fn at_entry(fault: HistoryFault) -> Stop
    ensures { (most : ℕ) (ahead : Lead) (shown : Listed Line) → IsFollowed ahead shown → ((more : Listed Line) → IsEntryFault most (place (shown ++ more)) fault) → Stops most ahead shown result }
{
    match fault {
        HistoryFault::At(line, rule) => Stop::Entry(line, rule),
        HistoryFault::NoMemory => Stop::NoMemory,
    }
}

// Places the next lines, and judges the entries of those above them.
fn step<R: Threads + Sync>(
    rt: &R,
    alloc: Global,
    block: &Block<'_>,
    ahead: &mut Ahead,
    next: &mut Vec<(u32, Entry)>,
    judging: &mut Judging,
) -> (Result<(), HistoryFault>, Result<(), HistoryFault>)
    requires few { length block.now.shown.now < 2 ^ 31 }
    requires ahead { IsAhead ahead.old block.now.shown.now }
    requires left { is_left ahead.old block.now.shown.now block.now.is_last ≡ true }
    requires lines { AreAtLines (judging.old ++ block.now.entries.now) }
    requires low { Each (λ e. e.0 < 2 ^ 31) block.now.entries.now }
    requires legal { IsLegal from_formatted block.now.most judging.old }
    ensures ahead { OnOk result.0 (IsAhead ahead.new block.now.shown.now) }
    ensures told { block.now.is_last ≡ false → AreTold block.now.shown.now ahead.old.settled → OnOk result.0 (AreTold block.now.shown.now ahead.new.settled) }
    ensures onward { OnOk result.0 ((length block.now.shown.now - ahead.new.placed) + (length block.now.shown.now - ahead.new.followed) < (length block.now.shown.now - ahead.old.placed) + (length block.now.shown.now - ahead.old.followed)) }
    ensures next { OnOk result.0 ((more : Listed Line) → IsSettled (block.now.shown.now ++ more) ahead.new.settled → placed_from (block.now.shown.now ++ more) ahead.old.placed ≡ next.new.items ++ placed_from (block.now.shown.now ++ more) ahead.new.placed) }
    ensures place_fault { IfErr result.0 (λ fault. IsPlaceFault block.now.shown.now fault) }
    ensures done { OnOk result.1 (judging.new ≡ judging.old ++ block.now.entries.now) }
    ensures legal { OnOk result.1 (IsLegal from_formatted block.now.most (judging.old ++ block.now.entries.now)) }
    ensures entry_fault { IfErr result.1 (λ fault. IsEntryFault block.now.most (judging.old ++ block.now.entries.now) fault) }
{
    let shown = block.shown;
    let is_last = block.is_last;
    let entries = block.entries;
    let most = block.most;
    join_mut(
        rt,
        &mut || place_next(alloc, ahead, shown, is_last, next),
        &mut || judging.judge_on(most, entries),
    )
}
