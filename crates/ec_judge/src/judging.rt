// Judges a history piece by piece.
ghost use Rattle.std.specs.Prelude.{◌≡◌, ◌<◌, ◌^◌, ◌++◌, [], ℕ, IfOk, OnOk, IfErr};
ghost use Rattle.ec_history.specs.OfLaws.Bases.{AreAtLines};
ghost use Rattle.ec_history.specs.History.{Each};
ghost use Rattle.ec_history.specs.Legal.{IsLegal, from_formatted};
ghost use Rattle.ec_judge.specs.Carried.{HasJudged};
ghost use Rattle.ec_judge.specs.Fault.{IsEntryFault};

use crate::carried::Judge;
use crate::fault::HistoryFault;
use ec_base::NoMemory;
use ec_base::trace::Trace;
use ec_history::Entry;
use std::alloc::Global;
use std::marker::Model;

/// Judges the entries of one history piece by piece. A clause sees the entries judged so far.
pub struct Judging {
    judge: Judge,
    /// How many entries were judged.
    turn: usize,
    /// An entry broke a rule, or memory ran out.
    is_over: bool,
    past: Trace<(u32, Entry)>,
}

// Who drops one calls this, and needn't take it apart.
impl Drop for Judging {
    fn drop(self) {
        let Judging {
            judge,
            turn: _,
            is_over: _,
            past: _,
        } = self;
        drop(judge);
    }
}

impl Model for Judging {
    ghost use Rattle.std.specs.Prelude.{◌≡◌, false};
    ghost use Rattle.ec_history.specs.History.{History};
    ghost use Rattle.ec_judge.specs.Carried.{HasJudged};

    ghost Value = { History };

    ghost view = { λ j. j.past.items };

    ghost invariant = { λ j. j.is_over ≡ false → HasJudged j.past.items j.turn j.judge };
}

impl Judging {
    /// Nothing was judged yet.
    pub fn new(alloc: Global) -> Result<Judging, NoMemory>
        ensures empty { IfOk result (λ judging. judging ≡ []) }
        ensures legal { IfOk result (λ judging. (most : ℕ) → IsLegal from_formatted most judging) }
    {
        Ok(Judging {
            judge: Judge::new(alloc)?,
            turn: 0,
            is_over: false,
            past: Trace::new(),
        })
    }

    /// Makes room for so many more operations.
    pub fn reserve(&mut self, operations: usize) -> Result<(), NoMemory>
        ensures { OnOk result (self.new ≡ self.old) }
    {
        self.judge.kept.reserve(operations)?;
        Ok(())
    }

    /// Judges some more entries, each with the place of its transcript line. `At` shows the line of
    /// the first one that breaks a rule, and the first rule that it breaks. Behind a fault nothing
    /// more is judged: then it answers that there is no memory.
    pub fn judge_on(&mut self, most: u32, entries: &[(u32, Entry)]) -> Result<(), HistoryFault>
        requires lines { AreAtLines (self.old ++ entries.now) }
        requires few { Each (λ e. e.0 < 2 ^ 31) entries.now }
        requires legal { IsLegal from_formatted most self.old }
        ensures done { OnOk result (self.new ≡ self.old ++ entries.now) }
        ensures legal { OnOk result (IsLegal from_formatted most (self.old ++ entries.now)) }
        ensures fault { IfErr result (λ fault. IsEntryFault most (self.old ++ entries.now) fault) }
    {
        if self.is_over {
            return Err(HistoryFault::NoMemory);
        }
        self.is_over = true;
        judge_all(
            &mut self.judge,
            &mut self.turn,
            &mut self.past,
            most,
            entries,
        )?;
        self.is_over = false;
        Ok(())
    }
}

/// Judges some more entries behind those of the past, so many.
pub fn judge_all(
    judge: &mut Judge,
    turn: &mut usize,
    past: &mut Trace<(u32, Entry)>,
    most: u32,
    entries: &[(u32, Entry)],
) -> Result<(), HistoryFault>
    requires lines { AreAtLines (past.old.items ++ entries.now) }
    requires few { Each (λ e. e.0 < 2 ^ 31) entries.now }
    requires legal { IsLegal from_formatted most past.old.items }
    requires judged { HasJudged past.old.items turn.old judge.old }
    ensures done { OnOk result (past.new.items ≡ past.old.items ++ entries.now) }
    ensures legal { OnOk result (IsLegal from_formatted most (past.old.items ++ entries.now)) }
    ensures judged { OnOk result (HasJudged (past.old.items ++ entries.now) turn.new judge.new) }
    ensures fault { IfErr result (λ fault. IsEntryFault most (past.old.items ++ entries.now) fault) }
{
    let Some(end) = turn.checked_add(entries.len()) else {
        return Err(HistoryFault::NoMemory);
    };
    for at in 0..entries.len() {
        let entry = &entries[at];
        if let Some(rule) = judge.judge(most, *turn + at, entry.0, &entry.1)? {
            return Err(HistoryFault::At(entry.0, rule));
        }
        *past = past.and(entry);
    }
    *turn = end;
    Ok(())
}
