// The operations of a session, and the lost ones of earlier sessions.
ghost use Rattle.std.specs.Prelude.{◌≡◌, [], ◌∷◌, ℕ, List as Listed, true, IfOk, OnOk, MatchOption};
ghost use Rattle.ec_base.specs.Tables.{keys};
ghost use Rattle.ec_log.specs.OfChains.Slots.{live};
ghost use Rattle.ec_log.specs.Log as logs;
ghost use Rattle.ec_cache.specs.OfReport.Report as report;
ghost use Rattle.ec_protocol.specs.Clerk as clerk;
ghost use Rattle.ec_doing.specs.OfHoldings.Owing.{lost_of, owed_before};

use ec_base::{List, NoMemory, ObjId, OpNo};
use ec_cache::report::Report;
use ec_log::Log;
use ec_log::chains::Slot;
use ec_sessions::Window;
use ec_volume::operands;
use std::alloc::Global;

/// What a clerk issued, and the lost operations that are still to be reported, which come before
/// the first one of the session.
#[derive(Drop)]
pub struct Ledger {
    pub log: Log,
    pub owed: Report,
    ghost in_order: { owed_before log.first owed ≡ true },
}

impl Ledger {
    /// Nothing is issued, and nothing owed.
    pub fn new(alloc: Global) -> Result<Ledger, NoMemory>
        ensures log { IfOk result (λ made. made.log ≡ logs.empty) }
        ensures owed { IfOk result (λ made. made.owed ≡ []) }
    {
        let owed = Report::new(alloc)?;
        let log = Log::new(alloc)?;
        Ok(Ledger { log, owed })
    }

    /// Ends the session: what the window doesn't have is lost, and owed. The lost operations.
    pub fn lose(&mut self, alloc: Global, window: &Window) -> Result<Vec<OpNo>, NoMemory>
        ensures lost { IfOk result (λ lost. lost.items ≡ keys (logs.lost window.now self.old.log)) }
        ensures log { OnOk result (self.new.log ≡ logs.end self.old.log) }
        ensures owed { OnOk result (self.new.owed ≡ report.owe (clerk.with_operands (logs.lost window.now self.old.log)) self.old.owed) }
    {
        let lost = self.log.lost(window)?;
        let owed = with_operands(alloc, self.log.undurable(), &lost)?;
        self.owed.owe(&owed)?;
        self.log.end();
        Ok(lost)
    }
}

// The lost operations, each with its operands: by one walk over both lists, of which the lost ones
// are some of the others, in the same order.
fn with_operands(
    alloc: Global,
    ops: &[Slot],
    lost: &[OpNo],
) -> Result<Vec<(OpNo, List<ObjId>)>, NoMemory>
    requires { keys (lost_of lost.now (live ops.now)) ≡ lost.now }
    ensures { IfOk result (λ owed. owed.items ≡ clerk.with_operands (lost_of lost.now (live ops.now))) }
{
    let mut owed = Vec::with_capacity(alloc, lost.len())?;
    let mut left = lost;
    'ops: for (op, update) in ops {
        let Some(update) = update else {
            continue;
        };
        if let Some(rest) = behind(left, *op) {
            owed.push((*op, List::of(operands(alloc, update)?)))?;
            left = rest;
        }
    }
    Ok(owed)
}

// What comes behind this operation, where it is the first one.
fn behind(lost: &[OpNo], op: OpNo) -> Option<&[OpNo]>
    ensures { MatchOption result ((rest : Listed ℕ) → lost.now ≡ op ∷ rest → ⊥) (λ rest. lost.now ≡ op ∷ rest.now) }
{
    match lost {
        [first, rest @ ..] if *first == op => Some(rest),
        _ => None,
    }
}
