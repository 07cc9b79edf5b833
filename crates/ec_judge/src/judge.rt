// The judge of histories.
ghost use Rattle.std.specs.Prelude.{◌≡◌, ◌<◌, ◌^◌, [], ℕ, T, IfOk};
ghost use Rattle.std.specs.List.{list_all};
ghost use Rattle.std.specs.Ordering.{nat_cmp};
ghost use Rattle.std.specs.FinMap.{is_sorted};
ghost use Rattle.ec_volume.specs.Update.{is_sound};
ghost use Rattle.ec_volume.specs.Volume.{images};
ghost use Rattle.ec_history.specs.History.{updates, of_issue};
ghost use Rattle.ec_history.specs.Legal.{from_formatted};
ghost use Rattle.ec_history.specs.declared.entry.Entry.TheVariants as entry;
ghost use Rattle.ec_judge.specs.Carried.{Carries, EntryIsReady, IsWhole, Judges, ops_of};

use crate::carried::{Issuer, Judge};
use crate::losses::Named;
use crate::starts::Starts;
use crate::{covers, losses, rebuilt, starts, tail, touches};
use ec_base::{ClerkId, NoMemory, ObjId, OpNo};
use ec_history::{Entry, Rule};
use ec_order::numbers::Numbers;
use ec_order::objtable::ObjTable;
use ec_pending::owes::{Answered, broken_rule};
use ec_plain::{Outcome, plain};
use std::alloc::Global;

impl Judge {
    /// Nothing was done yet.
    pub fn new(alloc: Global) -> Result<Judge, NoMemory>
        ensures { IfOk result (λ judge. Carries from_formatted [] judge) }
    {
        Ok(Judge {
            alloc,
            kept: Vec::new(alloc),
            firm: rebuilt::nothing(alloc)?,
            starts: Starts::new(alloc),
            touches: ObjTable::new(alloc),
        })
    }

    /// The first rule that the entry breaks; else it is carried. It stands behind so many others.
    pub fn judge(
        &mut self,
        most: u32,
        turn: usize,
        place: u32,
        entry: &Entry,
    ) -> Result<Option<Rule>, NoMemory>
        requires place { place < 2 ^ 31 }
        requires ready { EntryIsReady self.old (place, entry.now) }
        ensures { IfOk result (λ found. Judges most turn self.old self.new (place, entry.now) found) }
    {
        match entry {
            Entry::Call {
                clerk,
                boot,
                line: _,
                begun,
                call,
                answer,
                op,
            } => {
                let issuer = Issuer {
                    clerk: *clerk,
                    boot: *boot,
                    place,
                    turn,
                };
                let answered = Answered { call, answer, op };
                self.judge_call(most, &issuer, *begun, &answered)
            }
            Entry::Loss { clerk, boot, ops } => self.judge_loss(*clerk, *boot, ops.as_slice()),
        }
    }

    #[inline(never)]
    fn judge_call(
        &mut self,
        most: u32,
        issuer: &Issuer,
        begun: u32,
        answered: &Answered<'_>,
    ) -> Result<Option<Rule>, NoMemory>
        requires place { issuer.now.place < 2 ^ 31 }
        requires ready { (l : ℕ) → EntryIsReady self.old (issuer.now.place, entry.Call issuer.now.clerk issuer.now.boot l begun answered.now.call.now answered.now.answer.now answered.now.op.now) }
        ensures { IfOk result (λ found. (l : ℕ) → Judges most issuer.now.turn self.old self.new (issuer.now.place, entry.Call issuer.now.clerk issuer.now.boot l begun answered.now.call.now answered.now.answer.now answered.now.op.now) found) }
    {
        let Some(fresh) = ObjId::new(issuer.place + 1) else {
            unreachable!();
        };
        let at = self.starts.index_of(issuer.clerk, issuer.boot)?;
        let outcome = plain(self.alloc, &self.firm.volume, answered.call, fresh)?;
        let start = self.starts.at(at);
        let count = start.pending.count();
        if let Some(rule) = broken_rule(most, count, &start.owed, answered, &outcome)? {
            drop(outcome);
            return Ok(Some(rule));
        }
        let touched = outcome.touched.as_slice();
        let asked = covers::wanted(begun, answered.call, touched, answered.answer);
        touches::touch_all(&mut self.touches, issuer.clerk, issuer.turn, touched)?;
        let place = issuer.place;
        self.starts.note_at(at, &asked, place, answered, &outcome)?;
        let Outcome { update, .. } = outcome;
        starts::keep(
            self.alloc,
            &mut self.firm.volume,
            &mut self.kept,
            issuer,
            answered.op,
            update,
        )?;
        Ok(None)
    }

    #[inline(never)]
    fn judge_loss(
        &mut self,
        clerk: ClerkId,
        boot: u64,
        ops: &[OpNo],
    ) -> Result<Option<Rule>, NoMemory>
        requires sound { T (list_all is_sound (updates (ops_of self.old.kept.items))) }
        requires whole { IsWhole self.old }
        requires rising { T (is_sorted nat_cmp (of_issue clerk boot (ops_of self.old.kept.items))) }
        ensures { IfOk result (λ found. (most turn p : ℕ) → Judges most turn self.old self.new (p, entry.Loss clerk boot ops.now) found) }
    {
        let ops = Numbers::of(self.alloc, Vec::from_slice(self.alloc, ops)?)?;
        let named = Named {
            clerk,
            boot,
            ops: &ops,
        };
        self.judge_lost(&named)
    }

    // The same, by an index of the lost operations.
    #[inline(never)]
    fn judge_lost(&mut self, named: &Named<'_>) -> Result<Option<Rule>, NoMemory>
        requires sound { T (list_all is_sound (updates (ops_of self.old.kept.items))) }
        requires whole { IsWhole self.old }
        requires rising { T (is_sorted nat_cmp (of_issue named.now.clerk named.now.boot (ops_of self.old.kept.items))) }
        ensures { IfOk result (λ found. (most turn p : ℕ) → Judges most turn self.old self.new (p, entry.Loss named.now.clerk named.now.boot named.now.ops.now) found) }
    {
        let at = self.starts.index_of(named.clerk, named.boot)?;
        let from = tail::first_of(&self.kept, named);
        let broken = self
            .starts
            .broken_at(&self.touches, at, &self.kept, from, named)?;
        if let Some(rule) = broken {
            return Ok(Some(rule));
        }
        if !rebuilt::leave(self.alloc, &mut self.firm, &self.kept, from, named)? {
            return Ok(Some(Rule::Fits));
        }
        self.starts.owe_at(at, &self.kept, from, named)?;
        losses::forget(self.alloc, &mut self.kept, from, named)?;
        Ok(None)
    }
}
