// Pending operations that are followed up only where they are asked for.
ghost use Rattle.std.specs.Prelude.{◌≡◌, ◌≤◌, ◌<◌, ◌++◌, [], true, drop, Some, reverse, IfOk, OnOk};
ghost use Rattle.std.specs.List.{list_any};
ghost use Rattle.ec_volume.specs.Update.{member};
ghost use Rattle.ec_pending.specs.Pending.{is_asked, issues_of, numbers_in, rest};
ghost use Rattle.ec_pending.specs.Deferred.{behind_notes, next_of, above_next, is_issue, AreAbove, IsAbove};

use crate::asked::Asked;
use crate::note::Note;
use crate::pending::Pending;
use ec_base::{NoMemory, OpNo};
use ec_volume::Update;
use std::alloc::Global;
use std::marker::Model;
use std::mem;

/// How many operations a start issued, and those that no answered `fsync` or `sync` covers. What
/// happens is noted, and followed up once it's asked whether an operation is pending.
#[derive(Drop)]
pub struct Deferred {
    alloc: Global,
    count: u64,
    pending: Pending,
    // what happened since, in its order
    notes: Vec<Note>,
    // the notes from this one on are of operations that were issued
    late: usize,
}

impl Model for Deferred {
    ghost use Rattle.std.specs.Prelude.{List, ℕ};
    ghost use Rattle.std.specs.Coded.{coded_list, coded×, coded_ℕ};
    ghost use Rattle.ec_pending.specs.contracts.issue.Issue as issue;
    ghost use Rattle.ec_pending.specs.declared.issue.Issue.{Issue};
    ghost use Rattle.ec_pending.specs.Deferred.{behind_notes, AreAbove, AreLate};

    ghost Value = { ℕ × List Issue };

    ghost coded = { coded× coded_ℕ (coded_list issue.the_row.coded) };

    ghost view = { λ d. (d.count, behind_notes d.notes.items d.pending.1) };

    ghost invariant = { λ d. AreAbove d.count d.pending.0 d.notes.items × AreLate d.late d.notes.items };
}

impl Deferred {
    /// No operation was issued.
    pub fn new(alloc: Global) -> Result<Deferred, NoMemory>
        ensures { IfOk result (λ made. made ≡ (0, [])) }
    {
        Ok(Deferred {
            alloc,
            count: 0,
            pending: Pending::new(alloc)?,
            notes: Vec::new(alloc),
            late: 0,
        })
    }

    /// How many operations were issued.
    pub fn count(&self) -> u64
        ensures { result ≡ self.now.0 }
    {
        self.count
    }

    /// Whether the operation of this number is pending.
    pub fn has(&mut self, op: OpNo) -> Result<bool, NoMemory>
        ensures has { IfOk result (λ has. has ≡ member op (numbers_in self.old.1)) }
        ensures same { OnOk result (self.new ≡ self.old) }
    {
        if is_late(&self.notes, self.late, self.count, op) {
            return Ok(true);
        }
        if !self.notes.is_empty() {
            self.late = 0;
            let notes = mem::replace(&mut self.notes, Vec::new(self.alloc));
            follow_all(&mut self.pending, notes, self.count)?;
        }
        Ok(self.pending.has(op))
    }

    /// An operation is issued by an entry at the place. Its number is above those before it.
    pub fn issue(&mut self, op: OpNo, place: u32, update: Option<Update>) -> Result<(), NoMemory>
        requires { self.old.0 < op }
        ensures { OnOk result (self.new ≡ (op, self.old.1 ++ issues_of place (Some op) update)) }
    {
        let Some(update) = update else {
            self.count = op.0;
            return Ok(());
        };
        let update = Box::new(self.alloc, update)?;
        self.notes.push(Note::Issue(op, place, update))?;
        self.count = op.0;
        Ok(())
    }

    /// What is asked is covered, and what it needs.
    pub fn cover(&mut self, asked: &Asked) -> Result<(), NoMemory>
        ensures { OnOk result (self.new ≡ (self.old.0, rest (is_asked asked.now) self.old.1)) }
    {
        if let Asked::Nothing = asked {
            return Ok(());
        }
        self.notes.push(Note::Cover(*asked))?;
        self.late = self.notes.len();
        Ok(())
    }
}

// Whether the operation was issued behind what was asked last. It's looked for where it stands if
// those behind it have the next numbers.
fn is_late(notes: &[Note], late: usize, count: u64, op: OpNo) -> bool
    ensures { result ≡ true → list_any (is_issue op) (drop late notes.now) ≡ true }
{
    if count < op.0 || count - op.0 >= notes.len() as u64 {
        return false;
    }
    let at = notes.len() - 1 - (count - op.0) as usize;
    if at < late {
        return false;
    }
    match &notes[at] {
        Note::Issue(number, _, _) => *number == op,
        Note::Cover(_) => false,
    }
}

// Follows up what happened.
fn follow_all(pending: &mut Pending, notes: Vec<Note>, count: u64) -> Result<(), NoMemory>
    requires { AreAbove count pending.old.0 notes.items }
    ensures count { pending.new.0 ≤ count }
    ensures pending { OnOk result (pending.new.1 ≡ behind_notes notes.items pending.old.1) }
{
    let mut left = notes;
    left.reverse();
    follow_back(pending, left, count)
}

// The same where the last one happened first.
fn follow_back(pending: &mut Pending, notes: Vec<Note>, count: u64) -> Result<(), NoMemory>
    requires { AreAbove count pending.old.0 (reverse notes.items) }
    ensures count { pending.new.0 ≤ count }
    ensures pending { OnOk result (pending.new.1 ≡ behind_notes (reverse notes.items) pending.old.1) }
{
    let mut left = notes;
    'each: while let Some(note) = left.pop() {
        follow(pending, note)?;
    }
    Ok(())
}

fn follow(pending: &mut Pending, note: Note) -> Result<(), NoMemory>
    requires { IsAbove pending.old.0 note }
    ensures count { pending.new.0 ≡ above_next pending.old.0 note }
    ensures pending { OnOk result (pending.new.1 ≡ next_of note pending.old.1) }
{
    match note {
        Note::Issue(op, place, update) => {
            pending.issue(op, place, Some(Box::into_inner(update)))
        },
        Note::Cover(asked) => pending.cover(&asked),
    }
}
