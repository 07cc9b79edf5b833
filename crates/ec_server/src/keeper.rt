// What keeps the durable state, and one that keeps it in memory.
ghost use Rattle.std.specs.Prelude.{◌≡◌, ◌≤◌, None, Ok, Err, true, OnOk, IfErr};
ghost use Rattle.ec_disk.specs.Disk.{Counts};
ghost use Rattle.ec_disk.specs.Effects.{Counted};
ghost use Rattle.ec_durable.specs.SoundRecords.{is_sound_record};
ghost use Rattle.ec_durable.specs.Durable.{step};
ghost use Rattle.ec_durable.specs.WellFormed.{IsInOrder};
ghost use Rattle.ec_server.specs.Kept.{KeeperRefuses, HasIds};
ghost use Rattle.ec_durable.specs.declared.state.Durable.{Durable as State};
ghost use Rattle.ec_durable.specs.declared.record.Record.{Record as Change};
ghost use Rattle.ec_server.specs.declared.keeper.KeepFault.TheVariants as fault;

use ec_base::NoMemory;
use ec_durable::{Durable, Record, RecordFault, records_keep_states_in_order};
use std::marker::Model;
use thiserror::Error;

/// Why a record wasn't committed.
#[derive(Clone, Copy, Debug, Drop, PartialEq, Eq, Error)]
pub enum KeepFault {
    #[error("the record is refused: {0}")]
    Refused(RecordFault),
    #[error("the disk failed")]
    DiskFailed,
    #[error("the disk stopped")]
    DiskStopped,
    #[error("out of memory")]
    NoMemory,
}

/// What keeps the durable state.
pub trait Keeper {
    /// The state behind all that was committed.
    ghost kept: { Self → State };

    /// How often its disk failed and stopped.
    ghost counts: { Self → Counts };

    /// What a committed record did.
    ghost did: { Self → Change → Self → Type 0 };

    /// What a record may have done whose commit ended in a fault of the disk, or in want of memory.
    ghost broke: { Self → Change → Self → Type 0 };

    /// The state behind all that was committed.
    fn view(&self) -> &Durable
        ensures kept { result.now ≡ kept self.now }
        ensures ids { HasIds (kept self.now) };

    /// Commits a record whose updates are sound, and of which a batch has 1 to 64. A refusal changes nothing. After any other fault it
    /// isn't known whether the record is there.
    fn commit(&mut self, change: &Record) -> Result<(), KeepFault>
        requires sound { is_sound_record change.now ≡ true }
        ensures ok { OnOk result (step change.now (kept self.old) ≡ Ok (kept self.new)) }
        ensures did { OnOk result (did self.old change.now self.new) }
        ensures err { IfErr result (λ fault. KeeperRefuses broke fault change.now (kept self.old) self.old self.new) }
        ensures counts { Counted (counts self.old) (counts self.new) (result ≡ Err fault.DiskFailed) (result ≡ Err fault.DiskStopped) };
}

/// A durable state in memory, which no crash outlives.
#[derive(Drop)]
pub struct InMemory {
    durable: Durable,
}

impl Model for InMemory {
    ghost use Rattle.std.specs.Prelude.{◌≤◌};
    ghost use Rattle.ec_durable.specs.WellFormed.{IsInOrder};
    ghost use Rattle.ec_durable.specs.declared.state.Durable.{Durable as State};

    ghost Value = { State };

    ghost view = { λ k. k.durable };

    ghost invariant = { λ k. IsInOrder k.durable × (1 ≤ k.durable.next_id) };
}

impl InMemory {
    /// Keeps this state, in which no id is used twice and the next one is from 1.
    pub fn new(durable: Durable) -> InMemory
        requires order { IsInOrder durable }
        requires next { 1 ≤ durable.next_id }
        ensures { result ≡ durable }
    {
        InMemory { durable }
    }
}

impl Keeper for InMemory {
    ghost kept = { λ keeper. keeper };

    ghost counts = { λ keeper. record { calls = 0; faults = 0; stops = 0; armed = None } };

    ghost did = { λ old change new. step change old ≡ Ok new };

    ghost broke = { λ old change new. new ≡ old };

    fn view(&self) -> &Durable {
        &self.durable
    }

    fn commit(&mut self, change: &Record) -> Result<(), KeepFault> {
        records_keep_states_in_order();
        match self.durable.step(change) {
            Ok(()) => Ok(()),
            Err(RecordFault::NoMemory) => Err(KeepFault::NoMemory),
            Err(fault) => Err(KeepFault::Refused(fault)),
        }
    }
}
