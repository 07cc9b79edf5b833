// Stops of the disk in a server's step: the power is cut, and what is left is read back.
ghost use Rattle.std.specs.Prelude.{◌≡◌, ◌++◌, ◌∷◌, [], Bool, List, None, Ok, Err, IfOk, IfErr, OnOk};
ghost use Rattle.ec_disk.specs.Effects.{Counted};
ghost use Rattle.ec_durable.specs.Durable.{step};
ghost use Rattle.ec_durable.specs.declared.record.Record.{Record as Change};
ghost use Rattle.ec_durable.specs.declared.state.Durable.{Durable};
ghost use Rattle.ec_history.specs.declared.shown.Shown.TheVariants as show;
ghost use Rattle.ec_protocol.specs.World as machine;
ghost use Rattle.ec_store.specs.Store.{IsHeld};
ghost use Rattle.ec_marking.specs.KeptRuns.{LeavesEither};
ghost use Rattle.ec_world.specs.Cutting.{LeavesBy};
ghost use Rattle.ec_marking.specs.Marks.{IsMark};
ghost use Rattle.ec_world.specs.Serving.{Breaks, left_in, stopped_in, with_durable};
ghost use Rattle.ec_marking.specs.Signs.{sign_of};
ghost use Rattle.ec_world.specs.StepEnds.{under};
ghost use Rattle.ec_world.specs.Worlds.{view_of, IsInStep};
ghost use Rattle.ec_clerk.specs.declared.running.fault.StepFault.TheVariants as fault;

use crate::cutting::cut_power;
use crate::world::World;
use ec_base::trace::Trace;
use ec_clerk::running::StepFault;
use ec_disk::CrashDisk;
use ec_durable::Record;
use ec_history::Shown;
use ec_marking::{Mark, Sign};
use std::alloc::Global;

impl World {
    // Cuts the power, and goes on with the store that is left. Tells whether the record of the sign is in it; then the records are these.
    pub(crate) fn cut_off<D: CrashDisk>(
        &mut self,
        alloc: Global,
        disk: &mut D,
        sign: Sign,
        records: Trace<Record>,
    ) -> Result<bool, StepFault>
        requires { self.old.server ≡ None }
        ensures ok { IfOk result (λ there. D.tells → (r : Change) (d e : Durable) → sign ≡ sign_of r → records.items ≡ self.old.records.items ++ r ∷ [] → step r d ≡ Ok e → LeavesEither r d (D.view disk.old) → view_of self.new ≡ left_in there r (with_durable d (view_of self.old))) }
        ensures chosen { IfOk result (λ there. D.tells → (r : Change) (d e : Durable) → sign ≡ sign_of r → step r d ≡ Ok e → LeavesBy self.old.choice d e (D.view disk.old) there) }
        ensures server { self.new.server ≡ None }
        ensures piece { self.new.piece ≡ self.old.piece }
        ensures held { OnOk result (D.tells → IsHeld (D.view disk.new) self.new.store) }
        ensures left { D.tells → (r : Change) (d : Durable) → LeavesEither r d (D.view disk.old) → LeavesEither r d (D.view disk.new) }
        ensures err { IfErr result Breaks }
        ensures counts { Counted (D.counts disk.old) (D.counts disk.new) (result ≡ Err fault.DiskFailed) ⊥ }
        ensures disarmed { OnOk result ((D.counts disk.new).armed ≡ None) }
    {
        let (store, is_there) = cut_power(alloc, disk, self.choice, sign)?;
        self.store = store;
        if is_there {
            self.records = records;
        }
        Ok(is_there)
    }

    // The disk stopped in the record of the server's step. A restart is to show the record, where it's left.
    pub(crate) fn stop_in<D: CrashDisk>(
        &mut self,
        alloc: Global,
        disk: &mut D,
        mark: Mark,
    ) -> Result<(), StepFault>
        requires { self.old.piece.items ≡ [] }
        ensures ok { OnOk result ((r : Change) (d e : Durable) → IsMark mark r d self.old.records.items → step r d ≡ Ok e → (D.tells → LeavesEither r d (D.view disk.old)) → (there : Bool) × (D.tells → machine.show_line show.Stopped (machine.moving (stopped_in there r (with_durable d (view_of self.old)))) ≡ under self.new) × (D.tells → LeavesBy self.old.choice d e (D.view disk.old) there)) }
        ensures in_step { OnOk result (IsInStep D.tells (D.view disk.new) self.new) }
        ensures left { D.tells → (r : Change) (d : Durable) → LeavesEither r d (D.view disk.old) → LeavesEither r d (D.view disk.new) }
        ensures err { IfErr result Breaks }
        ensures counts { Counted (D.counts disk.old) (D.counts disk.new) (result ≡ Err fault.DiskFailed) ⊥ }
        ensures disarmed { OnOk result ((D.counts disk.new).armed ≡ None) }
    {
        let Mark {
            noted,
            sign,
            records,
        } = mark;
        self.server = None;
        if self.cut_off(alloc, disk, sign, records)? {
            self.unshown = noted;
        }
        Ok(self.show_line(alloc, Shown::Stopped)?)
    }
}
