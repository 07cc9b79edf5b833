// What a step under way shows.
ghost use Rattle.std.specs.Prelude.{◌≡◌, ◌++◌, ◌∷◌, [], map, IfErr, IsOk, OnOk};
ghost use Rattle.ec_lease.specs.Steps.{as_lease_fault};
ghost use Rattle.ec_lease_machine.specs.declared.world.LeaseShown.TheVariants as show;
ghost use Rattle.ec_lease_machine.specs.declared.world.LeaseFault.TheVariants as fault;

use crate::world::LeaseWorld;
use ec_base::NoMemory;
use ec_history::Shown;
use ec_lease_machine::{LeaseFault, LeaseShown};
use ec_protocol::WorldFault;

impl LeaseWorld {
    // The lines of a step of the world.
    pub(crate) fn show_all(&mut self, lines: Vec<Shown>) -> Result<(), LeaseFault>
        ensures piece { OnOk result (self.new.piece.items ≡ self.old.piece.items ++ map show.Line lines.items) }
        ensures err { IfErr result (λ why. why ≡ fault.NoMemory) }
        ensures world { self.new.world ≡ self.old.world }
        ensures book { self.new.book ≡ self.old.book }
    {
        'lines: for line in lines {
            self.show(LeaseShown::Line(line))?;
        }
        Ok(())
    }

    pub(crate) fn show(&mut self, line: LeaseShown) -> Result<(), LeaseFault>
        ensures piece { OnOk result (self.new.piece.items ≡ self.old.piece.items ++ line ∷ []) }
        ensures err { IfErr result (λ why. why ≡ fault.NoMemory) }
        ensures world { self.new.world ≡ self.old.world }
        ensures book { self.new.book ≡ self.old.book }
    {
        match self.piece.push(line) {
            Ok(()) => Ok(()),
            Err(_) => Err(LeaseFault::NoMemory),
        }
    }
}

// Want of memory, as a world with leases tells it.
pub(crate) fn told(done: Result<(), NoMemory>) -> Result<(), LeaseFault>
    ensures ok { OnOk result (IsOk done) }
    ensures err { IfErr result (λ why. why ≡ fault.NoMemory) }
{
    match done {
        Ok(()) => Ok(()),
        Err(NoMemory) => Err(LeaseFault::NoMemory),
    }
}

// A fault of a world, as one with leases tells it.
pub(crate) fn of_world(why: WorldFault) -> LeaseFault
    ensures { result ≡ as_lease_fault why }
{
    match why {
        WorldFault::NoMemory => LeaseFault::NoMemory,
        why => LeaseFault::World(why),
    }
}
