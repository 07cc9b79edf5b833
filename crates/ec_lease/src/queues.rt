// Calls of held clerks wait in queues, and begin as soon as their clerk isn't held.
ghost use Rattle.std.specs.Prelude.{◌≡◌, ◌<◌, ◌+◌, [], false, length, IfErr, OnOk};
ghost use Rattle.ec_base.specs.Limits.{clerk_count};
ghost use Rattle.ec_base.specs.Tables.{at_or};
ghost use Rattle.ec_lease.specs.Queued.{begin_from};
ghost use Rattle.ec_lease.specs.Steps.{QueuesNot};
ghost use Rattle.ec_lease.specs.Worlds.{ended_with, under_way, leased, KeepsServer};
ghost use Rattle.ec_lease_machine.specs.Leases as leases;
ghost use Rattle.ec_protocol.specs.Resumes as resumes;
ghost use Rattle.ec_lease_machine.specs.declared.world.LeaseFault.TheVariants as lease_fault;
ghost use Rattle.ec_protocol.specs.World as machine;

use crate::shows::{of_world, told};
use crate::world::LeaseWorld;
use ec_base::{CLERK_COUNT, ClerkId, NoMemory};
use ec_lease_machine::{LeaseFault, LeaseShown};
use ec_plain::Call;
use std::alloc::Global;

impl LeaseWorld {
    // The call of a held clerk is queued, and its line shows that it waits.
    pub(crate) fn queue(
        &mut self,
        alloc: Global,
        clerk: ClerkId,
        line: u32,
        call: Call,
    ) -> Result<(), LeaseFault>
        requires { self.old.piece.items ≡ [] }
        ensures ok { OnOk result (leases.queue clerk line call (leased self.old) ≡ under_way self.new) }
        ensures err { IfErr result (λ fault. fault ≡ lease_fault.NoMemory) }
        ensures same { KeepsServer self.old self.new }
    {
        match self.world.wait(alloc, clerk, line, &call) {
            Ok(shown) => {
                told(self.book.queue(alloc, clerk, line, call))?;
                self.show(LeaseShown::Line(shown))
            }
            Err(_) => {
                drop(call);
                Err(LeaseFault::NoMemory)
            }
        }
    }

    // In the order of the clerks queued calls begin, as long as their clerk isn't held.
    pub(crate) fn begin_queued(&mut self, alloc: Global) -> Result<(), LeaseFault>
        ensures ok { OnOk result (leases.begin_queued machine.clerks (under_way self.old) ≡ under_way self.new) }
        ensures err { IfErr result (λ fault. QueuesNot fault (leases.begin_queued machine.clerks (under_way self.old)) (ended_with fault self.new)) }
        ensures same { KeepsServer self.old self.new }
    {
        'clerks: for number in 0..CLERK_COUNT {
            self.begin_of(alloc, number)?;
        }
        Ok(())
    }

    // The clerk of this number.
    fn begin_of(&mut self, alloc: Global, number: u8) -> Result<(), LeaseFault>
        requires { number < clerk_count }
        ensures ok { OnOk result (begin_from number 0 self.old ≡ under_way self.new) }
        ensures err { IfErr result (λ fault. QueuesNot fault (begin_from number 0 self.old) (ended_with fault self.new)) }
        ensures same { KeepsServer self.old self.new }
    {
        match ClerkId::new(number) {
            Some(clerk) => self.begin_each(alloc, clerk),
            None => unreachable!(),
        }
    }

    fn begin_each(&mut self, alloc: Global, clerk: ClerkId) -> Result<(), LeaseFault>
        ensures ok { OnOk result (begin_from clerk 0 self.old ≡ under_way self.new) }
        ensures err { IfErr result (λ fault. QueuesNot fault (begin_from clerk 0 self.old) (ended_with fault self.new)) }
        ensures same { KeepsServer self.old self.new }
    {
        let count = self.book.queued(clerk);
        let mut begun = 0;
        'queue: while begun < count && !self.is_held(clerk) {
            self.begin_next(alloc, clerk, begun)?;
            begun += 1;
        }
        told(self.book.leave_behind(alloc, clerk, begun))
    }

    // The queued call behind so many.
    fn begin_next(&mut self, alloc: Global, clerk: ClerkId, begun: usize) -> Result<(), LeaseFault>
        requires more { begun < length (at_or [] clerk self.old.book.queued) }
        requires free { leases.is_held clerk (leased self.old) ≡ false }
        ensures ok { OnOk result (begin_from clerk begun self.old ≡ begin_from clerk (begun + 1) self.new) }
        ensures err { IfErr result (λ fault. QueuesNot fault (begin_from clerk begun self.old) (ended_with fault self.new)) }
        ensures book { self.new.book ≡ self.old.book }
        ensures same { KeepsServer self.old self.new }
    {
        match self.book.queued_at(clerk, begun) {
            Ok((line, call)) => self.begin_call(alloc, clerk, line, call),
            Err(NoMemory) => Err(LeaseFault::NoMemory),
        }
    }

    fn begin_call(
        &mut self,
        alloc: Global,
        clerk: ClerkId,
        line: u32,
        call: Call,
    ) -> Result<(), LeaseFault>
        ensures ok { OnOk result (leases.onward (under_way self.old) (leases.moved (resumes.resume clerk line call (leased self.old).world) (leased self.old)) ≡ under_way self.new) }
        ensures err { IfErr result (λ fault. QueuesNot fault (leases.onward (under_way self.old) (leases.moved (resumes.resume clerk line call (leased self.old).world) (leased self.old))) (ended_with fault self.new)) }
        ensures book { self.new.book ≡ self.old.book }
        ensures same { KeepsServer self.old self.new }
    {
        match self.world.resume(alloc, clerk, line, call) {
            Ok(shown) => self.show_all(shown),
            Err(fault) => Err(of_world(fault)),
        }
    }
}
