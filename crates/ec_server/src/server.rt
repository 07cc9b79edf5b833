// The server, as others call it.
ghost use Rattle.std.specs.Prelude.{◌≡◌, ◌↔◌, IfOk, IfErr, OnOk, IsOk, IsTrue, Err, None, true, false};
ghost use Rattle.ec_disk.specs.Effects.{Counted};
ghost use Rattle.ec_durable.specs.Durable.{slot};
ghost use Rattle.ec_durable.specs.WellFormed.{IsInOrder, WellFormed};
ghost use Rattle.ec_machine_laws.specs.OfAppliedOnce.Once.{record_list, NoneAgain, AllPast};
ghost use Rattle.ec_machine_laws.specs.OfAppliedOnce.SafeServers.{IsSafe};
ghost use Rattle.ec_sessions.specs.Slots.{is_open};
ghost use Rattle.ec_sessions.specs.OfTokens.SoundTokens.{AllApart};
ghost use Rattle.ec_wire.specs.Messages.{is_sound};
ghost use Rattle.ec_protocol.specs.Server as machine;
ghost use Rattle.ec_server.specs.Clerks.{Records};
ghost use Rattle.ec_server.specs.Keepers.{Did, Hurts, SpendsNothing};
ghost use Rattle.ec_server.specs.Servers.{standing, Does, Unstarted, GoesDown, StandsOn};
ghost use Rattle.ec_server.specs.Steps.{FaultLeaves};
ghost use Rattle.ec_durable.specs.declared.state.Durable.{Durable as Kept};
ghost use Rattle.ec_server.specs.declared.fault.ServerFault.TheVariants as fault;

use crate::fault::ServerFault;
use crate::keeper::Keeper;
use crate::state::Core;
use crate::wants::read_tokens;
use ec_base::ClerkId;
use ec_durable::Durable;
use ec_protocol::Served;
use ec_wire::Msg;
use std::alloc::Global;

/// A server. What keeps its durable state is lent to each call.
pub struct Server {
    core: Core,
    // a step was left in the middle
    is_down: bool,
}

// Who drops one calls this, and needn't take it apart.
impl Drop for Server {
    fn drop(self) {
        let Server { core, is_down: _ } = self;
        drop(core);
    }
}

impl Server {
    /// Starts a server on what its keeper keeps: a new epoch begins, and each clerk is told.
    ///
    /// # Errors
    ///
    /// `Spent` exactly where the epochs are spent, and then nothing has changed.
    pub fn start<K: Keeper>(alloc: Global, keeper: &mut K) -> Result<(Server, Served), ServerFault>
        ensures ok { IfOk result (λ made. Does (machine.start (K.kept keeper.old)) (K.kept keeper.new) made.0 made.1) }
        ensures err { IfErr result (λ fault. Unstarted fault (machine.start (K.kept keeper.old)) (K.kept keeper.old) (K.kept keeper.new)) }
        ensures counts { Counted (K.counts keeper.old) (K.counts keeper.new) (result ≡ Err fault.DiskFailed) (result ≡ Err fault.DiskStopped) }
        ensures did { IfOk result (λ made. Did K.did made.1.rec keeper.old keeper.new) }
        ensures keeper { IfErr result (λ fault. Hurts SpendsNothing K.did K.broke fault (machine.start (K.kept keeper.old)) keeper.old keeper.new) }
        ensures stands { IfOk result (λ made. StandsOn (K.kept keeper.new) made.0) }
        ensures record { IfOk result (λ made. Records made.1.rec (K.kept keeper.old) (K.kept keeper.new)) }
        ensures safe { IfOk result (λ made. WellFormed (K.kept keeper.old) → IsSafe (standing (K.kept keeper.new) made.0)) }
        ensures once { IfOk result (λ made. NoneAgain (record_list made.1.rec) (K.kept keeper.old) (K.kept keeper.new)) }
    {
        let mut core = Core::new(alloc)?;
        core.start(keeper)?;
        let served = core.served();
        Ok((
            Server {
                core,
                is_down: false,
            },
            served,
        ))
    }

    /// The durable state behind the steps so far.
    pub fn view<'a, K: Keeper>(&self, keeper: &'a K) -> &'a Durable
        ensures { result.now ≡ K.kept keeper.now }
    {
        keeper.view()
    }

    /// Takes a sound message of a clerk: what is sent, in order, and the record that was committed, if any. The keeper is the one
    /// that this server was started on.
    ///
    /// # Errors
    ///
    /// `Spent` exactly where the step would spend this counter, and then nothing has changed. After any other fault the server
    /// answers `NoMemory` until it's started again.
    pub fn take<K: Keeper>(
        &mut self,
        keeper: &mut K,
        from: ClerkId,
        msg: &Msg,
    ) -> Result<Served, ServerFault>
        requires sound { IsTrue (is_sound msg.now) }
        requires keeper { StandsOn (K.kept keeper.old) self.old }
        ensures ok { IfOk result (λ served. Does (machine.take from msg.now (standing (K.kept keeper.old) self.old)) (K.kept keeper.new) self.new served) }
        ensures err { IfErr result (λ fault. FaultLeaves fault (K.counts keeper.old) (K.counts keeper.new) (machine.take from msg.now (standing (K.kept keeper.old) self.old)) (standing (K.kept keeper.old) self.old) (standing (K.kept keeper.new) self.new)) }
        ensures did { IfOk result (λ served. Did K.did served.rec keeper.old keeper.new) }
        ensures keeper { IfErr result (λ fault. Hurts SpendsNothing K.did K.broke fault (machine.take from msg.now (standing (K.kept keeper.old) self.old)) keeper.old keeper.new) }
        ensures rests { self.old.is_down ≡ true → keeper.new ≡ keeper.old }
        ensures counts { Counted (K.counts keeper.old) (K.counts keeper.new) (result ≡ Err fault.DiskFailed) (result ≡ Err fault.DiskStopped) }
        ensures down { GoesDown result self.old.is_down self.new.is_down }
        ensures stands { StandsOn (K.kept keeper.new) self.new }
        ensures record { IfOk result (λ served. Records served.rec (K.kept keeper.old) (K.kept keeper.new)) }
        ensures apart { AllApart (standing (K.kept keeper.new) self.new).tokens }
        ensures safe { self.new.is_down ≡ false → IsSafe (standing (K.kept keeper.old) self.old) → IsSafe (standing (K.kept keeper.new) self.new) }
        ensures once { IfOk result (λ served. NoneAgain (record_list served.rec) (K.kept keeper.old) (K.kept keeper.new)) }
        ensures now { IfOk result (λ served. IsInOrder (K.kept keeper.old) → AllPast (record_list served.rec) (K.kept keeper.new)) }
    {
        read_tokens(&self.core.tokens);
        if self.is_down {
            return Err(ServerFault::NoMemory);
        }
        let done = self.core.take(keeper, from, msg);
        self.answer(done)
    }

    /// Ends the clerk's open session. There is a record exactly where it had one.
    ///
    /// The keeper, and the errors, are as in `take`.
    pub fn end<K: Keeper>(&mut self, keeper: &mut K, clerk: ClerkId) -> Result<Served, ServerFault>
        requires { StandsOn (K.kept keeper.old) self.old }
        ensures ok { IfOk result (λ served. Does (machine.end clerk (standing (K.kept keeper.old) self.old)) (K.kept keeper.new) self.new served) }
        ensures none { IfOk result (λ served. (served.rec ≡ None) ↔ (is_open (slot (K.kept keeper.old) clerk) ≡ false)) }
        ensures err { IfErr result (λ fault. FaultLeaves fault (K.counts keeper.old) (K.counts keeper.new) (machine.end clerk (standing (K.kept keeper.old) self.old)) (standing (K.kept keeper.old) self.old) (standing (K.kept keeper.new) self.new)) }
        ensures did { IfOk result (λ served. Did K.did served.rec keeper.old keeper.new) }
        ensures keeper { IfErr result (λ fault. Hurts SpendsNothing K.did K.broke fault (machine.end clerk (standing (K.kept keeper.old) self.old)) keeper.old keeper.new) }
        ensures rests { self.old.is_down ≡ true → keeper.new ≡ keeper.old }
        ensures counts { Counted (K.counts keeper.old) (K.counts keeper.new) (result ≡ Err fault.DiskFailed) (result ≡ Err fault.DiskStopped) }
        ensures down { GoesDown result self.old.is_down self.new.is_down }
        ensures stands { StandsOn (K.kept keeper.new) self.new }
        ensures record { IfOk result (λ served. Records served.rec (K.kept keeper.old) (K.kept keeper.new)) }
        ensures apart { AllApart (standing (K.kept keeper.new) self.new).tokens }
        ensures safe { self.new.is_down ≡ false → IsSafe (standing (K.kept keeper.old) self.old) → IsSafe (standing (K.kept keeper.new) self.new) }
        ensures once { IfOk result (λ served. NoneAgain (record_list served.rec) (K.kept keeper.old) (K.kept keeper.new)) }
        ensures now { IfOk result (λ served. IsInOrder (K.kept keeper.old) → AllPast (record_list served.rec) (K.kept keeper.new)) }
    {
        read_tokens(&self.core.tokens);
        if self.is_down {
            return Err(ServerFault::NoMemory);
        }
        let done = self.core.end(keeper, clerk);
        self.answer(done)
    }

    // What came of a step. After any fault but a spent counter the server is down.
    fn answer(&mut self, done: Result<(), ServerFault>) -> Result<Served, ServerFault>
        requires { self.old.is_down ≡ false }
        ensures ok { IfOk result (λ served. IsOk done × (served.sent ≡ self.old.core.sent.items) × (served.rec ≡ self.old.core.rec)) }
        ensures err { IfErr result (λ fault. done ≡ Err fault) }
        ensures same { (d : Kept) → standing d self.new ≡ standing d self.old }
        ensures down { GoesDown result self.old.is_down self.new.is_down }
        ensures apart { AllApart self.old.core.tokens }
    {
        read_tokens(&self.core.tokens);
        match done {
            Ok(()) => Ok(self.core.served()),
            Err(ServerFault::Spent(counter)) => Err(ServerFault::Spent(counter)),
            Err(fault) => {
                self.is_down = true;
                Err(fault)
            }
        }
    }
}
