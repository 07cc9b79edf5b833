// The server's step, in words that stay folded above.
ghost use Rattle.std.specs.Prelude.{◌≡◌, IfOk, IfErr, OnOk, IsTrue, Err};
ghost use Rattle.ec_disk.specs.Effects.{Counted};
ghost use Rattle.ec_wire.specs.Messages.{is_sound};
ghost use Rattle.ec_server.specs.Servers.{standing, Does, StandsOn};
ghost use Rattle.ec_server.specs.Keepers.{Did, Hurts, SpendsNothing};
ghost use Rattle.ec_server.specs.declared.fault.ServerFault.TheVariants as fault;
ghost use Rattle.ec_servernode.specs.Folded.{message_taken as taken, session_ended as ended};
ghost use Rattle.ec_servernode.specs.Steps.{RefusesMessage};

use ec_base::ClerkId;
use ec_protocol::Served;
use ec_server::{Keeper, Server, ServerFault};
use ec_wire::Msg;

/// Takes a sound message of a clerk. Faults are the server's.
#[tactic(auto, unfolding(crate::specs::Folded::message_taken))]
pub fn take<K: Keeper>(
    server: &mut Server,
    keeper: &mut K,
    from: ClerkId,
    msg: &Msg,
) -> Result<Served, ServerFault>
    requires sound { IsTrue (is_sound msg.now) }
    requires stands { StandsOn (K.kept keeper.old) server.old }
    ensures ok { IfOk result (λ served. Does (taken from msg.now (standing (K.kept keeper.old) server.old)) (K.kept keeper.new) server.new served) }
    ensures did { IfOk result (λ served. Did K.did served.rec keeper.old keeper.new) }
    ensures err { IfErr result (λ f. RefusesMessage f (taken from msg.now (standing (K.kept keeper.old) server.old)) (standing (K.kept keeper.old) server.old) (standing (K.kept keeper.new) server.new) keeper.old keeper.new) }
    ensures hurts { IfErr result (λ f. Hurts SpendsNothing K.did K.broke f (taken from msg.now (standing (K.kept keeper.old) server.old)) keeper.old keeper.new) }
    ensures counts { Counted (K.counts keeper.old) (K.counts keeper.new) (result ≡ Err fault.DiskFailed) (result ≡ Err fault.DiskStopped) }
    ensures stands { StandsOn (K.kept keeper.new) server.new }
{
    server.take(keeper, from, msg)
}

/// Ends the open session of a clerk. Faults are the server's.
#[tactic(auto, unfolding(crate::specs::Folded::session_ended))]
pub fn end<K: Keeper>(
    server: &mut Server,
    keeper: &mut K,
    clerk: ClerkId,
) -> Result<Served, ServerFault>
    requires { StandsOn (K.kept keeper.old) server.old }
    ensures ok { IfOk result (λ served. Does (ended clerk (standing (K.kept keeper.old) server.old)) (K.kept keeper.new) server.new served) }
    ensures did { IfOk result (λ served. Did K.did served.rec keeper.old keeper.new) }
    ensures err { IfErr result (λ f. RefusesMessage f (ended clerk (standing (K.kept keeper.old) server.old)) (standing (K.kept keeper.old) server.old) (standing (K.kept keeper.new) server.new) keeper.old keeper.new) }
    ensures hurts { IfErr result (λ f. Hurts SpendsNothing K.did K.broke f (ended clerk (standing (K.kept keeper.old) server.old)) keeper.old keeper.new) }
    ensures counts { Counted (K.counts keeper.old) (K.counts keeper.new) (result ≡ Err fault.DiskFailed) (result ≡ Err fault.DiskStopped) }
    ensures stands { StandsOn (K.kept keeper.new) server.new }
{
    server.end(keeper, clerk)
}
