// The links of a server, from the first to the last.
ghost use Rattle.std.specs.Prelude.{◌≡◌, ◌+◌, ◌≤◌, [], ◌∷◌, ◌++◌};
ghost use mathlib.Core.List.{IsPrefix};
ghost use Rattle.ec_lock.specs.PassViews.{front, numbers};
ghost use Rattle.ec_link.specs.NetAnswers.{faulted};
ghost use Rattle.ec_link.specs.Spawns.{faults_of};
ghost use Rattle.ec_link.specs.declared.spawn.Spawned.TheVariants as spawned;
ghost use Rattle.ec_servernode.specs.TurnSteps.{IsServerPass};
ghost use Rattle.ec_serve.specs.Asking.{AsksOnce};
ghost use Rattle.ec_serve.specs.ServerRuns.{Tends, tended_of};

use crate::ending::Tended;
use crate::serving::Listening;
use crate::threads::{Connections, Tally, run_all};
use ec_attend::bells::{Bells, Watch, tell_door, tell_no_door};
use ec_link::{Around, Net, NetFault, Spawned, Spawner};
use ec_server::Keeper;
use ec_servernode::{ServerPass, SharedServer};
use std::io::Eprint;

/// Serves so many links that come at the address, each in a thread of its own.
pub fn tend<K: Keeper + Send + Drop, N: Net, R: Around + Eprint>(
    rt: &R,
    server: &SharedServer<K>,
    pass: &mut ServerPass<K>,
    net: &mut N,
    spawner: &mut Spawner,
    to: Listening<'_>,
) -> Tended
    requires pass { IsServerPass K.kept server.now.lock pass.old }
    ensures pass { IsServerPass K.kept server.now.lock pass.new }
    ensures later { (N.faults net.old ≤ N.faults net.new) × (faults_of spawner.old ≤ faults_of spawner.new) }
    ensures asked { AsksOnce to.entry.addr.now (N.asked net.old) (N.asked net.new) }
    ensures tends { Tends to.entry.count result (numbers pass.new.pass) (front pass.new.pass)
        (record { faults = N.faults net.old; bad = N.bad net.old; ended = N.ended net.old; starts = faults_of spawner.old })
        (record { faults = N.faults net.new; bad = N.bad net.new; ended = N.ended net.new; starts = faults_of spawner.new }) }
{
    let Ok(watch) = Watch::new(rt, rt.alloc()) else {
        return Tended::Cut;
    };
    let (door, bell) = match open(rt, net, to.addr) {
        Ok(opened) => opened,
        Err(NetFault::Failed) => return Tended::NetFailed,
        Err(NetFault::NoMemory) => return Tended::Cut,
    };
    let Ok(bells) = Bells::new(rt.alloc(), bell) else {
        return Tended::Cut;
    };
    let mut connections = Connections {
        server,
        bells: &bells,
        door,
        number: 0,
        tally: Tally::new(to.count),
        watch: Some(watch),
    };
    let ran = run_all(rt, spawner, net, pass, &mut connections);
    tended_of(ran.spawned, ran.failed, ran.wants)
}

// Opens the door, with its bell.
fn open<N: Net, R: Around + Eprint>(
    rt: &R,
    net: &mut N,
    addr: &str,
) -> Result<(N::Door, N::DoorBell), NetFault>
    ensures faults { N.faults net.old + faulted result ≤ N.faults net.new }
    ensures same { (N.bad net.new ≡ N.bad net.old) × (N.ended net.new ≡ N.ended net.old) }
    ensures asked { N.asked net.new ≡ N.asked net.old ++ addr.now ∷ [] }
{
    match open_door(rt, net, addr) {
        Ok((door, bell)) => {
            tell_door(rt, addr, net.place(&door));
            Ok((door, bell))
        }
        Err(fault) => {
            tell_no_door(rt, addr, net.reason());
            Err(fault)
        }
    }
}

fn open_door<N: Net, R: Around>(
    rt: &R,
    net: &mut N,
    addr: &str,
) -> Result<(N::Door, N::DoorBell), NetFault>
    ensures faults { N.faults net.old + faulted result ≤ N.faults net.new }
    ensures same { (N.bad net.new ≡ N.bad net.old) × (N.ended net.new ≡ N.ended net.old) }
    ensures asked { N.asked net.new ≡ N.asked net.old ++ addr.now ∷ [] }
{
    let mut door = net.listen(rt, addr)?;
    let bell = net.door_bell(rt, &mut door)?;
    Ok((door, bell))
}

// How the links ended, by who started the threads, by whether the net failed, and by whether memory was wanting.
fn tended_of(spawned: Spawned, failed: bool, wants: bool) -> Tended
    ensures { result ≡ tended_of spawned failed wants }
{
    match spawned {
        Spawned::Failed => Tended::NotStarted,
        Spawned::NoMemory => Tended::Cut,
        Spawned::All => {
            if failed {
                Tended::NetFailed
            } else if wants {
                Tended::Cut
            } else {
                Tended::Done
            }
        }
    }
}
