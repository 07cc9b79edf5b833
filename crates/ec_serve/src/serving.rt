// A server over a disk and a net.
ghost use Rattle.std.specs.Prelude.{◌≡◌, ◌≤◌};
ghost use Rattle.ec_link.specs.Spawns.{faults_of};
ghost use Rattle.ec_protocol.specs.Server as machine;
ghost use Rattle.ec_server.specs.Servers.{Does, StandsOn};
ghost use Rattle.ec_servernode.specs.Node.{state_of, queue_at};
ghost use Rattle.ec_servernode.specs.TurnSteps.{IsServerPass};
ghost use Rattle.ec_lock.specs.PassViews.{first};
ghost use Rattle.ec_store.specs.Store.{IsHeld, view_of};
ghost use Rattle.ec_serve.specs.Asking.{AsksOnce};
ghost use Rattle.ec_serve.specs.Serve.{Outer, Serves};
ghost use Rattle.ec_serve.specs.ServerRuns.{ServesOn, EndsBy, RanFrom, RanServer};

use crate::ending::{Ending, ending_of, unopened, unstarted};
use crate::opening::store_on;
use crate::tending::tend;
use ec_disk::Disk;
use ec_link::{Around, Net, Spawner};
use ec_marking::keeper::DiskKeeper;
use ec_protocol::Served;
use ec_server::{Keeper, Server};
use ec_servernode::{ServerPass, SharedServer};
use ec_store::Store;
use std::io::Eprint;

/// Where a server listens, and how many links it serves.
#[derive(Drop)]
pub struct Listening<'a> {
    pub addr: &'a str,
    pub count: u32,
}

/// Opens the disk, of which an empty one is formatted first, and serves so many links that come at the address, each in a thread of its
/// own. It ends when all have gone. A fault of one link ends that link alone; where the disk fails or a counter is spent, no further link
/// is served.
pub fn serve<D: Disk + Send, N: Net, R: Around + Eprint>(
    rt: &R,
    disk: &mut D,
    net: &mut N,
    spawner: &mut Spawner,
    to: Listening<'_>,
) -> Ending
    ensures later { (N.faults net.old ≤ N.faults net.new) × (faults_of spawner.old ≤ faults_of spawner.new) }
    ensures asked { AsksOnce to.entry.addr.now (N.asked net.old) (N.asked net.new) }
    ensures counts { ((D.counts disk.old).faults ≤ (D.counts disk.new).faults) × ((D.counts disk.old).stops ≤ (D.counts disk.new).stops) }
    ensures serves { Serves to.entry.count result
        (record {
          tells = D.tells;
          disk = D.view disk.old;
          disk_after = D.view disk.new;
          counts = D.counts disk.old;
          counts_after = D.counts disk.new;
          links = record { faults = N.faults net.old; bad = N.bad net.old; ended = N.ended net.old; starts = faults_of spawner.old };
          links_after = record { faults = N.faults net.new; bad = N.bad net.new; ended = N.ended net.new; starts = faults_of spawner.new };
        }) }
{
    let mut store = match store_on(rt.alloc(), disk) {
        Ok(store) => store,
        Err(fault) => return unopened(fault),
    };
    serve_store(rt, &mut store, disk, net, spawner, to)
}

// Serves what stands on an opened disk.
fn serve_store<D: Disk + Send, N: Net, R: Around + Eprint>(
    rt: &R,
    store: &mut Store,
    disk: &mut D,
    net: &mut N,
    spawner: &mut Spawner,
    to: Listening<'_>,
) -> Ending
    requires held { D.tells → IsHeld (D.view disk.old) store.old }
    ensures later { (N.faults net.old ≤ N.faults net.new) × (faults_of spawner.old ≤ faults_of spawner.new) }
    ensures asked { AsksOnce to.entry.addr.now (N.asked net.old) (N.asked net.new) }
    ensures counts { ((D.counts disk.old).faults ≤ (D.counts disk.new).faults) × ((D.counts disk.old).stops ≤ (D.counts disk.new).stops) }
    ensures serves { ServesOn (view_of store.old) to.entry.count result
        (record {
          tells = D.tells;
          disk = D.view disk.old;
          disk_after = D.view disk.new;
          counts = D.counts disk.old;
          counts_after = D.counts disk.new;
          links = record { faults = N.faults net.old; bad = N.bad net.old; ended = N.ended net.old; starts = faults_of spawner.old };
          links_after = record { faults = N.faults net.new; bad = N.bad net.new; ended = N.ended net.new; starts = faults_of spawner.new };
        }) }
{
    let keeper = DiskKeeper::new(store, disk);
    let (_, ending) = serve_kept(rt, keeper, net, spawner, to);
    ending
}

// The same by a keeper of the store and its disk, which comes back.
fn serve_kept<'a, D: Disk + Send, N: Net, R: Around + Eprint>(
    rt: &R,
    keeper: DiskKeeper<'a, D>,
    net: &mut N,
    spawner: &mut Spawner,
    to: Listening<'_>,
) -> (DiskKeeper<'a, D>, Ending)
    requires held { D.tells → IsHeld (D.view keeper.disk.now) keeper.store.now }
    ensures same { (result.0.store.ghost_name ≡ keeper.entry.store.ghost_name) × (result.0.disk.ghost_name ≡ keeper.entry.disk.ghost_name) }
    ensures later { (N.faults net.old ≤ N.faults net.new) × (faults_of spawner.old ≤ faults_of spawner.new) }
    ensures asked { AsksOnce to.entry.addr.now (N.asked net.old) (N.asked net.new) }
    ensures counts { ((D.counts keeper.entry.disk.now).faults ≤ (D.counts result.0.disk.now).faults) × ((D.counts keeper.entry.disk.now).stops ≤ (D.counts result.0.disk.now).stops) }
    ensures serves { ServesOn (view_of keeper.entry.store.now) to.entry.count result.1
        (record {
          tells = D.tells;
          disk = D.view keeper.entry.disk.now;
          disk_after = D.view result.0.disk.now;
          counts = D.counts keeper.entry.disk.now;
          counts_after = D.counts result.0.disk.now;
          links = record { faults = N.faults net.old; bad = N.bad net.old; ended = N.ended net.old; starts = faults_of spawner.old };
          links_after = record { faults = N.faults net.new; bad = N.bad net.new; ended = N.ended net.new; starts = faults_of spawner.new };
        }) }
{
    serve_by(rt, keeper, net, spawner, to)
}

// Starts a server on what the keeper keeps, and serves. The keeper comes back.
fn serve_by<K: Keeper + Send + Drop, N: Net, R: Around + Eprint>(
    rt: &R,
    mut keeper: K,
    net: &mut N,
    spawner: &mut Spawner,
    to: Listening<'_>,
) -> (K, Ending)
    ensures later { (N.faults net.old ≤ N.faults net.new) × (faults_of spawner.old ≤ faults_of spawner.new) }
    ensures asked { AsksOnce to.entry.addr.now (N.asked net.old) (N.asked net.new) }
    ensures ends { EndsBy K.kept K.counts K.did K.broke to.entry.count result.1 keeper result.0
        (record { faults = N.faults net.old; bad = N.bad net.old; ended = N.ended net.old; starts = faults_of spawner.old })
        (record { faults = N.faults net.new; bad = N.bad net.new; ended = N.ended net.new; starts = faults_of spawner.new }) }
{
    match Server::start(rt.alloc(), &mut keeper) {
        Ok(started) => serve_started(rt, started, keeper, net, spawner, to),
        Err(fault) => (keeper, unstarted(fault)),
    }
}

// Serves by a server that was started.
fn serve_started<K: Keeper + Send + Drop, N: Net, R: Around + Eprint>(
    rt: &R,
    started: (Server, Served),
    keeper: K,
    net: &mut N,
    spawner: &mut Spawner,
    to: Listening<'_>,
) -> (K, Ending)
    requires { StandsOn (K.kept keeper) started.0 }
    ensures later { (N.faults net.old ≤ N.faults net.new) × (faults_of spawner.old ≤ faults_of spawner.new) }
    ensures asked { AsksOnce to.entry.addr.now (N.asked net.old) (N.asked net.new) }
    ensures ends { RanFrom K.kept K.counts K.did K.broke started.0 started.1.sent to.entry.count result.1 keeper result.0
        (record { faults = N.faults net.old; bad = N.bad net.old; ended = N.ended net.old; starts = faults_of spawner.old })
        (record { faults = N.faults net.new; bad = N.bad net.new; ended = N.ended net.new; starts = faults_of spawner.new }) }
{
    let (server, begun) = started;
    match SharedServer::over(rt.alloc(), server, begun, keeper) {
        Ok((server, pass)) => serve_shared(rt, server, pass, net, spawner, to),
        Err(keeper) => (keeper, Ending::NoMemory),
    }
}

// Serves by a shared server, and ends it.
fn serve_shared<K: Keeper + Send + Drop, N: Net, R: Around + Eprint>(
    rt: &R,
    server: SharedServer<K>,
    mut pass: ServerPass<K>,
    net: &mut N,
    spawner: &mut Spawner,
    to: Listening<'_>,
) -> (K, Ending)
    requires { IsServerPass K.kept server.lock pass }
    ensures later { (N.faults net.old ≤ N.faults net.new) × (faults_of spawner.old ≤ faults_of spawner.new) }
    ensures asked { AsksOnce to.entry.addr.now (N.asked net.old) (N.asked net.new) }
    ensures ends { RanServer K.kept K.counts K.did K.broke (state_of K.kept (first server.lock)) (queue_at (first server.lock).boxes.items) to.entry.count result.1 (first server.lock).keeper result.0
        (record { faults = N.faults net.old; bad = N.bad net.old; ended = N.ended net.old; starts = faults_of spawner.old })
        (record { faults = N.faults net.new; bad = N.bad net.new; ended = N.ended net.new; starts = faults_of spawner.new }) }
{
    let tended = tend(rt, &server, &mut pass, net, spawner, to);
    let (back, keeper, halt) = server.close(rt, &mut pass);
    let is_back = back.is_some();
    drop(back);
    (keeper, ending_of(halt, is_back, tended))
}
