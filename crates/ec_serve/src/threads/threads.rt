// Links that are served in threads of their own, which borrow the server.
ghost use Rattle.std.specs.Prelude.{◌≡◌, ◌+◌, ℕ, length, IfSome, IfNone, OnOk};
ghost use mathlib.Core.List.{IsPrefix};
ghost use Rattle.slab.specs.Slab.{slab_len, HasRoomFor};
ghost use Rattle.ec_link.specs.declared.spawn.Spawned.TheVariants as spawned;
ghost use Rattle.ec_link.specs.Spawns.{faults_of};
ghost use Rattle.ec_link.specs.JobCounts.{refused, refused_by};
ghost use Rattle.ec_lock.specs.PassViews.{front, numbers};
ghost use Rattle.ec_lock.specs.Steps.{Member, of};
ghost use Rattle.ec_servernode.specs.Run.{number_of};
ghost use Rattle.ec_servernode.specs.TurnSteps.{IsServerPass};
ghost use Rattle.ec_attend.specs.OverLinks.{EndsSo, BeginsSo, GoneSo};
ghost use Rattle.ec_serve.specs.OfThreads.Tallies.{KnowsMore, NoneComes, OneComes, AreLive, AllEnded, GivesBack};
ghost use Rattle.ec_serve.specs.OfThreads.ServingMoments.{AllServe, back_of, moment, GoesOn};

use crate::threads::connections::{Connections, Tally};
use ec_attend::{Connection, Ended, serve_connection, watch_over};
use ec_base::NoMemory;
use ec_link::{Around, Bell, Link, Net, Spawned, Spawner};
use ec_server::Keeper;
use ec_servernode::{ServerPass, SharedServer};
use slab::Slab;
use std::io::Eprint;
use std::snapshot::Snapshot;
use std::thread;
use std::thread::{Promise, PromisedHandle, Scope};

// What is known of the end of a link of this server.
#[derive(Drop)]
struct Kept<K: Keeper + Drop>(Snapshot<SharedServer<K>>);

impl<K: Keeper + Drop, L: Link + Drop> Promise<Ended<K, L>> for Kept<K> {
    ghost use Rattle.ec_servernode.specs.TurnSteps.{IsServerPass};
    ghost use Rattle.ec_attend.specs.OverLinks.{EndsSo, GoneSo};

    ghost kept_by = { λ kept out. IsServerPass K.kept kept.0.value.lock out.pass × EndsSo L.faults L.closes L.given out.is_over out.pass.pass out.link × GoneSo L.given L.got out.is_over out.pass.pass out.link };
}

// A link that is being served.
#[derive(Drop)]
struct Started<K: Keeper + Drop, L: Link + Drop> {
    handle: PromisedHandle<Ended<K, L>, Kept<K>>,
}

// The scope of the threads that serve links, and the runtime that they use.
#[derive(Drop)]
struct Scoped<'r, 's, E, R> {
    rt: &'s R,
    scope: &'r Scope<'s, E>,
}

// Starts to serve a link that is to have this key, or drops it.
fn start<
    's,
    'a,
    'b,
    E,
    K: Keeper + Send + Drop,
    L: Link + Send + Drop,
    D: Bell + Send + Sync + Drop,
    R: Around + Eprint,
>(
    scoped: &Scoped<'_, 's, E, R>,
    spawner: &mut Spawner,
    connection: Connection<'a, 'b, K, L, D>,
    key: usize,
) -> Option<Started<K, L>>
where
    'a: 's,
    'b: 's,
    K: 's,
    L: 's,
    L::Bell: 's,
    D: 's,
    requires { IsServerPass K.kept connection.server.now.lock connection.pass × BeginsSo L.given L.got connection.pass.pass connection.link }
    ensures some { IfSome result (λ started. (started.handle.promise.0.value ≡ connection.entry.server.now) × (faults_of spawner.new ≡ faults_of spawner.old)) }
    ensures none { IfNone result (faults_of spawner.new ≡ faults_of spawner.old + 1) }
{
    let kept = Kept(Snapshot::of(connection.server));
    let rt = scoped.rt;
    let handle = spawner.start(
        scoped.scope,
        kept,
        move || -> Ended<K, L>
            requires { IsServerPass K.kept connection.server.now.lock connection.pass × BeginsSo L.given L.got connection.pass.pass connection.link }
            ensures { IsServerPass K.kept connection.entry.server.now.lock result.pass × EndsSo L.faults L.closes L.given result.is_over result.pass.pass result.link × GoneSo L.given L.got result.is_over result.pass.pass result.link }
        { serve_connection(rt, connection, key) },
    )?;
    Some(Started { handle })
}

// What is known of the warden's pass.
#[derive(Drop)]
struct KeptPass<K: Keeper + Drop>(Snapshot<SharedServer<K>>);

impl<K: Keeper + Drop> Promise<ServerPass<K>> for KeptPass<K> {
    ghost use Rattle.ec_servernode.specs.TurnSteps.{IsServerPass};

    ghost kept_by = { λ kept out. IsServerPass K.kept kept.0.value.lock out };
}

// The warden, in a thread of its own.
#[derive(Drop)]
struct Warden<K: Keeper + Drop> {
    handle: PromisedHandle<ServerPass<K>, KeptPass<K>>,
}

// Starts the warden behind the first link, once. It draws its pass from the server's own.
fn start_warden<'s, 'a, 'b, E, K: Keeper + Send + Drop, N: Net, R: Around + Eprint>(
    scoped: &Scoped<'_, 's, E, R>,
    spawner: &mut Spawner,
    pass: &mut ServerPass<K>,
    connections: &mut Connections<'a, 'b, K, N>,
    warden: &mut Option<Warden<K>>,
) -> Option<Spawned>
where
    'a: 's,
    'b: 's,
    K: 's,
    N::Link: 's,
    <N::Link as Link>::Bell: 's,
    N::DoorBell: 's,
    requires pass { IsServerPass K.kept connections.old.server.now.lock pass.old }
    requires warden { IfSome warden.old (λ w. w.handle.promise.0.value ≡ connections.old.server.now) }
    ensures pass { IsServerPass K.kept connections.new.server.now.lock pass.new }
    ensures others { (connections.new.server ≡ connections.old.server) × (connections.new.tally ≡ connections.old.tally) }
    ensures knows { KnowsMore pass.old.pass pass.new.pass }
    ensures warden { IfSome warden.new (λ w. w.handle.promise.0.value ≡ connections.old.server.now) }
    ensures not_all { IfSome result (λ s. s ≡ spawned.All → ⊥) }
    ensures faults { faults_of spawner.new ≡ faults_of spawner.old + refused_by result }
{
    if connections.number == 0 {
        return None;
    }
    let Some(watch) = connections.watch.take() else {
        return None;
    };
    let server = connections.server;
    let bells = connections.bells;
    let rt = scoped.rt;
    let Some(own) = server.split(rt, pass) else {
        return Some(Spawned::NoMemory);
    };
    let kept = KeptPass(Snapshot::of(server));
    let started = spawner.start(
        scoped.scope,
        kept,
        move || -> ServerPass<K>
            requires { IsServerPass K.kept server.now.lock own }
            ensures { IsServerPass K.kept server.entry.now.lock result }
        { watch_over(rt, server, bells, own, watch) },
    );
    match started {
        Some(handle) => {
            *warden = Some(Warden { handle });
            None
        }
        None => Some(Spawned::Failed),
    }
}

// Lets the warden end, and takes its pass into the server's own.
fn end_warden<K: Keeper + Drop, N: Net, R: Around>(
    rt: &R,
    pass: &mut ServerPass<K>,
    connections: &Connections<'_, '_, K, N>,
    warden: Option<Warden<K>>,
)
    requires pass { IsServerPass K.kept connections.now.server.now.lock pass.old }
    requires warden { IfSome warden (λ w. w.handle.promise.0.value ≡ connections.now.server.now) }
    ensures pass { IsServerPass K.kept connections.now.server.now.lock pass.new }
    ensures later { IsPrefix (front pass.old.pass) (front pass.new.pass) }
    ensures kept { (n : ℕ) → Member n (numbers pass.old.pass) → Member n (numbers pass.new.pass) }
    ensures own { (n : ℕ) → Member n (numbers pass.old.pass) → of number_of n (front pass.old.pass) ≡ of number_of n (front pass.new.pass) }
{
    connections.bells.finish();
    if let Some(warden) = warden {
        let Warden { handle } = warden;
        let back = handle.join(rt);
        connections.server.join(pass, back);
    }
}

// What was started and hasn't been waited for.
#[derive(Drop)]
struct Live<K: Keeper + Drop, L: Link + Drop> {
    links: Slab<Started<K, L>>,
    warden: Option<Warden<K>>,
    /// How often the bell of the door had rung before it was last looked for links that have ended.
    seen: u64,
}

// Serves link after link, and gives back each that has ended.
fn serve_all<'s, 'a, 'b, E, K: Keeper + Send + Drop, N: Net, R: Around + Eprint>(
    scoped: &Scoped<'_, 's, E, R>,
    spawner: &mut Spawner,
    net: &mut N,
    pass: &mut ServerPass<K>,
    connections: &mut Connections<'a, 'b, K, N>,
    live: &mut Live<K, N::Link>,
) -> Spawned
where
    'a: 's,
    'b: 's,
    K: 's,
    N::Link: 's,
    <N::Link as Link>::Bell: 's,
    N::DoorBell: 's,
    requires pass { IsServerPass K.kept connections.old.server.now.lock pass.old }
    requires kept { AllServe (λ one. one.handle.promise.0.value) connections.old.server.now live.old.links }
    requires warden { IfSome live.old.warden (λ w. w.handle.promise.0.value ≡ connections.old.server.now) }
    ensures pass { IsServerPass K.kept connections.new.server.now.lock pass.new }
    ensures server { connections.new.server ≡ connections.old.server }
    ensures goes { GoesOn N.faults N.bad N.ended (back_of N.Link.faults N.Link.closes N.Link.given N.Link.got)
        (moment net.old connections.old.tally pass.old.pass) (moment net.new connections.new.tally pass.new.pass) }
    ensures asked { N.asked net.new ≡ N.asked net.old }
    ensures each { result ≡ spawned.All → AreLive connections.old.tally connections.new.tally (slab_len live.old.links) (slab_len live.new.links) }
    ensures over { result ≡ spawned.All → NoneComes connections.new.tally }
    ensures kept { AllServe (λ one. one.handle.promise.0.value) connections.old.server.now live.new.links }
    ensures warden { IfSome live.new.warden (λ w. w.handle.promise.0.value ≡ connections.old.server.now) }
    ensures faults { faults_of spawner.new ≡ faults_of spawner.old + refused result }
{
    for _ in scoped.rt.forever() {
        live.seen = connections.bells.rings();
        give_back_ended(scoped.rt, net, pass, connections, &mut live.links);
        if let Some(spawned) = serve_next(scoped, spawner, net, pass, connections, live) {
            return spawned;
        }
        if let Some(spawned) = start_warden(scoped, spawner, pass, connections, &mut live.warden) {
            return spawned;
        }
    }
    unreachable!()
}

// Serves the next link. Where none is there it waits until one may be, or one of those that are served has ended.
fn serve_next<'s, 'a, 'b, E, K: Keeper + Send + Drop, N: Net, R: Around + Eprint>(
    scoped: &Scoped<'_, 's, E, R>,
    spawner: &mut Spawner,
    net: &mut N,
    pass: &mut ServerPass<K>,
    connections: &mut Connections<'a, 'b, K, N>,
    live: &mut Live<K, N::Link>,
) -> Option<Spawned>
where
    'a: 's,
    'b: 's,
    K: 's,
    N::Link: 's,
    <N::Link as Link>::Bell: 's,
    N::DoorBell: 's,
    requires pass { IsServerPass K.kept connections.old.server.now.lock pass.old }
    requires kept { AllServe (λ one. one.handle.promise.0.value) connections.old.server.now live.old.links }
    ensures pass { IsServerPass K.kept connections.new.server.now.lock pass.new }
    ensures server { connections.new.server ≡ connections.old.server }
    ensures goes { GoesOn N.faults N.bad N.ended (back_of N.Link.faults N.Link.closes N.Link.given N.Link.got)
        (moment net.old connections.old.tally pass.old.pass) (moment net.new connections.new.tally pass.new.pass) }
    ensures asked { N.asked net.new ≡ N.asked net.old }
    ensures back { connections.new.tally.back ≡ connections.old.tally.back }
    ensures each { length connections.new.tally.begun.items + slab_len live.old.links ≡ length connections.old.tally.begun.items + slab_len live.new.links + refused_by result }
    ensures over { IfSome result (λ s. s ≡ spawned.All → NoneComes connections.new.tally) }
    ensures more { IfNone result (OneComes connections.old.tally) }
    ensures kept { AllServe (λ one. one.handle.promise.0.value) connections.old.server.now live.new.links }
    ensures warden { live.new.warden ≡ live.old.warden }
    ensures faults { faults_of spawner.new ≡ faults_of spawner.old + refused_by result }
{
    let rt = scoped.rt;
    if connections.is_over() {
        return Some(Spawned::All);
    }
    if make_room(rt, connections, &mut live.links).is_err() {
        return Some(Spawned::NoMemory);
    }
    let Some(connection) = connections.next(rt, net, pass) else {
        connections.rest(rt, live.seen);
        return None;
    };
    let key = live.links.vacant_key();
    match start(scoped, spawner, connection, key) {
        Some(one) => {
            live.links.insert_reserved(one);
            None
        }
        None => Some(Spawned::Failed),
    }
}

// Makes room for one link more, and for its key among those that have ended.
fn make_room<K: Keeper + Drop, N: Net, R: Around>(
    rt: &R,
    connections: &Connections<'_, '_, K, N>,
    live: &mut Slab<Started<K, N::Link>>,
) -> Result<(), NoMemory>
    ensures room { OnOk result (HasRoomFor live.new 1) }
    ensures same { live.new ≡ record live.old { capacity = live.new.capacity } }
{
    live.reserve(1)?;
    connections
        .bells
        .make_room(rt, live.len().saturating_add(1))
}

// Gives back each link that has ended since this was done last.
fn give_back_ended<K: Keeper + Drop, N: Net, R: Around>(
    rt: &R,
    net: &mut N,
    pass: &mut ServerPass<K>,
    connections: &mut Connections<'_, '_, K, N>,
    live: &mut Slab<Started<K, N::Link>>,
)
    requires pass { IsServerPass K.kept connections.old.server.now.lock pass.old }
    requires kept { AllServe (λ one. one.handle.promise.0.value) connections.old.server.now live.old }
    ensures pass { IsServerPass K.kept connections.new.server.now.lock pass.new }
    ensures server { connections.new.server ≡ connections.old.server }
    ensures goes { GoesOn N.faults N.bad N.ended (back_of N.Link.faults N.Link.closes N.Link.given N.Link.got)
        (moment net.old connections.old.tally pass.old.pass) (moment net.new connections.new.tally pass.new.pass) }
    ensures asked { N.asked net.new ≡ N.asked net.old }
    ensures begun { connections.new.tally.begun ≡ connections.old.tally.begun }
    ensures each { length connections.new.tally.back.items + slab_len live.new ≡ length connections.old.tally.back.items + slab_len live.old }
    ensures kept { AllServe (λ one. one.handle.promise.0.value) connections.old.server.now live.new }
{
    for _ in rt.forever() {
        let Some(key) = connections.bells.next_ended(rt) else {
            return;
        };
        give_back(rt, net, pass, connections, live, key);
    }
    unreachable!()
}

// Gives back the link of this key, which has ended.
fn give_back<K: Keeper + Drop, N: Net, R: Around>(
    rt: &R,
    net: &mut N,
    pass: &mut ServerPass<K>,
    connections: &mut Connections<'_, '_, K, N>,
    live: &mut Slab<Started<K, N::Link>>,
    key: usize,
)
    requires pass { IsServerPass K.kept connections.old.server.now.lock pass.old }
    requires kept { AllServe (λ one. one.handle.promise.0.value) connections.old.server.now live.old }
    ensures pass { IsServerPass K.kept connections.new.server.now.lock pass.new }
    ensures server { connections.new.server ≡ connections.old.server }
    ensures goes { GoesOn N.faults N.bad N.ended (back_of N.Link.faults N.Link.closes N.Link.given N.Link.got)
        (moment net.old connections.old.tally pass.old.pass) (moment net.new connections.new.tally pass.new.pass) }
    ensures asked { N.asked net.new ≡ N.asked net.old }
    ensures begun { connections.new.tally.begun ≡ connections.old.tally.begun }
    ensures each { length connections.new.tally.back.items + slab_len live.new ≡ length connections.old.tally.back.items + slab_len live.old }
    ensures kept { AllServe (λ one. one.handle.promise.0.value) connections.old.server.now live.new }
{
    if let Some(one) = live.try_remove(key) {
        let ended = join(rt, one);
        connections.done(net, pass, ended);
    }
}

// Waits for each link that is left, and gives it back.
fn finish_all<K: Keeper + Drop, N: Net, R: Around>(
    rt: &R,
    net: &mut N,
    pass: &mut ServerPass<K>,
    connections: &mut Connections<'_, '_, K, N>,
    live: Slab<Started<K, N::Link>>,
)
    requires pass { IsServerPass K.kept connections.old.server.now.lock pass.old }
    requires kept { AllServe (λ one. one.handle.promise.0.value) connections.old.server.now live }
    ensures pass { IsServerPass K.kept connections.new.server.now.lock pass.new }
    ensures server { connections.new.server ≡ connections.old.server }
    ensures goes { GoesOn N.faults N.bad N.ended (back_of N.Link.faults N.Link.closes N.Link.given N.Link.got)
        (moment net.old connections.old.tally pass.old.pass) (moment net.new connections.new.tally pass.new.pass) }
    ensures asked { N.asked net.new ≡ N.asked net.old }
    ensures gone { GivesBack (slab_len live) connections.old.tally connections.new.tally }
{
    for entry in live {
        let (_, one) = entry;
        let ended = join(rt, one);
        connections.done(net, pass, ended);
    }
}

fn join<K: Keeper + Drop, L: Link + Drop, R: Around>(rt: &R, started: Started<K, L>) -> Ended<K, L>
    ensures { IsServerPass K.kept started.handle.promise.0.value.lock result.pass × EndsSo L.faults L.closes L.given result.is_over result.pass.pass result.link × GoneSo L.given L.got result.is_over result.pass.pass result.link }
{
    let Started { handle } = started;
    handle.join(rt)
}

// Serves all links, waits for those that are left, and lets the warden end.
fn run_in<'s, 'a, 'b, E, K: Keeper + Send + Drop, N: Net, R: Around + Eprint>(
    rt: &'s R,
    scope: &Scope<'s, E>,
    spawner: &mut Spawner,
    net: &mut N,
    pass: &mut ServerPass<K>,
    connections: &mut Connections<'a, 'b, K, N>,
) -> Spawned
where
    'a: 's,
    'b: 's,
    K: 's,
    N::Link: 's,
    <N::Link as Link>::Bell: 's,
    N::DoorBell: 's,
    requires pass { IsServerPass K.kept connections.old.server.now.lock pass.old }
    ensures pass { IsServerPass K.kept connections.new.server.now.lock pass.new }
    ensures server { connections.new.server ≡ connections.old.server }
    ensures goes { GoesOn N.faults N.bad N.ended (back_of N.Link.faults N.Link.closes N.Link.given N.Link.got)
        (moment net.old connections.old.tally pass.old.pass) (moment net.new connections.new.tally pass.new.pass) }
    ensures asked { N.asked net.new ≡ N.asked net.old }
    ensures each { result ≡ spawned.All → AllEnded connections.old.tally connections.new.tally }
    ensures faults { faults_of spawner.new ≡ faults_of spawner.old + refused result }
{
    let scoped = Scoped { rt, scope };
    let mut live = Live {
        links: Slab::new(rt.alloc()),
        warden: None,
        seen: 0,
    };
    let spawned = serve_all(&scoped, spawner, net, pass, connections, &mut live);
    let Live { links, warden, .. } = live;
    finish_all(rt, net, pass, connections, links);
    end_warden(rt, pass, connections, warden);
    spawned
}

/// The links of a server when all of them have ended.
#[derive(Drop)]
pub struct Ran<L: Link + Drop> {
    pub spawned: Spawned,
    pub failed: bool,
    pub wants: bool,
    pub tally: Snapshot<Tally<L>>,
}

// Threads may borrow what outlives the scope. What is lent is given back, and what becomes of the links is written to `ran`.
fn run_scoped<'c, 'p, 'n, 'r, 'q, 'a, 'b, K: Keeper + Send + Drop, N: Net, R: Around + Eprint>(
    rt: &R,
    spawner: &'p mut Spawner,
    net: &'n mut N,
    ran: &'r mut Ran<N::Link>,
    pass: &'q mut ServerPass<K>,
    connections: &'c mut Connections<'a, 'b, K, N>,
) -> (
    &'n mut N,
    &'p mut Spawner,
    &'r mut Ran<N::Link>,
    &'q mut ServerPass<K>,
    &'c mut Connections<'a, 'b, K, N>,
)
    requires { IsServerPass K.kept connections.now.server.now.lock pass.now }
    ensures same { (result.0.ghost_name ≡ net.entry.ghost_name) × (result.1.ghost_name ≡ spawner.entry.ghost_name) × (result.2.ghost_name ≡ ran.entry.ghost_name) × (result.3.ghost_name ≡ pass.entry.ghost_name) }
    ensures pass { IsServerPass K.kept connections.entry.now.server.now.lock result.3.now }
    ensures goes { GoesOn N.faults N.bad N.ended (back_of N.Link.faults N.Link.closes N.Link.given N.Link.got)
        (moment net.entry.now connections.entry.now.tally pass.entry.now.pass) (moment result.0.now result.2.now.tally.value result.3.now.pass) }
    ensures asked { N.asked result.0.now ≡ N.asked net.entry.now }
    ensures each { result.2.now.spawned ≡ spawned.All → AllEnded connections.entry.now.tally result.2.now.tally.value }
    ensures values { (result.2.now.failed ≡ result.2.now.tally.value.failed) × (result.2.now.wants ≡ result.2.now.tally.value.wants) }
    ensures faults { faults_of result.1.now ≡ faults_of spawner.entry.now + refused result.2.now.spawned }
{
    thread::scope(
        thread::scope_env(),
        rt,
        move |scope| -> (
            &mut N,
            &mut Spawner,
            &mut Ran<N::Link>,
            &mut ServerPass<K>,
            &mut Connections<'_, '_, K, N>,
        )
            requires { IsServerPass K.kept connections.now.server.now.lock pass.now }
            ensures { (result.0.ghost_name ≡ net.entry.ghost_name) × (result.1.ghost_name ≡ spawner.entry.ghost_name) × (result.2.ghost_name ≡ ran.entry.ghost_name) × (result.3.ghost_name ≡ pass.entry.ghost_name) × IsServerPass K.kept connections.entry.now.server.now.lock result.3.now × GoesOn N.faults N.bad N.ended (back_of N.Link.faults N.Link.closes N.Link.given N.Link.got)
                (moment net.entry.now connections.entry.now.tally pass.entry.now.pass) (moment result.0.now result.2.now.tally.value result.3.now.pass) × (result.2.now.spawned ≡ spawned.All → AllEnded connections.entry.now.tally result.2.now.tally.value) × ((result.2.now.failed ≡ result.2.now.tally.value.failed) × (result.2.now.wants ≡ result.2.now.tally.value.wants)) × (faults_of result.1.now ≡ faults_of spawner.entry.now + refused result.2.now.spawned) × (N.asked result.0.now ≡ N.asked net.entry.now) }
        {
            let spawned = run_in(rt, scope, spawner, net, pass, connections);
            *ran = ran_of(spawned, connections);
            (net, spawner, ran, pass, connections)
        },
    )
}

// What became of the links.
fn ran_of<K: Keeper + Drop, N: Net>(
    spawned: Spawned,
    connections: &Connections<'_, '_, K, N>,
) -> Ran<N::Link>
    ensures values { (result.spawned ≡ spawned) × (result.failed ≡ result.tally.value.failed) × (result.wants ≡ result.tally.value.wants) }
    ensures tally { result.tally.value ≡ connections.now.tally }
{
    Ran {
        spawned,
        failed: connections.tally.failed,
        wants: connections.tally.wants,
        tally: Snapshot::of(&connections.tally),
    }
}

/// Serves the links that come, each in a thread of its own, and waits for all of them.
pub fn run_all<K: Keeper + Send + Drop, N: Net, R: Around + Eprint>(
    rt: &R,
    spawner: &mut Spawner,
    net: &mut N,
    pass: &mut ServerPass<K>,
    connections: &mut Connections<'_, '_, K, N>,
) -> Ran<N::Link>
    requires { IsServerPass K.kept connections.old.server.now.lock pass.old }
    ensures pass { IsServerPass K.kept connections.old.server.now.lock pass.new }
    ensures goes { GoesOn N.faults N.bad N.ended (back_of N.Link.faults N.Link.closes N.Link.given N.Link.got)
        (moment net.old connections.old.tally pass.old.pass) (moment net.new result.tally.value pass.new.pass) }
    ensures asked { N.asked net.new ≡ N.asked net.old }
    ensures each { result.spawned ≡ spawned.All → AllEnded connections.old.tally result.tally.value }
    ensures values { (result.failed ≡ result.tally.value.failed) × (result.wants ≡ result.tally.value.wants) }
    ensures faults { faults_of spawner.new ≡ faults_of spawner.old + refused result.spawned }
{
    let mut ran = ran_of(Spawned::NoMemory, connections);
    let (_, _, _, _, _) = run_scoped(rt, spawner, net, &mut ran, pass, connections);
    ran
}
