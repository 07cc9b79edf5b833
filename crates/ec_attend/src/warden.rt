// Who ends the sessions of clerks that have no link.
ghost use Rattle.std.specs.Prelude.{◌≡◌, IfSome};
ghost use Rattle.ec_lock.specs.PassViews.{Same};
ghost use Rattle.ec_servernode.specs.TurnSteps.{IsServerPass};

use crate::bells::{Bells, Watch, tell_session_end};
use ec_base::{CLERK_COUNT, ClerkId};
use ec_link::{Around, Bell};
use ec_server::Keeper;
use ec_servernode::{ServeFault, ServerPass, SharedServer};
use std::io::Eprint;
use std::time::Duration;

// It's looked after so many milliseconds.
const LOOK: u64 = 500;

/// Ends the session of each clerk that has had no link for too long, until no link is served any more or the server is down.
pub fn watch_over<K: Keeper + Drop, B: Bell + Drop, D: Bell + Drop, R: Around + Eprint>(
    rt: &R,
    server: &SharedServer<K>,
    bells: &Bells<B, D>,
    pass: ServerPass<K>,
    watch: Watch,
) -> ServerPass<K>
    requires { IsServerPass K.kept server.now.lock pass }
    ensures { IsServerPass K.kept server.now.lock result }
{
    let mut own = pass;
    let mut watch = watch;
    if look_on(rt, server, bells, &mut own, &mut watch).is_err() {
        bells.close(rt);
    }
    own
}

// Looks again and again.
fn look_on<K: Keeper + Drop, B: Bell + Drop, D: Bell + Drop, R: Around + Eprint>(
    rt: &R,
    server: &SharedServer<K>,
    bells: &Bells<B, D>,
    pass: &mut ServerPass<K>,
    watch: &mut Watch,
) -> Result<(), ServeFault>
    requires { IsServerPass K.kept server.now.lock pass.old }
    ensures { IsServerPass K.kept server.now.lock pass.new }
{
    for _ in rt.forever() {
        if bells.is_done() || bells.is_over() {
            return Ok(());
        }
        look(rt, server, bells, pass, watch)?;
        bells.wait_done(rt, Duration::from_millis(LOOK));
    }
    unreachable!()
}

// Looks at each clerk once.
fn look<K: Keeper + Drop, B: Bell + Drop, D: Bell + Drop, R: Around + Eprint>(
    rt: &R,
    server: &SharedServer<K>,
    bells: &Bells<B, D>,
    pass: &mut ServerPass<K>,
    watch: &mut Watch,
) -> Result<(), ServeFault>
    requires { IsServerPass K.kept server.now.lock pass.old }
    ensures { IsServerPass K.kept server.now.lock pass.new }
{
    for place in 0..CLERK_COUNT {
        if let Some(clerk) = ClerkId::new(place) {
            look_at(rt, server, bells, pass, watch, clerk)?;
        }
    }
    Ok(())
}

// Looks at one clerk, and ends its session where its time is over.
fn look_at<K: Keeper + Drop, B: Bell + Drop, D: Bell + Drop, R: Around + Eprint>(
    rt: &R,
    server: &SharedServer<K>,
    bells: &Bells<B, D>,
    pass: &mut ServerPass<K>,
    watch: &mut Watch,
    clerk: ClerkId,
) -> Result<(), ServeFault>
    requires { IsServerPass K.kept server.now.lock pass.old }
    ensures { IsServerPass K.kept server.now.lock pass.new }
{
    if !server.is_open(rt, pass, clerk)? || bells.has_link(rt, clerk) {
        watch.is_well(clerk);
        return Ok(());
    }
    if watch.is_late(rt, clerk) {
        watch.is_well(clerk);
        let told = server.end(rt, pass, clerk)?;
        tell_session_end(rt, clerk);
        // no link has this number
        bells.ring(rt, 0, told);
    }
    Ok(())
}
