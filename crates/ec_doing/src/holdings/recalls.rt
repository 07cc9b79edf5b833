// Recalls.
ghost use Rattle.std.specs.Prelude.{◌≡◌};
ghost use Rattle.ec_base.specs.Tables.{at};
ghost use Rattle.ec_protocol.specs.Clerk as clerk;
ghost use Rattle.ec_doing.specs.OfHoldings.Ready.{is_ready};

use ec_base::{Hold, ObjId};
use ec_cache::Cache;
use ec_log::{Asked, Log};
use ec_protocol::Recalled;

/// Whether a recall may be answered: a Write token goes back only where no undurable operation has
/// the object.
pub fn is_ready(cache: &Cache, log: &Log, recalled: &Recalled) -> bool
    ensures { result ≡ is_ready recalled.now cache.now log.now }
{
    cache.mode(recalled.obj) != Hold::Write || log.first(Asked::Object(recalled.obj)).is_none()
}

/// A held token is under recall.
pub fn mark_recall(cache: &mut Cache, obj: ObjId, to: Hold)
    ensures { cache.new ≡ clerk.mark_recall obj to cache.old }
{
    if cache.held(obj).is_some() {
        cache.limit(obj, to);
    }
}

/// A held token is lowered.
pub fn lower_held(cache: &mut Cache, obj: ObjId, to: Hold)
    ensures { cache.new ≡ clerk.lower_held obj to (at obj cache.old.held) cache.old }
{
    if cache.held(obj).is_some() {
        cache.lower(obj, to);
    }
}
