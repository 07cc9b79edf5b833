// Ids that are taken.
ghost use Rattle.std.specs.Prelude.{◌≡◌, drop};
ghost use Rattle.ec_protocol.specs.Clerk as clerk;

use ec_base::ObjId;
use ec_volume::Update;

/// A new object takes the first id.
pub fn less_id(update: &Update, ids: &mut Vec<ObjId>)
    ensures { ids.new.items ≡ clerk.less_id update.now ids.old.items }
{
    match update {
        Update::Make { .. } => drop_first(ids),
        _ => {}
    }
}

fn drop_first(ids: &mut Vec<ObjId>)
    ensures { ids.new.items ≡ drop 1 ids.old.items }
{
    if !ids.is_empty() {
        ids.remove(0);
    }
}
