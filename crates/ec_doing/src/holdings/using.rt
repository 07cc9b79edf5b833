// Objects that a call touched.
ghost use Rattle.std.specs.Prelude.{◌≡◌};
ghost use Rattle.ec_cache.specs.Cache.{all_used};

use ec_base::ObjId;
use ec_cache::Cache;

/// The objects are used, in their order.
pub fn use_all(cache: &mut Cache, objs: &[ObjId])
    ensures { cache.new ≡ all_used objs.now cache.old }
{
    'objects: for obj in objs {
        cache.used(*obj);
    }
}
