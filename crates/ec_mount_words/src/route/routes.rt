// Where calls go.
ghost use Rattle.std.specs.Prelude.{◌≡◌, Some, None, if◌then◌else◌, MatchOption, slice_get};
ghost use Rattle.ec_mount_words.specs.declared.route.routes.Route.TheVariants.{To, CrossVolume};
ghost use Rattle.ec_mount_words.specs.OfRoute.Calls.{paths_of};
ghost use Rattle.ec_mount_words.specs.OfRoute.Conditions.{AreOrdered};
ghost use Rattle.ec_mount_words.specs.OfRoute.Routes.{IsRoute};

use crate::route::table::volume_of;
use ec_base::Path;
use ec_plain::Call;
use ec_volume::MAX_ORDERED;

/// Where a call goes.
#[derive(Clone, Copy, Debug, Drop, PartialEq, Eq)]
pub enum Route {
    /// To the volume at this place of the table.
    To(usize),
    /// The path of this number, from 1, is the first without a volume.
    NoVolume(u8),
    /// Each path has a volume, and two have different ones.
    CrossVolume,
}

/// Where a call goes that has paths.
pub fn route_of(table: &[Path], call: &Call) -> Route
    requires { AreOrdered (paths_of call.now) }
    ensures { IsRoute table.now (paths_of call.now) result }
{
    let mut to = 0;
    let mut crosses = false;
    'paths: for i in 0..MAX_ORDERED {
        let Some(path) = path_at(call, i) else {
            return route_to(to, crosses);
        };
        let Some(place) = volume_of(table, path) else {
            return Route::NoVolume(i as u8 + 1);
        };
        if i == 0 {
            to = place;
        }
        crosses = crosses || place != to;
    }
    route_to(to, crosses)
}

// Where a call goes whose first path goes to this place.
fn route_to(place: usize, crosses: bool) -> Route
    ensures { result ≡ if crosses then CrossVolume else To place }
{
    if crosses {
        Route::CrossVolume
    } else {
        Route::To(place)
    }
}

// The path at this place of a call.
fn path_at(call: &Call, i: usize) -> Option<&Path>
    ensures { MatchOption result (slice_get (paths_of call.now) i ≡ None) (λ path. slice_get (paths_of call.now) i ≡ Some path.now) }
{
    match call {
        Call::Mkdir(path)
        | Call::Create(path)
        | Call::Write(path, _, _)
        | Call::SetLen(path, _)
        | Call::Read(path, _, _)
        | Call::Chmod(path, _)
        | Call::Touch(path, _)
        | Call::Stat(path)
        | Call::List(path)
        | Call::Remove(path)
        | Call::Rmdir(path)
        | Call::Fsync(path)
        | Call::Chown(path, _) => { if i == 0 { Some(path) } else { None } }
        Call::Rename(path, target) => match i {
            0 => Some(path),
            1 => Some(target),
            _ => None,
        },
        Call::Forder(paths) => paths.as_slice().get(i),
        Call::Sync => None,
    }
}
