// Paths among mount paths.
ghost use Rattle.std.specs.Prelude.{◌<◌, ◌≤◌, MatchBool, MatchOption};
ghost use Rattle.ec_mount_words.specs.OfRoute.Routes.{Goes, HasNoVolume};

use ec_base::Path;

/// The place in the table of the volume that a path goes to: of the mount paths of which the names are the first of the
/// path's, its mount path is the longest.
pub fn volume_of(table: &[Path], path: &Path) -> Option<usize>
    ensures { MatchOption result (HasNoVolume table.now path.now) (λ place. Goes table.now path.now place) }
{
    let names = path.names();
    let mut found = 0;
    // One more than the names of the mount path found.
    let mut reach = 0;
    'table: for place in 0..table.len() {
        let mount = table[place].names();
        if !is_longer(mount.len(), reach) || !names.starts_with(mount) {
            continue 'table;
        }
        found = place;
        reach = mount.len() + 1;
    }
    if reach == 0 { None } else { Some(found) }
}

// Whether so many names are more than those of the mount path found.
fn is_longer(names: usize, reach: usize) -> bool
    ensures { MatchBool result (reach ≤ names) (names < reach) }
{
    reach <= names
}
