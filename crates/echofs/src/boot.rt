// The number of a start of the process.
ghost use Rattle.std.specs.Prelude.{◌≡◌, ◌<◌, ◌≤◌, ◌+◌, ◌-◌, ◌*◌, ◌%◌, IfSome};
ghost use Rattle.std.specs.Duration.{as_nanos};

use std::thread;
use std::time::{Clock, Duration};

const NANOS: u64 = 1_000_000_000;

// It waits so often at most: once, unless the clock is set back meanwhile.
const WAITS: u32 = 4;

/// The number of this start: the first second of the clock that begins after this call, for which it waits. So of two starts, one after the
/// other, the later has the greater number, unless the clock was set back between them.
///
/// It waits for at most four seconds, and goes on though the clock doesn't show that second yet. The machine's time since its own start stands in
/// for a clock that can't be read, and 1 for both.
pub fn boot_of<C: Clock>(clock: &C) -> u64 {
    let Some(begun) = time_of(clock) else {
        return 1;
    };
    let Some(boot) = next_second(begun) else {
        return 1;
    };
    wait_until(clock, begun, boot);
    boot
}

fn wait_until<C: Clock>(clock: &C, begun: Duration, second: u64) {
    let mut time = begun;
    for _ in 0..WAITS {
        thread::sleep(clock, rest_of_second(time));
        match time_of(clock) {
            Some(now) if now.as_secs() < second => time = now,
            _ => return,
        }
    }
}

fn time_of<C: Clock>(clock: &C) -> Option<Duration> {
    match clock.since_1970() {
        Ok(time) => Some(time),
        Err(_) => clock.monotonic().ok(),
    }
}

// The first whole second that begins after this time.
fn next_second(time: Duration) -> Option<u64>
    ensures { IfSome result (λ second. (as_nanos time < second * 1_000_000_000) × (second * 1_000_000_000 ≤ as_nanos time + 1_000_000_000)) }
{
    time.as_secs().checked_add(1)
}

// From this time to the end of its second.
fn rest_of_second(time: Duration) -> Duration
    ensures { as_nanos result ≡ 1_000_000_000 - as_nanos time % 1_000_000_000 }
{
    Duration::from_nanos(NANOS - u64::from(time.subsec_nanos()))
}
