// Whose a session is.
ghost use Rattle.std.specs.Prelude.{◌≡◌, length};
ghost use Rattle.ec_sessions.specs.Slots.{slot_at};
ghost use Rattle.ec_protocol.specs.Server as machine;
ghost use Rattle.ec_admission.specs.Clerks.{IsOpenIn, is_last};

use ec_base::{CLERK_COUNT, ClerkId, SessionNo};
use ec_sessions::Sessions;

/// The clerk whose session this is.
pub fn clerk_in(sessions: &Sessions, session: SessionNo) -> ClerkId
    requires { IsOpenIn sessions.now session }
    ensures { result ≡ machine.clerk_from 0 session sessions.now }
{
    read_slots(sessions);
    'clerks: for number in 0..CLERK_COUNT {
        if let Some(clerk) = ClerkId::new(number) {
            if is_last(sessions, clerk, session) {
                return clerk;
            }
        }
    }
    unreachable!()
}

fn is_last(sessions: &Sessions, clerk: ClerkId, session: SessionNo) -> bool
    ensures { result ≡ is_last session (slot_at sessions.now clerk) }
{
    match sessions.slot(clerk) {
        Some(slot) => slot.session == session,
        None => false,
    }
}

/// A proof knows how many slots there are. No code is left of this.
pub fn read_slots(sessions: &Sessions)
    ensures { length sessions.now ≡ 16 }
{
    if let Some(clerk) = ClerkId::new(0) {
        let _slot = sessions.slot(clerk);
    }
}
