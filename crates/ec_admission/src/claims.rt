// Sessions that have claimed.
ghost use Rattle.std.specs.Prelude.{◌≡◌, ◌==◌, not, filter};
ghost use Rattle.ec_sessions.specs.Slots.{slot_at};
ghost use Rattle.ec_volume.specs.Update.{member};
ghost use Rattle.ec_admission.specs.Claims.{is_claimed, all_claimed};

use crate::clerks::read_slots;
use ec_base::{CLERK_COUNT, ClerkId, SessionNo};
use ec_sessions::Sessions;

/// Whether every open session has claimed.
pub fn all_claimed(sessions: &Sessions, claimed: &[SessionNo]) -> bool
    ensures { result ≡ all_claimed claimed.now sessions.now }
{
    read_slots(sessions);
    'clerks: for number in 0..CLERK_COUNT {
        if let Some(clerk) = ClerkId::new(number) {
            if !is_claimed(sessions, claimed, clerk) {
                return false;
            }
        }
    }
    true
}

fn is_claimed(sessions: &Sessions, claimed: &[SessionNo], clerk: ClerkId) -> bool
    ensures { result ≡ is_claimed claimed.now (slot_at sessions.now clerk) }
{
    match sessions.slot(clerk) {
        Some(slot) => !slot.is_open || has_claimed(claimed, slot.session),
        None => true,
    }
}

fn has_claimed(claimed: &[SessionNo], session: SessionNo) -> bool
    ensures { result ≡ member session claimed.now }
{
    claimed.iter().any(|other| session == *other)
}

/// The session hasn't claimed any more.
pub fn forget_claim(claimed: &mut Vec<SessionNo>, session: SessionNo)
    ensures { claimed.new.items ≡ filter (λ t. not (t == session)) claimed.old.items }
{
    claimed.retain(|claimed| claimed.0 != session.0);
}
