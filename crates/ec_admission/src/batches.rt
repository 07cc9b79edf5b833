// Batches.
ghost use Rattle.std.specs.Prelude.{◌≡◌, IfOk};
ghost use Rattle.std.specs.List.{list_all};
ghost use Rattle.ec_base.specs.Holds.{is_write};
ghost use Rattle.ec_sessions.specs.Slots.{slot_at};
ghost use Rattle.ec_durable.specs.Durable.{has_batch};
ghost use Rattle.ec_sessions.specs.OfTokens.Tokens.{mode, token};
ghost use Rattle.ec_protocol.specs.Server as machine;

use ec_base::{ClerkId, Hold, NoMemory, ObjId, OpNo, SessionNo};
use ec_sessions::Sessions;
use ec_sessions::tokens::Tokens;
use ec_volume::{Update, operands};
use std::alloc::Global;

/// Whether the clerk's window has the batch.
pub fn window_has(sessions: &Sessions, clerk: ClerkId, batch: u64) -> bool
    ensures { result ≡ has_batch batch (slot_at sessions.now clerk) }
{
    match sessions.slot(clerk) {
        Some(slot) => slot.window.has(batch),
        None => false,
    }
}

/// Whether the session has a Write token on each operand.
pub fn may_write(
    alloc: Global,
    tokens: &Tokens,
    session: SessionNo,
    ops: &[(OpNo, Update)],
) -> Result<bool, NoMemory>
    ensures { IfOk result (λ may. may ≡ machine.may_write tokens.now session ops.now) }
{
    for (_, update) in ops {
        if !may_write_all(tokens, session, &operands(alloc, update)?) {
            return Ok(false);
        }
    }
    Ok(true)
}

fn may_write_all(tokens: &Tokens, session: SessionNo, ids: &[ObjId]) -> bool
    ensures { result ≡ list_all (λ x. is_write (mode (token tokens.now session x))) ids.now }
{
    ids.iter().all(|id| has_write(tokens, session, *id))
}

fn has_write(tokens: &Tokens, session: SessionNo, obj: ObjId) -> bool
    ensures { result ≡ is_write (mode (token tokens.now session obj)) }
{
    matches!(tokens.token(session, obj), Some((Hold::Write, _)))
}
