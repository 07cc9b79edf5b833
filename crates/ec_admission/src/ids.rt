// Tokens on granted ids.
ghost use Rattle.std.specs.Prelude.{◌≡◌, ◌+◌, ◌≤◌, ◌^◌, ◌∷◌, List, ℕ, OnOk};
ghost use Rattle.ec_sessions.specs.Limits.{ids_per_grant};
ghost use Rattle.ec_sessions.specs.Slots.{run};
ghost use Rattle.ec_protocol.specs.Server as machine;

use ec_base::{Hold, NoMemory, ObjId, SessionNo};
use ec_sessions::tokens::Tokens;

/// So many ids are granted at a time.
pub const IDS_PER_GRANT: u32 = 16;

/// Write tokens of the number on sixteen ids, but where one conflicts.
pub fn add_ids(
    tokens: &mut Tokens,
    session: SessionNo,
    first: ObjId,
    number: u64,
) -> Result<(), NoMemory>
    requires { first + ids_per_grant ≤ 2 ^ 32 }
    ensures { OnOk result (machine.with_ids session number (run first ids_per_grant) tokens.old ≡ tokens.new) }
{
    let from = first.get();
    'ids: for place in 0..IDS_PER_GRANT {
        let Some(id) = ObjId::new(from + place) else {
            unreachable!()
        };
        add_id(tokens, session, id, number)?;
    }
    Ok(())
}

fn add_id(tokens: &mut Tokens, session: SessionNo, id: ObjId, number: u64) -> Result<(), NoMemory>
    ensures { OnOk result ((ids : List ℕ) → machine.with_ids session number (id ∷ ids) tokens.old ≡ machine.with_ids session number ids tokens.new) }
{
    if tokens.is_clear(session, id, Hold::Write) {
        tokens.grant(session, id, Hold::Write, number)?;
    }
    Ok(())
}
