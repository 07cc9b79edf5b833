//! Tokens that sessions are granted, claim and give back.

use ec_base::{Hold, NoMemory, ObjId, SessionNo};
use ec_sessions::tokens::{ClaimFault, Tokens};

const FIVE: u32 = 5;

fn is_only(rows: &[(SessionNo, Hold, u64)], want: Option<(u64, Hold, u64)>) -> bool {
    rows.iter()
        .map(|(session, hold, number)| (session.0, *hold, *number))
        .eq(want)
}

fn conflicts_with(tokens: &Tokens, obj: ObjId, want: (u64, Hold, u64)) -> Result<bool, NoMemory> {
    let rows = tokens.conflicts(SessionNo(2), obj, Hold::Write)?;
    Ok(is_only(rows.as_slice(), Some(want)))
}

fn is_held_by(
    tokens: &Tokens,
    obj: ObjId,
    want: Option<(u64, Hold, u64)>,
) -> Result<bool, NoMemory> {
    let rows = tokens.holders(obj)?;
    Ok(is_only(rows.as_slice(), want))
}

// A reader is in a writer's way, whose claim tells the clash.
fn reads(tokens: &mut Tokens, obj: ObjId) -> Result<bool, NoMemory> {
    if !tokens.is_clear(SessionNo(1), obj, Hold::Read) {
        return Ok(false);
    }
    tokens.grant(SessionNo(1), obj, Hold::Read, 1)?;
    let clash = tokens.claim(SessionNo(2), &[(obj, Hold::Write)]);
    let is_held = tokens.token(SessionNo(1), obj) == Some((Hold::Read, 1));
    let row = (1, Hold::Read, 1);
    let is_told = conflicts_with(tokens, obj, row)? && is_held_by(tokens, obj, Some(row))?;
    Ok(is_held && is_told && clash == Err(ClaimFault::Clash(obj, SessionNo(1))))
}

// A session claims, gives back by the right number alone, and leaves.
fn claims(tokens: &mut Tokens, obj: ObjId) -> Result<bool, NoMemory> {
    if tokens.claim(SessionNo(1), &[(obj, Hold::Write)]).is_err() {
        return Err(NoMemory);
    }
    let by_another_number = tokens.give_back(SessionNo(1), obj, 1, Hold::Read);
    let by_its_number = tokens.give_back(SessionNo(1), obj, 0, Hold::Read);
    let is_lowered = tokens.token(SessionNo(1), obj) == Some((Hold::Read, 0));
    tokens.drop_session(SessionNo(1));
    let is_gone = is_held_by(tokens, obj, None)?;
    Ok(!by_another_number && by_its_number && is_lowered && is_gone)
}

#[test]
fn sessions_hold_claim_and_give_back(rt: HostRuntime) {
    let obj = ObjId::new(FIVE).expect(&rt, "an id");
    let mut tokens = Tokens::new(rt.alloc()).expect(&rt, "memory");
    let read = reads(&mut tokens, obj);
    drop(tokens);
    let mut tokens = Tokens::new(rt.alloc()).expect(&rt, "memory");
    let claimed = claims(&mut tokens, obj);
    drop(tokens);
    assert!(rt; read == Ok(true) && claimed == Ok(true));
}
