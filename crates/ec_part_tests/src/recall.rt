//! What is due to wants, in steps.

use ec_base::{Hold, NoMemory, ObjId, SessionNo};
use ec_sessions::recall::{Action, Recalls};
use ec_sessions::tokens::Tokens;
use std::alloc::Global;

// Of a digit.
fn number(letter: u8) -> u64 {
    u64::from(letter.wrapping_sub(b'0'))
}

fn session(letter: u8) -> SessionNo {
    SessionNo(number(letter))
}

fn object(letter: u8) -> ObjId {
    ObjId::new(u32::from(letter.wrapping_sub(b'0'))).unwrap_or(ObjId::root())
}

fn hold(letter: u8) -> Hold {
    match letter {
        b'r' => Hold::Read,
        b'w' => Hold::Write,
        _ => Hold::Free,
    }
}

fn digit(number: u64) -> u8 {
    match u8::try_from(number) {
        Ok(number) => b'0'.wrapping_add(number),
        Err(_) => b'+',
    }
}

fn letter(hold: Hold) -> u8 {
    match hold {
        Hold::Read => b'r',
        Hold::Write => b'w',
        Hold::Free => b'f',
    }
}

// An action by its session, its object, the number of the token that is recalled, and the mode.
fn letters(action: &Action) -> [u8; 4] {
    match action {
        Action::Grant(s, obj, hold) => {
            [digit(s.0), digit(u64::from(obj.get())), b'-', letter(*hold)]
        }
        Action::Recall(s, obj, number, to) => {
            [
                digit(s.0),
                digit(u64::from(obj.get())),
                digit(*number),
                letter(*to),
            ]
        }
    }
}

fn are_rows(actions: &[Action], rows: &[u8]) -> bool {
    let mut rest = rows;
    for action in actions {
        match rest.strip_prefix(letters(action).as_slice()) {
            Some(behind) => rest = behind,
            None => return false,
        }
    }
    rest.is_empty()
}

fn are_due(tokens: &Tokens, recalls: &mut Recalls, rows: &[u8]) -> Result<bool, NoMemory> {
    let actions = recalls.due(tokens)?;
    Ok(are_rows(actions.as_slice(), rows))
}

fn grants(
    tokens: &mut Tokens,
    session: SessionNo,
    obj: ObjId,
    hold: Hold,
    number: u64,
) -> Result<bool, NoMemory> {
    if hold == Hold::Free || !tokens.is_clear(session, obj, hold) {
        return Ok(false);
    }
    tokens.grant(session, obj, hold, number)?;
    Ok(true)
}

fn wants(
    recalls: &mut Recalls,
    session: SessionNo,
    obj: ObjId,
    hold: Hold,
) -> Result<bool, NoMemory> {
    if hold == Hold::Free {
        return Ok(false);
    }
    recalls.want(session, obj, hold)?;
    Ok(true)
}

fn drops(recalls: &mut Recalls, session: SessionNo) -> bool {
    recalls.drop_session(session);
    true
}

// The letter at this place of a step, or 0.
fn at(step: &[u8], place: usize) -> u8 {
    step.get(place).copied().unwrap_or(0)
}

// Whether the step comes to what it says: what is due, or a token that is granted or given back, a want, each by session, object, number and
// mode, or a session that is dropped.
fn goes(tokens: &mut Tokens, recalls: &mut Recalls, step: &[u8]) -> Result<bool, NoMemory> {
    let (of, obj) = (session(at(step, 1)), object(at(step, 2)));
    let (three, four) = (at(step, 3), hold(at(step, 4)));
    match at(step, 0) {
        b'd' => are_due(tokens, recalls, step.get(1..).unwrap_or(&[])),
        b'x' => Ok(drops(recalls, of)),
        b't' => grants(tokens, of, obj, four, number(three)),
        b'b' => Ok(tokens.give_back(of, obj, number(three), four)),
        b'w' => wants(recalls, of, obj, hold(three)),
        _ => Ok(false),
    }
}

fn go(tokens: &mut Tokens, recalls: &mut Recalls, steps: &[u8]) -> Result<bool, NoMemory> {
    for step in steps.split(|byte| *byte == b' ') {
        if !goes(tokens, recalls, step)? {
            return Ok(false);
        }
    }
    Ok(true)
}

fn run(alloc: Global, steps: &[u8]) -> Result<bool, NoMemory> {
    let mut tokens = Tokens::new(alloc)?;
    let mut recalls = Recalls::new(alloc)?;
    let done = go(&mut tokens, &mut recalls, steps);
    drop(recalls);
    drop(tokens);
    done
}

#[test]
fn thirteen_cases(rt: HostRuntime) {
    let cases: [&[u8]; 13] = [
        // Two readers are recalled once for a writer.
        b"t151r t252r w35w d151f252f d b151f b252f d35-w",
        // Readers share.
        b"t151r w25r d25-r d",
        // A writer is brought down to Read for a reader.
        b"t151w w25r d151r b151r d25-r",
        // A session's own token never stands in its way.
        b"t151r w15w d15-w",
        // An upgrade recalls the other readers alone.
        b"t151r t252r w15w d252f",
        // A weaker noting leaves the stronger want, and its recalls are due again.
        b"t151r w25w d151f w25r d151f d",
        // A stronger noting keeps the place of the want.
        b"w15r w25w w15w d15-w",
        // A want behind a grant of the same list stays, and causes no recall.
        b"w15w w25r d15-w t151w d151r",
        // Two readers of one list, and a writer behind them.
        b"w15r w25r w35w d15-r25-r",
        // A token with a new number is recalled anew.
        b"t151r w25w d151f t152r d152f",
        // The wants of a dropped session are forgotten.
        b"w15w w25r x1 d25-r",
        // Grants come in the order of arrival, whatever the objects.
        b"w26r w15w d26-r15-w",
        // A reader behind a waiting writer isn't held up by it.
        b"t151r w25w w35r d151f35-r",
    ];
    for steps in cases {
        assert!(rt; run(rt.alloc(), steps) == Ok(true));
    }
}
