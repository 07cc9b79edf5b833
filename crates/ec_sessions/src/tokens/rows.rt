// The tokens by session, and then by object.
ghost use Rattle.std.specs.Prelude.{◌≡◌, T, true, IfOk, OnOk, OnErr, is_some};
ghost use Rattle.std.specs.Bool.{OnTrue, OnFalse};
ghost use Rattle.std.specs.Ordering.{nat_cmp};
ghost use Rattle.std.specs.FinMap.{find, is_sorted};
ghost use Rattle.ec_sessions.specs.OfTokens.Tokens as tokens;
ghost use Rattle.ec_sessions.specs.OfTokens.SoundTokens as sound_tokens;

use crate::tokens::holds::clash;
use crate::tokens::token::Token;
use ec_base::{Duplicate, Hold, NoMemory, ObjId, SessionNo, SortedMap};
use std::alloc::Global;

/// The tokens of one session, by object.
pub type Row = SortedMap<ObjId, Token>;

/// The tokens of all sessions, each with its row.
pub type Rows = SortedMap<SessionNo, Row>;

pub fn token(rows: &Rows, s: SessionNo, obj: ObjId) -> Option<Token>
    ensures { result ≡ tokens.token rows.now s obj }
{
    rows.get(&s)?.get(&obj).copied()
}

pub fn record(
    alloc: Global,
    rows: &mut Rows,
    s: SessionNo,
    obj: ObjId,
    token: Token,
) -> Result<(), NoMemory>
    requires { T (is_sorted nat_cmp rows.old) }
    ensures ok { OnOk result (rows.new ≡ tokens.granted s obj token.hold token.number rows.old) }
    ensures err { OnErr result (rows.new ≡ rows.old) }
{
    // An empty row takes no memory.
    let Some(mut row) = rows.replace(&s, SortedMap::new(alloc)) else {
        let mut row = SortedMap::new(alloc);
        row.insert(obj, token)?;
        return rows.insert(s, row);
    };
    let done = row.insert(obj, token);
    rows.replace(&s, row);
    done
}

pub fn give_back(
    alloc: Global,
    rows: &mut Rows,
    s: SessionNo,
    obj: ObjId,
    number: u64,
    to: Hold,
) -> bool
    requires { sound_tokens.IsSound rows.old }
    ensures answer { result ≡ tokens.fits_back (tokens.token rows.old s obj) number to }
    ensures lowered { OnTrue result (rows.new ≡ tokens.lowered s obj to number rows.old) }
    ensures kept { OnFalse result (rows.new ≡ rows.old) }
{
    let Some(mut row) = rows.replace(&s, SortedMap::new(alloc)) else {
        return false;
    };
    let fits = lower(&mut row, obj, number, to);
    put_back(rows, s, row);
    fits
}

// Puts a row in the place of the one that stands there. An empty one goes.
fn put_back(rows: &mut Rows, s: SessionNo, row: Row)
    requires { is_some (find nat_cmp s rows.old) ≡ true }
    ensures { rows.new ≡ tokens.with_row s row rows.old }
{
    if row.is_empty() {
        rows.remove(&s);
    } else {
        rows.replace(&s, row);
    }
}

fn lower(row: &mut Row, obj: ObjId, number: u64, to: Hold) -> bool
    ensures answer { result ≡ tokens.fits_back (find nat_cmp obj row.old) number to }
    ensures lowered { OnTrue result (row.new ≡ tokens.lowered_in obj to number row.old) }
    ensures kept { OnFalse result (row.new ≡ row.old) }
{
    let Some(token) = row.get(&obj).copied() else {
        return false;
    };
    if token.number != number || token.hold.is_below(&to) {
        return false;
    }
    match to {
        Hold::Free => row.remove(&obj),
        _ => row.replace(&obj, Token { hold: to, number }),
    };
    true
}

pub fn claim(
    alloc: Global,
    rows: &mut Rows,
    s: SessionNo,
    list: &[(ObjId, Hold)],
) -> Result<(), NoMemory>
    ensures ok { OnOk result (rows.new ≡ tokens.claimed s list.now rows.old) }
    ensures err { OnErr result (rows.new ≡ rows.old) }
{
    let mut row = copied(alloc, rows, s)?;
    for (obj, hold) in list {
        row.insert(
            *obj,
            Token {
                hold: *hold,
                number: 0,
            },
        )?;
    }
    if row.is_empty() {
        rows.remove(&s);
        return Ok(());
    }
    rows.insert(s, row)
}

fn copied(alloc: Global, rows: &Rows, s: SessionNo) -> Result<Row, NoMemory>
    ensures { IfOk result (λ row. row ≡ tokens.row rows.now s) }
{
    match rows.get(&s) {
        Some(row) => row.duplicate(),
        None => Ok(SortedMap::new(alloc)),
    }
}

pub fn holders(
    alloc: Global,
    rows: &Rows,
    obj: ObjId,
) -> Result<Vec<(SessionNo, Hold, u64)>, NoMemory>
    ensures { IfOk result (λ list. list.items ≡ tokens.holders rows.now obj) }
{
    let mut list = Vec::new(alloc);
    for (session, row) in rows.items() {
        if let Some(token) = row.get(&obj) {
            list.push((*session, token.hold, token.number))?;
        }
    }
    Ok(list)
}

pub fn first_conflict(rows: &Rows, s: SessionNo, obj: ObjId, hold: Hold) -> Option<SessionNo>
    ensures { result ≡ tokens.first_conflict rows.now s obj hold }
{
    for (session, row) in rows.items() {
        if *session != s && clash(mode(row, obj), hold) {
            return Some(*session);
        }
    }
    None
}

fn mode(row: &Row, obj: ObjId) -> Hold
    ensures { result ≡ tokens.mode (find nat_cmp obj row.now) }
{
    match row.get(&obj) {
        Some(token) => token.hold,
        None => Hold::Free,
    }
}
