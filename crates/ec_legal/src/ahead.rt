// Lines that are placed block by block.
ghost use Rattle.std.specs.Prelude.{◌≡◌, ◌<◌, ◌≤◌, ◌+◌, ◌-◌, ◌^◌, ◌++◌, ◌⊎◌, [], true, false, List as Listed, take, length, IfOk, OnOk, IfErr};
ghost use Rattle.ec_history.specs.declared.shown.Shown.{Shown as Line};
ghost use Rattle.ec_legal.specs.Ahead.{IsAhead, IsSettled, AreTold, is_left, placed_from};
ghost use Rattle.ec_legal.specs.Placed.{IsPlaceFault};
ghost use Rattle.ec_lines.specs.Following.{Follows};

use crate::history::place_lines;
use crate::placing::Lines;
use ec_base::NoMemory;
use ec_history::{Entry, Shown};
use ec_judge::HistoryFault;
use ec_lines::{Following, PlaceFault, are_told, follow, none_followed};
use ec_watch::watching::{self, Watching};
use std::alloc::Global;

/// So many lines are placed at once.
const BLOCK_LINES: usize = 4096;

/// How far the lines are placed, and how far they are followed.
#[derive(Drop)]
pub struct Ahead {
    pub following: Following,
    /// The place of the first line that isn't followed yet.
    pub followed: usize,
    /// Lines up to this place give what they give by those up to it alone.
    pub settled: usize,
    /// What the lines show that are placed.
    pub watches: Vec<Watching>,
    /// The place of the first line that isn't placed yet.
    pub placed: usize,
}

/// No line is placed yet. There is room for the calls of so many lines.
pub fn none_placed(alloc: Global, lines: usize) -> Result<Ahead, NoMemory>
    ensures ahead { IfOk result (λ ahead. IsAhead ahead []) }
    ensures told { IfOk result (λ ahead. AreTold [] ahead.settled) }
    ensures first { IfOk result (λ ahead. ahead.placed ≡ 0) }
{
    let following = none_followed(alloc, lines)?;
    let watches = watching::none_watched(alloc)?;
    Ok(Ahead {
        following,
        followed: 0,
        settled: 0,
        watches,
        placed: 0,
    })
}

/// Whether more of these lines can be followed or placed, where those are the last ones or not.
pub fn is_left(ahead: &Ahead, shown: &[Shown], last: bool) -> bool
    ensures { result ≡ is_left ahead.now shown.now last }
{
    if last {
        ahead.placed < shown.len()
    } else {
        ahead.placed < ahead.settled || ahead.followed < shown.len()
    }
}

/// Takes the entries of the next lines in place of those that are there. Where more lines may follow
/// these, a line is placed only where they change nothing in what it gives.
pub fn place_next(
    alloc: Global,
    ahead: &mut Ahead,
    shown: &[Shown],
    last: bool,
    entries: &mut Vec<(u32, Entry)>,
) -> Result<(), HistoryFault>
    requires few { length shown.now < 2 ^ 31 }
    requires ahead { IsAhead ahead.old shown.now }
    requires left { is_left ahead.old shown.now last ≡ true }
    ensures ahead { OnOk result (IsAhead ahead.new shown.now) }
    ensures told { last ≡ false → AreTold shown.now ahead.old.settled → OnOk result (AreTold shown.now ahead.new.settled) }
    ensures onward { OnOk result ((length shown.now - ahead.new.placed) + (length shown.now - ahead.new.followed) < (length shown.now - ahead.old.placed) + (length shown.now - ahead.old.followed)) }
    ensures entries { OnOk result ((more : Listed Line) → IsSettled (shown.now ++ more) ahead.new.settled → placed_from (shown.now ++ more) ahead.old.placed ≡ entries.new.items ++ placed_from (shown.now ++ more) ahead.new.placed) }
    ensures fault { IfErr result (λ fault. IsPlaceFault shown.now fault) }
{
    settle_next(alloc, ahead, shown, last)?;
    entries.clear();
    place_block(ahead, shown, entries)
}

// Places the next settled lines, so many as one block has.
fn place_block(
    ahead: &mut Ahead,
    shown: &[Shown],
    entries: &mut Vec<(u32, Entry)>,
) -> Result<(), HistoryFault>
    requires few { length shown.now < 2 ^ 31 }
    requires ahead { IsAhead ahead.old shown.now }
    requires none { entries.old.items ≡ [] }
    ensures ahead { OnOk result (IsAhead ahead.new shown.now) }
    ensures settled { ahead.new.settled ≡ ahead.old.settled }
    ensures followed { ahead.new.followed ≡ ahead.old.followed }
    ensures behind { OnOk result (ahead.old.placed ≤ ahead.new.placed) }
    ensures onward { ahead.old.placed < ahead.old.settled → OnOk result (ahead.old.placed < ahead.new.placed) }
    ensures entries { OnOk result ((more : Listed Line) → IsSettled (shown.now ++ more) ahead.old.settled → placed_from (shown.now ++ more) ahead.old.placed ≡ entries.new.items ++ placed_from (shown.now ++ more) ahead.new.placed) }
    ensures fault { IfErr result (λ fault. IsPlaceFault shown.now fault) }
{
    let from = ahead.placed;
    let settled = ahead.settled;
    let to = block_end(from, settled);
    let begins = &ahead.following.begins[..settled];
    let watches = &mut ahead.watches;
    let lines = Lines { shown, begins };
    place_lines(watches, &lines, settled, from, to, entries)?;
    ahead.placed = to;
    Ok(())
}

// The end of a block of lines between these places.
fn block_end(from: usize, to: usize) -> usize
    requires { from ≤ to }
    ensures onward { from < to → from < result }
    ensures behind { from ≤ result }
    ensures within { result ≤ to }
{
    if to - from <= BLOCK_LINES {
        to
    } else {
        from + BLOCK_LINES
    }
}

// Where all settled lines are placed, follows lines up to a place where each loss is told, or to the
// end of these lines. Where they are the last ones, nothing behind them changes what they give.
fn settle_next(
    alloc: Global,
    ahead: &mut Ahead,
    shown: &[Shown],
    last: bool,
) -> Result<(), HistoryFault>
    requires few { length shown.now < 2 ^ 31 }
    requires ahead { IsAhead ahead.old shown.now }
    requires left { is_left ahead.old shown.now last ≡ true }
    ensures ahead { OnOk result (IsAhead ahead.new shown.now) }
    ensures told { last ≡ false → AreTold shown.now ahead.old.settled → OnOk result (AreTold shown.now ahead.new.settled) }
    ensures placed { OnOk result (ahead.new.placed ≡ ahead.old.placed) }
    ensures behind { OnOk result (ahead.old.followed ≤ ahead.new.followed) }
    ensures onward { OnOk result ((ahead.old.placed < ahead.new.settled) ⊎ (ahead.old.followed < ahead.new.followed)) }
    ensures fault { IfErr result (λ fault. IsPlaceFault shown.now fault) }
{
    if ahead.placed < ahead.settled {
        return Ok(());
    }
    let from = ahead.followed;
    let (to, told) = follow_on(alloc, &mut ahead.following, shown, from)?;
    ahead.followed = to;
    if told || last {
        ahead.settled = to;
    }
    Ok(())
}

// Follows the lines from this place on, up to one where each loss is told, or to the end.
fn follow_on(
    alloc: Global,
    following: &mut Following,
    shown: &[Shown],
    from: usize,
) -> Result<(usize, bool), HistoryFault>
    requires few { length shown.now < 2 ^ 31 }
    requires within { from ≤ length shown.now }
    requires follows { Follows following.old (take from shown.now) }
    ensures behind { IfOk result (λ reached. from ≤ reached.0) }
    ensures onward { IfOk result (λ reached. from < length shown.now → from < reached.0) }
    ensures within { IfOk result (λ reached. reached.0 ≤ length shown.now) }
    ensures follows { IfOk result (λ reached. Follows following.new (take reached.0 shown.now)) }
    ensures told { IfOk result (λ reached. reached.1 ≡ true → AreTold shown.now reached.0) }
    ensures end { IfOk result (λ reached. reached.1 ≡ false → reached.0 ≡ length shown.now) }
    ensures fault { IfErr result (λ fault. IsPlaceFault shown.now fault) }
{
    let mut at = from;
    'blocks: while at < shown.len() {
        let to = block_end(at, shown.len());
        follow_to(alloc, following, shown, at, to)?;
        at = to;
        if are_told(following) {
            return Ok((at, true));
        }
    }
    Ok((at, false))
}

/// Follows the lines between these places.
pub fn follow_to(
    alloc: Global,
    following: &mut Following,
    shown: &[Shown],
    from: usize,
    to: usize,
) -> Result<(), HistoryFault>
    requires few { length shown.now < 2 ^ 31 }
    requires onward { from ≤ to }
    requires within { to ≤ length shown.now }
    requires follows { Follows following.old (take from shown.now) }
    ensures follows { OnOk result (Follows following.new (take to shown.now)) }
    ensures fault { IfErr result (λ fault. IsPlaceFault shown.now fault) }
{
    match follow(alloc, following, shown, from, to) {
        Ok(()) => Ok(()),
        Err(PlaceFault::At(line, rule)) => Err(HistoryFault::At(line, rule)),
        Err(PlaceFault::NoMemory) => Err(HistoryFault::NoMemory),
    }
}
