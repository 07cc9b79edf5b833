// Tokens by object, in the order of use.
ghost use Rattle.std.specs.Prelude.{◌≡◌, ◌==◌, [], ◌∷◌, ◌++◌, T, true, false, None, is_some, nat_eq, ◌<◌, ◌≤◌, ◌+◌, IfOk, OnErr, OnOk, option_copied, length, reverse, take};
ghost use Rattle.std.specs.List.{IsDistinct, list_all};
ghost use Rattle.std.specs.Map.{keys_of, remove_entry};
ghost use Rattle.ec_base.specs.Tables.{at, keys, renewed, without};
ghost use Rattle.ec_volume.specs.Update.{member, is_sound, operands};
ghost use Rattle.ec_volume.specs.RoomWanted.{wants_room};
ghost use Rattle.ec_cache.specs.Cache as cache;
ghost use Rattle.ec_cache.specs.Numbers as numbers;
ghost use Rattle.ec_base.specs.Holds.{weaker};
ghost use Rattle.ec_cache.specs.Held.{used_in, is_token, unpinned, holds_by, unnumbered, unnumbered_at, imaged, changed_at, changed_in, are_spare, is_shift};

use crate::state::Held;
use ec_base::{Hold, NoMemory, ObjId};
use ec_volume::Update;
use lru::LruCache;
use std::alloc::Global;
use std::num::NonZeroUsize;

// The token on the object.
pub(crate) fn held_at<'a>(tokens: &'a LruCache<u32, Held>, obj: ObjId) -> Option<&'a Held>
    ensures { option_copied result ≡ at obj (reverse tokens.now.entries) }
{
    if tokens.len() == 0 {
        return None;
    }
    tokens.peek(&obj.get())
}

// The object is the most recently used one.
pub(crate) fn put_last(tokens: &mut LruCache<u32, Held>, obj: ObjId)
    ensures order { reverse tokens.new.entries ≡ used_in obj (reverse tokens.old.entries) (at obj (reverse tokens.old.entries)) }
    ensures cap { tokens.new.cap ≡ tokens.old.cap }
{
    if tokens.len() > 0 {
        tokens.promote(&obj.get());
    }
}

// The bound of the map is raised before one more token would fill it.
fn raise_bound(tokens: &mut LruCache<u32, Held>)
    ensures order { tokens.new.entries ≡ tokens.old.entries }
    ensures room { length tokens.new.entries + 1 < tokens.new.cap }
    ensures apart { IsDistinct nat_eq (keys_of tokens.new.entries) }
{
    let wanted = tokens.len() + 2;
    if tokens.cap().get() < wanted {
        if let Some(bound) = NonZeroUsize::new(wanted.saturating_mul(2)) {
            tokens.resize(bound);
        }
    }
}

// A token on an object that has none. It's the most recently used one.
pub(crate) fn add(tokens: &mut LruCache<u32, Held>, obj: ObjId, held: Held) -> Result<(), NoMemory>
    requires { at obj (reverse tokens.old.entries) ≡ None }
    ensures ok { OnOk result (tokens.new.entries ≡ (obj, held) ∷ tokens.old.entries) }
    ensures renewed { OnOk result (reverse tokens.new.entries ≡ renewed obj held (reverse tokens.old.entries)) }
    ensures err { OnErr result (tokens.new.entries ≡ tokens.old.entries) }
    ensures id { 1 ≤ obj }
{
    raise_bound(tokens);
    tokens.put(obj.get(), held)?;
    Ok(())
}

// Another token on an object that has one. It's the most recently used one.
pub(crate) fn renew(tokens: &mut LruCache<u32, Held>, obj: ObjId, held: Held)
    requires { is_some (at obj (reverse tokens.old.entries)) ≡ true }
    ensures order { reverse tokens.new.entries ≡ renewed obj held (reverse tokens.old.entries) }
    ensures id { 1 ≤ obj }
{
    let number = obj.get();
    if tokens.len() > 0 {
        let _replaced = tokens.put(number, held);
    }
}

// The token is taken out that was just added.
pub(crate) fn take_back(tokens: &mut LruCache<u32, Held>, obj: ObjId)
    ensures { tokens.new.entries ≡ remove_entry (nat_eq obj) tokens.old.entries }
{
    tokens.pop(&obj.get());
}

pub(crate) fn give_up(tokens: &mut LruCache<u32, Held>, obj: ObjId)
    ensures { reverse tokens.new.entries ≡ without obj (reverse tokens.old.entries) }
{
    if tokens.len() > 0 {
        tokens.pop(&obj.get());
    }
}

// The token has at most this mode, and keeps its place.
pub(crate) fn weaken(tokens: &mut LruCache<u32, Held>, obj: ObjId, to: Hold)
    ensures { reverse tokens.new.entries ≡ cache.lowered obj to (reverse tokens.old.entries) }
{
    if tokens.len() == 0 {
        return;
    }
    if let Some(held) = tokens.peek_mut(&obj.get()) {
        held.hold = weaker(to, held.hold);
    }
}

pub(crate) fn weaker(a: Hold, b: Hold) -> Hold
    ensures { result ≡ weaker a b }
{
    if a.is_below(&b) { a } else { b }
}

// The least recently used tokens of objects that aren't pinned, with their numbers, but so many
// at most.
pub(crate) fn least_used(
    alloc: Global,
    tokens: &LruCache<u32, Held>,
    pinned: &[ObjId],
    most: usize,
) -> Result<Vec<(ObjId, u64)>, NoMemory>
    requires { T (list_all is_token (reverse tokens.now.entries)) }
    ensures { IfOk result (λ list. list.items ≡ take most (numbers.numbers (unpinned pinned.now (reverse tokens.now.entries)))) }
{
    let mut list = Vec::new(alloc);
    let mut rest = tokens.iter();
    'looking: while list.len() < most {
        let Some((id, held)) = rest.next_back() else {
            break;
        };
        note_unpinned(&mut list, *id, held, pinned)?;
    }
    Ok(list)
}

// The token's number goes into the list, unless the object is pinned.
fn note_unpinned(
    list: &mut Vec<(ObjId, u64)>,
    id: u32,
    held: &Held,
    pinned: &[ObjId],
) -> Result<(), NoMemory>
    requires { 1 ≤ id }
    ensures { OnOk result (list.new.items ≡ list.old.items ++ numbers.numbers (unpinned pinned.now ((id, held.now) ∷ []))) }
{
    let Some(obj) = ObjId::new(id) else {
        return Ok(());
    };
    if !is_pinned(obj, pinned) {
        list.push((obj, held.number))?;
    }
    Ok(())
}

fn is_pinned(obj: ObjId, pinned: &[ObjId]) -> bool
    ensures { result ≡ member obj pinned.now }
{
    pinned.contains(&obj)
}

// The modes of the tokens on these objects, in their order.
pub(crate) fn holds_by(
    alloc: Global,
    slots: &[(ObjId, Option<Hold>)],
    tokens: &LruCache<u32, Held>,
) -> Result<Vec<(ObjId, Hold)>, NoMemory>
    ensures { IfOk result (λ list. list.items ≡ holds_by slots.now (reverse tokens.now.entries)) }
{
    let mut list = Vec::new(alloc);
    for (obj, _) in slots {
        if let Some(held) = held_at(tokens, *obj) {
            list.push((*obj, held.hold))?;
        }
    }
    Ok(list)
}

// The tokens on these objects have no number.
pub(crate) fn unnumber(tokens: &mut LruCache<u32, Held>, held: &[(ObjId, Hold)])
    ensures { reverse tokens.new.entries ≡ unnumbered (keys held.now) (reverse tokens.old.entries) }
{
    for (obj, _) in held {
        unnumber_one(tokens, *obj);
    }
}

fn unnumber_one(tokens: &mut LruCache<u32, Held>, obj: ObjId)
    ensures { reverse tokens.new.entries ≡ unnumbered_at obj (reverse tokens.old.entries) }
{
    if tokens.len() == 0 {
        return;
    }
    if let Some(held) = tokens.peek_mut(&obj.get()) {
        held.number = 0;
    }
}

// What the update makes of the images of its operands, which are used in their order. What may want
// memory comes first.
pub(crate) fn change(
    tokens: &mut LruCache<u32, Held>,
    alloc: Global,
    update: &Update,
    ids: &[ObjId],
) -> Result<(), NoMemory>
    requires sound { T (is_sound update.now) }
    requires operands { ids.now ≡ operands update.now }
    ensures ok { OnOk result (reverse tokens.new.entries ≡ changed_in update.now ids.now (reverse tokens.old.entries)) }
    ensures err { OnErr result (tokens.new.entries ≡ tokens.old.entries) }
{
    if moves(update) {
        change_moving(tokens, alloc, update, ids)
    } else {
        change_in_order(tokens, alloc, update, ids)
    }
}

// Whether an object moves to another directory.
fn moves(update: &Update) -> bool
    ensures { result ≡ is_shift update.now }
{
    matches!(update, Update::Shift { .. })
}

// The first operand alone may want memory.
fn change_in_order(
    tokens: &mut LruCache<u32, Held>,
    alloc: Global,
    update: &Update,
    ids: &[ObjId],
) -> Result<(), NoMemory>
    requires sound { T (is_sound update.now) }
    requires operands { ids.now ≡ operands update.now }
    requires stays { is_shift update.now ≡ false }
    ensures ok { OnOk result (reverse tokens.new.entries ≡ changed_in update.now ids.now (reverse tokens.old.entries)) }
    ensures err { OnErr result (tokens.new.entries ≡ tokens.old.entries) }
{
    match ids {
        [] => Ok(()),
        [first, rest @ ..] => {
            change_one(tokens, alloc, update, *first)?;
            change_rest(tokens, alloc, update, rest);
            Ok(())
        }
    }
}

// The second operand alone may want memory: the directory that the object moves into.
#[tactic(auto, using(crate::proofs::Changing::shift_apart, crate::proofs::Changing::shift_first))]
fn change_moving(
    tokens: &mut LruCache<u32, Held>,
    alloc: Global,
    update: &Update,
    ids: &[ObjId],
) -> Result<(), NoMemory>
    requires sound { T (is_sound update.now) }
    requires operands { ids.now ≡ operands update.now }
    requires moves { is_shift update.now ≡ true }
    ensures ok { OnOk result (reverse tokens.new.entries ≡ changed_in update.now ids.now (reverse tokens.old.entries)) }
    ensures err { OnErr result (tokens.new.entries ≡ tokens.old.entries) }
{
    match ids {
        [dir, into, rest @ ..] => {
            change_second(tokens, alloc, update, *dir, *into)?;
            change_rest(tokens, alloc, update, rest);
            Ok(())
        }
        [first] => change_one(tokens, alloc, update, *first),
        [] => Ok(()),
    }
}

// The first two operands, of which the second one may want memory.
#[tactic(auto, using(crate::proofs::Changing::ok_spare, crate::proofs::Changing::second_first))]
fn change_second(
    tokens: &mut LruCache<u32, Held>,
    alloc: Global,
    update: &Update,
    first: ObjId,
    second: ObjId,
) -> Result<(), NoMemory>
    requires sound { T (is_sound update.now) }
    requires apart { (first == second) ≡ false }
    requires spare { wants_room update.now first ≡ false }
    ensures ok { OnOk result (reverse tokens.new.entries ≡ changed_at update.now second (changed_at update.now first (reverse tokens.old.entries))) }
    ensures err { OnErr result (tokens.new.entries ≡ tokens.old.entries) }
{
    change_image(tokens, alloc, update, second)?;
    change_one(tokens, alloc, update, first).unwrap();
    put_last(tokens, second);
    Ok(())
}

// Operands that take no memory.
#[tactic(auto, using(crate::proofs::Changing::ok_listed, crate::proofs::Changing::rest_spare))]
fn change_rest(tokens: &mut LruCache<u32, Held>, alloc: Global, update: &Update, ids: &[ObjId])
    requires sound { T (is_sound update.now) }
    requires spare { T (are_spare update.now ids.now) }
    ensures { reverse tokens.new.entries ≡ changed_in update.now ids.now (reverse tokens.old.entries) }
{
    match ids {
        [] => {}
        [first, rest @ ..] => {
            change_one(tokens, alloc, update, *first).unwrap();
            change_rest(tokens, alloc, update, rest);
        }
    }
}

fn change_one(
    tokens: &mut LruCache<u32, Held>,
    alloc: Global,
    update: &Update,
    obj: ObjId,
) -> Result<(), NoMemory>
    requires { T (is_sound update.now) }
    ensures ok { OnOk result (reverse tokens.new.entries ≡ changed_at update.now obj (reverse tokens.old.entries)) }
    ensures err { OnErr result (tokens.new.entries ≡ tokens.old.entries) }
    ensures room { OnErr result (wants_room update.now obj ≡ true) }
{
    change_image(tokens, alloc, update, obj)?;
    put_last(tokens, obj);
    Ok(())
}

// The object keeps its place in the order of use.
fn change_image(
    tokens: &mut LruCache<u32, Held>,
    alloc: Global,
    update: &Update,
    obj: ObjId,
) -> Result<(), NoMemory>
    requires { T (is_sound update.now) }
    ensures ok { OnOk result (reverse tokens.new.entries ≡ imaged update.now obj (reverse tokens.old.entries)) }
    ensures err { OnErr result (tokens.new.entries ≡ tokens.old.entries) }
    ensures room { OnErr result (wants_room update.now obj ≡ true) }
{
    if tokens.len() == 0 {
        return Ok(());
    }
    match tokens.peek_mut(&obj.get()) {
        Some(held) => held.image.effect(alloc, update, obj),
        None => Ok(()),
    }
}
