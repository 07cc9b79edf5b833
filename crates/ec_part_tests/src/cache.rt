// What a cache answers, call by call. The calls of each test are carried out over one cache.
ghost use Rattle.std.specs.Prelude.{◌≡◌, true};
ghost use Rattle.ec_cache.specs.Cache.{images_held};
ghost use Rattle.ec_cache.specs.Held.{is_within};
ghost use Rattle.ec_volume.specs.Update.{fits};

use ec_base::Hold::{self, Free, Read, Write};
use ec_base::{List, NoMemory, ObjId};
use ec_cache::Cache;
use ec_volume::{Image, Look, Update};
use std::alloc::Global;

// Of a digit.
fn number(letter: u8) -> u64 {
    u64::from(letter.wrapping_sub(b'0'))
}

fn digit(number: u64) -> u8 {
    match u8::try_from(number) {
        Ok(number) => b'0'.wrapping_add(number),
        Err(_) => b'+',
    }
}

fn object(letter: u8) -> ObjId {
    ObjId::new(u32::from(letter.wrapping_sub(b'0'))).unwrap_or(ObjId::root())
}

fn hold(letter: u8) -> Hold {
    match letter {
        b'r' => Read,
        b'w' => Write,
        _ => Free,
    }
}

fn letter(hold: Hold) -> u8 {
    match hold {
        Read => b'r',
        Write => b'w',
        Free => b'f',
    }
}

fn sign(is_so: bool) -> u8 {
    if is_so { b'+' } else { b'-' }
}

fn are_pairs(held: &[(ObjId, Hold)], want: &[u8]) -> bool {
    let mut rest = want;
    for (obj, hold) in held {
        let pair = [digit(u64::from(obj.get())), letter(*hold)];
        match rest.strip_prefix(pair.as_slice()) {
            Some(behind) => rest = behind,
            None => return false,
        }
    }
    rest.is_empty()
}

// Whether this object alone, or none, is given up, with this number.
fn is_gone(gone: &[(ObjId, u64)], want: &[u8]) -> bool {
    match gone {
        [] => want.is_empty(),
        [(obj, number)] => want == [digit(u64::from(obj.get())), digit(*number)].as_slice(),
        _ => false,
    }
}

fn gives_up(cache: &mut Cache, pinned: &[ObjId], want: &[u8]) -> Result<bool, NoMemory> {
    let gone = cache.evict(pinned)?;
    Ok(is_gone(gone.as_slice(), want))
}

fn lists(cache: &Cache, want: &[u8]) -> Result<bool, NoMemory> {
    let held = cache.tokens()?;
    Ok(are_pairs(held.as_slice(), want))
}

fn begins_anew(cache: &mut Cache, want: &[u8]) -> Result<bool, NoMemory> {
    let held = cache.new_epoch()?;
    Ok(are_pairs(held.as_slice(), want))
}

fn fits_at(cache: &Cache, update: &Update, obj: ObjId) -> bool
    ensures { result ≡ fits update.now obj (images_held cache.now obj) }
{
    match cache.image(obj) {
        Some(image) => image.fits(update, obj),
        None => Image::Gone.fits(update, obj),
    }
}

// Changes the mode of an object where that fits.
fn changes(cache: &mut Cache, obj: ObjId, mode: u16) -> bool {
    let update = Update::Mode { obj, mode };
    let is_done = if update.sound() && fits_at(cache, &update, obj) {
        cache.change(&update).is_ok()
    } else {
        false
    };
    drop(update);
    is_done && mode_of(cache, obj) == Some(mode)
}

fn mode_of(cache: &Cache, obj: ObjId) -> Option<u16> {
    match cache.image(obj)? {
        Image::File { mode, .. } => Some(*mode),
        _ => None,
    }
}

// A token that is held is under recall.
fn limits(cache: &mut Cache, obj: ObjId, to: Hold) -> bool {
    if cache.held(obj).is_none() {
        return false;
    }
    cache.limit(obj, to);
    true
}

fn file(alloc: Global) -> Image
    ensures { is_within result ≡ true }
{
    Image::File {
        mode: 0o644,
        stamp: 0,
        owner: 0,
        bytes: List::of(Vec::new(alloc)),
    }
}

// Whether the token is taken, of an object that is gone.
fn takes(cache: &mut Cache, obj: ObjId, hold: Hold, number: u64) -> Result<bool, NoMemory> {
    cache.take(obj, hold, number, Image::Gone)
}

fn passes(cache: &mut Cache, obj: ObjId, number: u64) -> Result<bool, NoMemory> {
    cache.passed(obj, number)?;
    Ok(true)
}

fn uses(cache: &mut Cache, obj: ObjId) -> bool {
    cache.used(obj);
    true
}

fn lowers(cache: &mut Cache, obj: ObjId, to: Hold) -> bool {
    cache.lower(obj, to);
    true
}

// The letter at this place of a step, or 0.
fn at(step: &[u8], place: usize) -> u8 {
    step.get(place).copied().unwrap_or(0)
}

// The letters from this place on.
fn from(step: &[u8], place: usize) -> &[u8] {
    step.get(place..).unwrap_or(&[])
}

// Whether a step that changes the cache answers so: a token that is taken, with a file too, or passed, used, lowered or limited, and a mode that
// is changed. Objects and numbers are digits.
fn acts(alloc: Global, cache: &mut Cache, step: &[u8]) -> Result<bool, NoMemory> {
    let obj = object(at(step, 1));
    let letter = at(step, 2);
    match at(step, 0) {
        b't' => {
            let is_taken = takes(cache, obj, hold(letter), number(at(step, 3)))?;
            Ok(sign(is_taken) == at(step, 4))
        }
        b'f' => cache.take(obj, Write, number(letter), file(alloc)),
        b'p' => passes(cache, obj, number(letter)),
        b'u' => Ok(uses(cache, obj)),
        b'l' => Ok(lowers(cache, obj, hold(letter))),
        b'm' => Ok(limits(cache, obj, hold(letter))),
        b'c' => Ok(sign(changes(cache, obj, 0o600)) == letter),
        _ => shows(cache, obj, step),
    }
}

// The same of one that asks whether a token is held, its number, whether its image is kept or shown, what is given up beside an object that is
// pinned, and the tokens, which may begin a new epoch.
fn shows(cache: &mut Cache, obj: ObjId, step: &[u8]) -> Result<bool, NoMemory> {
    let letter = at(step, 2);
    match at(step, 0) {
        b'h' => Ok(sign(cache.holds(obj, hold(letter))) == at(step, 3)),
        b'n' => Ok(cache.last(obj) == number(letter)),
        b'k' => Ok(sign(cache.image(obj).is_some()) == letter),
        b's' => Ok(sign(cache.look(obj).is_some()) == letter),
        b'g' => gives_up(cache, &[obj], from(step, 2)),
        b'T' => lists(cache, from(step, 1)),
        b'E' => begins_anew(cache, from(step, 1)),
        _ => Ok(false),
    }
}

// Whether all steps answer so.
fn go(alloc: Global, cache: &mut Cache, steps: &[u8]) -> Result<bool, NoMemory> {
    for step in steps.split(|byte| *byte == b' ') {
        if !acts(alloc, cache, step)? {
            return Ok(false);
        }
    }
    Ok(true)
}

// The same over a new cache for so many tokens.
fn run(alloc: Global, capacity: usize, steps: &[u8]) -> Result<bool, NoMemory> {
    let mut cache = Cache::new(alloc, capacity)?;
    let done = go(alloc, &mut cache, steps);
    drop(cache);
    done
}

#[test]
fn calls_on_caches(rt: HostRuntime) {
    // In three rows there are three tokens where two may stay, and the first one taken was used since.
    let rows: [(usize, &[u8]); 6] = [
        // Numbers rise, also over one that was only passed.
        (4096, b"t9r3+ t9r3- p97 n97 t9r5- k9+ T9r"),
        // What is lowered is held less, and its number stays.
        (1, b"t5w1+ t6w2+ u5 l5r h5r+ h5w- l6f h6r- k6- n62"),
        // The least used token is given up.
        (2, b"t5r1+ t6r2+ u5 t7r3+ g462 g4"),
        // A pinned one isn't.
        (2, b"t5r1+ t6r2+ u5 t7r3+ g651 k6+"),
        // Tokens are listed by rising ids, and stay in a new epoch, without their numbers and images.
        (2, b"t5r1+ t6r2+ u5 t7r3+ u5 T5r6r7r E5r6r7r n70 h6r+ s5-"),
        // An image is changed in place, and a token under recall counts less.
        (4096, b"c9- f91 c9+ m9r h9r+ h9w-"),
    ];
    for (capacity, steps) in rows {
        assert!(rt; run(rt.alloc(), capacity, steps) == Ok(true));
    }
}
