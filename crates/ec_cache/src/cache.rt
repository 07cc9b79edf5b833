// A clerk's tokens with their images, in the order of use.
ghost use Rattle.std.specs.Prelude.{◌≡◌, ◌≤◌, T, true, None, is_some, IfOk, IfSome, OnErr, OnOk, length, option_copied, option_map, reverse};
ghost use Rattle.ec_base.specs.Tables.{at, keys, put, renewed};
ghost use Rattle.ec_volume.specs.Update.{is_sound, operands, first_unfit};
ghost use Rattle.ec_cache.specs.Cache as cache;
ghost use Rattle.ec_cache.specs.Numbers as numbers;
ghost use Rattle.ec_cache.specs.Held.{apart_from, image_of, is_within};

use crate::state::Held;
use crate::{slots, tokens};
use ec_base::{Hold, NoMemory, ObjId, SortedMap};
use ec_volume::{Image, Look, Update, operands};
use lru::LruCache;
use std::alloc::Global;
use std::marker::Model;
use std::num::NonZeroUsize;

/// What a clerk holds: tokens on objects, each with the object's image, in the order of use.
pub struct Cache {
    capacity: usize,
    // by object, the most recently used one first
    tokens: LruCache<u32, Held>,
    lasts: SortedMap<ObjId, u64>,
    // for each held object the mode down to which its token counts, if it's under recall
    slots: SortedMap<ObjId, Option<Hold>>,
}

// Who drops one calls this, and needn't take it apart.
impl Drop for Cache {
    fn drop(self) {
        let Cache {
            capacity: _,
            tokens,
            lasts,
            slots,
        } = self;
        drop(tokens);
        drop(lasts);
        drop(slots);
    }
}

impl Model for Cache {
    ghost use Rattle.std.specs.Prelude.{reverse};
    ghost use Rattle.ec_cache.specs.declared.state.CacheState.{CacheState};
    ghost use Rattle.ec_cache.specs.Held.{IsCache};
    ghost use Rattle.ec_cache.specs.Marks.{marks};

    ghost Value = { CacheState };

    ghost view = { λ c. record { capacity = c.capacity; held = reverse c.tokens.entries; lasts = c.lasts; limits = marks c.slots } };

    ghost invariant = { λ c. IsCache (reverse c.tokens.entries) c.slots };
}

impl Cache {
    /// No token, in a cache that keeps so many.
    pub fn new(alloc: Global, capacity: usize) -> Result<Cache, NoMemory>
        ensures { IfOk result (λ made. made ≡ cache.empty capacity) }
    {
        Ok(Cache {
            capacity,
            tokens: LruCache::sparse(alloc, NonZeroUsize::MIN)?,
            lasts: SortedMap::new(alloc),
            slots: SortedMap::new(alloc),
        })
    }

    /// The last number that was taken or given back on the object in this epoch, or 0.
    pub fn last(&self, obj: ObjId) -> u64
        ensures { result ≡ cache.last obj self.now }
    {
        self.lasts.get(&obj).copied().unwrap_or(0)
    }

    /// Whether a token of at least this mode is held. One under recall counts only down to the
    /// recalled mode.
    pub fn holds(&self, obj: ObjId, hold: Hold) -> bool
        ensures { result ≡ cache.holds obj hold self.now }
    {
        !self.counted(obj).is_below(&hold)
    }

    // The mode that counts.
    fn counted(&self, obj: ObjId) -> Hold
        ensures { result ≡ cache.counted obj self.now }
    {
        tokens::weaker(self.mode(obj), slots::counts_to(&self.slots, obj))
    }

    /// The whole mode of the token.
    pub fn mode(&self, obj: ObjId) -> Hold
        ensures { result ≡ cache.mode obj self.now }
    {
        match tokens::held_at(&self.tokens, obj) {
            Some(held) => held.hold,
            None => Hold::Free,
        }
    }

    /// The token that is held on the object.
    pub fn held(&self, obj: ObjId) -> Option<&Held>
        ensures { option_copied result ≡ at obj self.now.held }
    {
        tokens::held_at(&self.tokens, obj)
    }

    /// How many tokens are held.
    pub fn len(&self) -> usize
        ensures { result ≡ length self.now.held }
    {
        self.tokens.len()
    }

    /// How many tokens may stay.
    pub fn capacity(&self) -> usize
        ensures { result ≡ self.now.capacity }
    {
        self.capacity
    }

    /// The image of the object, where a token is held.
    pub fn image(&self, obj: ObjId) -> Option<&Image>
        ensures image { option_copied result ≡ option_map image_of (at obj self.now.held) }
        ensures within { IfSome result (λ image. is_within image.now ≡ true) }
    {
        match tokens::held_at(&self.tokens, obj) {
            Some(held) => Some(&held.image),
            None => None,
        }
    }

    /// Takes a token whose number is above the last one of the object: true. With any other number
    /// nothing changes: false.
    pub fn take(
        &mut self,
        obj: ObjId,
        hold: Hold,
        number: u64,
        image: Image,
    ) -> Result<bool, NoMemory>
        requires { is_within image ≡ true }
        ensures taken { IfOk result (λ taken. taken ≡ cache.is_new obj number self.old) }
        ensures ok { OnOk result (self.new ≡ cache.take obj hold number image self.old) }
        ensures err { OnErr result (self.new ≡ self.old) }
    {
        if number <= self.last(obj) {
            return Ok(false);
        }
        let held = Held {
            hold,
            number,
            image,
        };
        if tokens::held_at(&self.tokens, obj).is_some() {
            self.lasts.insert(obj, number)?;
            tokens::renew(&mut self.tokens, obj, held);
            slots::clear(&mut self.slots, obj);
        } else {
            slots::add(&mut self.slots, obj)?;
            if let Err(fault) = add_with_number(&mut self.tokens, &mut self.lasts, obj, held) {
                slots::remove(&mut self.slots, obj);
                return Err(fault);
            }
        }
        Ok(true)
    }

    /// Carries out an update that fits the held images of its operands. These become the most
    /// recently used objects, in their order.
    pub fn change(&mut self, update: &Update) -> Result<(), NoMemory>
        requires sound { T (is_sound update.now) }
        requires fits { first_unfit update.now (cache.images_held self.old) (operands update.now) ≡ None }
        ensures ok { OnOk result (self.new ≡ cache.change update.now (operands update.now) self.old) }
        ensures err { OnErr result (self.new ≡ self.old) }
    {
        let alloc = *self.lasts.allocator();
        let ids = operands(alloc, update)?;
        tokens::change(&mut self.tokens, alloc, update, &ids)
    }

    /// Lowers the token to this mode, and forgets that it was under recall. Of a token that is lowered
    /// to Free nothing stays. It takes no memory.
    pub fn lower(&mut self, obj: ObjId, to: Hold)
        ensures { self.new ≡ cache.lower obj to self.old }
    {
        if to == Hold::Free {
            tokens::give_up(&mut self.tokens, obj);
            slots::remove(&mut self.slots, obj);
        } else {
            tokens::weaken(&mut self.tokens, obj, to);
            slots::clear(&mut self.slots, obj);
        }
    }

    /// A held token is under recall: it counts only down to this mode, until it's lowered or a new
    /// number is taken. Of several such modes the lowest counts. It takes no memory.
    pub fn limit(&mut self, obj: ObjId, to: Hold)
        requires { is_some (at obj self.old.held) ≡ true }
        ensures { self.new ≡ cache.limit obj to self.old }
    {
        let limit = tokens::weaker(to, slots::counts_to(&self.slots, obj));
        slots::mark(&mut self.slots, obj, limit);
    }

    /// Raises the last number of the object.
    pub fn passed(&mut self, obj: ObjId, number: u64) -> Result<(), NoMemory>
        ensures ok { OnOk result (self.new ≡ cache.passed obj number self.old) }
        ensures err { OnErr result (self.new ≡ self.old) }
    {
        let last = self.last(obj);
        self.lasts.insert(obj, number.max(last))
    }

    /// Makes the object the most recently used one. It takes no memory.
    pub fn used(&mut self, obj: ObjId)
        ensures { self.new ≡ cache.used obj self.old }
    {
        tokens::put_last(&mut self.tokens, obj);
    }

    /// Gives tokens up until at most `capacity` stay, the least recently used ones first, but none
    /// of the pinned objects. It shows the objects with their numbers, in that order.
    pub fn evict(&mut self, pinned: &[ObjId]) -> Result<Vec<(ObjId, u64)>, NoMemory>
        ensures gone { IfOk result (λ gone. gone.items ≡ numbers.numbers (cache.evicted pinned.now self.old)) }
        ensures ok { OnOk result (self.new ≡ cache.evict pinned.now self.old) }
        ensures err { OnErr result (self.new ≡ self.old) }
    {
        let excess = self.tokens.len().saturating_sub(self.capacity);
        let alloc = *self.lasts.allocator();
        let gone = tokens::least_used(alloc, &self.tokens, pinned, excess)?;
        give_all_up(&mut self.tokens, &mut self.slots, &gone);
        Ok(gone)
    }

    /// The tokens that are held, by rising id, each with its whole mode.
    pub fn tokens(&self) -> Result<Vec<(ObjId, Hold)>, NoMemory>
        ensures { IfOk result (λ held. held.items ≡ cache.tokens self.now) }
    {
        tokens::holds_by(*self.lasts.allocator(), self.slots.items(), &self.tokens)
    }

    /// A new epoch: the tokens stay, and have the number 0; no number was taken in it yet, and no
    /// token is under recall. It shows the tokens, by rising id.
    pub fn new_epoch(&mut self) -> Result<Vec<(ObjId, Hold)>, NoMemory>
        ensures tokens { IfOk result (λ held. held.items ≡ cache.tokens self.old) }
        ensures ok { OnOk result (self.new ≡ cache.new_epoch self.old) }
        ensures err { OnErr result (self.new ≡ self.old) }
    {
        let held = self.tokens()?;
        let slots = slots::emptied(&self.slots)?;
        tokens::unnumber(&mut self.tokens, &held);
        self.lasts = SortedMap::new(*slots.allocator());
        self.slots = slots;
        Ok(held)
    }
}

impl Look for Cache {
    ghost images = { cache.images_held };

    fn look(&self, id: ObjId) -> Option<&Image> {
        match self.image(id)? {
            Image::Gone => None,
            image => Some(image),
        }
    }
}

// A new token, and its number as the object's last one.
fn add_with_number(
    tokens: &mut LruCache<u32, Held>,
    lasts: &mut SortedMap<ObjId, u64>,
    obj: ObjId,
    held: Held,
) -> Result<(), NoMemory>
    requires { at obj (reverse tokens.old.entries) ≡ None }
    ensures ok { OnOk result (reverse tokens.new.entries ≡ renewed obj held (reverse tokens.old.entries)) }
    ensures lasts { OnOk result (lasts.new ≡ put obj held.number lasts.old) }
    ensures err { OnErr result (tokens.new.entries ≡ tokens.old.entries) }
    ensures kept { OnErr result (lasts.new ≡ lasts.old) }
    ensures id { 1 ≤ obj }
{
    let number = held.number;
    tokens::add(tokens, obj, held)?;
    if let Err(fault) = lasts.insert(obj, number) {
        tokens::take_back(tokens, obj);
        return Err(fault);
    }
    Ok(())
}

// The tokens on these objects go, and their slots.
fn give_all_up(
    tokens: &mut LruCache<u32, Held>,
    slots: &mut SortedMap<ObjId, Option<Hold>>,
    gone: &[(ObjId, u64)],
)
    ensures tokens { reverse tokens.new.entries ≡ apart_from (keys gone.now) (reverse tokens.old.entries) }
    ensures slots { slots.new ≡ apart_from (keys gone.now) slots.old }
{
    for (obj, _) in gone {
        tokens::give_up(tokens, *obj);
        slots::remove(slots, *obj);
    }
}
