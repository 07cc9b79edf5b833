// Which tokens go back where a cache has too many.
ghost use Rattle.std.specs.Prelude.{◌≡◌, ◌≤◌, ◌+◌, ◌-◌, ℕ, T, false, List, ◌++◌, length, filter, take, None};
ghost use Rattle.ec_base.specs.Tables.{Table, at, keys};
ghost use Rattle.ec_volume.specs.Update.{member, distinct};
ghost use Rattle.ec_cache.specs.Cache.{evicted, evict};
ghost use Rattle.ec_cache.specs.Held.{unpinned};
ghost use Rattle.ec_cache.specs.declared.state.CacheState.{CacheState};
ghost use Rattle.ec_cache.specs.declared.state.Held.{Held};
ghost use Rattle.ec_machine_laws.specs.Needs.{AreRoomy};

/// At most as many tokens are evicted as there are too many, none of a pinned object.
pub fn evictions_are_of_tokens_that_are_too_many()
    ensures few { (k : CacheState) (pinned : List ℕ) → length (evicted pinned k) ≤ length k.held - k.capacity }
    ensures held { (k : CacheState) (pinned : List ℕ) (x : ℕ) → T (member x (keys (evicted pinned k))) → T (member x (keys k.held)) }
    ensures free { (k : CacheState) (pinned : List ℕ) (x : ℕ) → T (member x (keys (evicted pinned k))) → member x pinned ≡ false }
{}

/// Of tokens in the order of use, where the capacity has room for all newer ones and for the older
/// pinned ones, only older ones are evicted, just as many as are too many.
pub fn older_tokens_are_evicted()
    ensures evicted { (k : CacheState) (pinned : List ℕ) (olds news : Table Held) → AreRoomy k pinned olds news → evicted pinned k ≡ take (length k.held - k.capacity) (unpinned pinned olds) }
    ensures count { (k : CacheState) (pinned : List ℕ) (olds news : Table Held) → AreRoomy k pinned olds news → length (evicted pinned k) ≡ length k.held - k.capacity }
    ensures old { (k : CacheState) (pinned : List ℕ) (olds news : Table Held) → AreRoomy k pinned olds news → (x : ℕ) → T (member x (keys (evicted pinned k))) → T (member x (keys olds)) }
    ensures room { (k : CacheState) (pinned : List ℕ) (olds news : Table Held) → AreRoomy k pinned olds news → length (evict pinned k).held ≤ k.capacity }
{}

/// What isn't evicted stays held, with its order of use; what is evicted isn't held any more.
pub fn the_other_tokens_stay()
    ensures stay { (k : CacheState) (pinned : List ℕ) (x : ℕ) → member x (keys (evicted pinned k)) ≡ false → at x (evict pinned k).held ≡ at x k.held }
    ensures go { (k : CacheState) (pinned : List ℕ) (x : ℕ) → T (member x (keys (evicted pinned k))) → at x (evict pinned k).held ≡ None }
    ensures order { (k : CacheState) (pinned : List ℕ) (olds news : Table Held) → AreRoomy k pinned olds news → T (distinct (keys k.held))
        → (evict pinned k).held ≡ unpinned (keys (evicted pinned k)) olds ++ news }
{}

/// Of tokens on objects that stand in a list, each once, there are at most as many as in the list.
pub fn pinned_tokens_are_few()
    ensures { (es : Table Held) (pinned ids : List ℕ) → T (distinct (keys es)) → ((x : ℕ) → T (member x pinned) → T (member x ids)) → length (filter (λ e. member e.0 pinned) es) ≤ length ids }
{}
