// What is needed and touched, worked out on small caches.
ghost use Rattle.std.specs.Prelude.{◌≡◌, ℕ, [], ◌∷◌, length, None, Some};
ghost use Rattle.ec_base.specs.declared.ids.Hold.TheVariants.{Read, Write};
ghost use Rattle.ec_plain.specs.Plain.{plain};
ghost use Rattle.ec_cache.specs.Cache.{images_held};
ghost use Rattle.ec_cache.specs.OfResolve.Agreement.{Shows};
ghost use Rattle.ec_cache.specs.OfResolve.Resolve.{evaluate};
ghost use Rattle.ec_cache.specs.declared.resolve.verdict.Verdict.TheVariants.{Need, NeedIds};
ghost use Rattle.ec_machine_laws.specs.NeedExample.{bare, reading, writing, making, ordering, deep};

/// A call needs the root's token first for reading, then, as it makes an object there, for writing,
/// and then an id. An ordering of eight paths of sixteen names touches as many objects as any call
/// may. Each cache shows the images that it holds.
pub fn needs_can_come()
    ensures read { evaluate bare [] making None ≡ Need 1 Read }
    ensures write { evaluate reading [] making None ≡ Need 1 Write }
    ensures ids { evaluate writing [] making None ≡ NeedIds (1 ∷ []) }
    ensures most { length (plain deep ordering 0).touched ≡ 136 }
    ensures shows { Shows reading None (images_held reading) }
{}
