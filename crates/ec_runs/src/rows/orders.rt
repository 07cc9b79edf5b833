// Which operations rest on others.
ghost use Rattle.std.specs.Prelude.{◌≡◌, ◌==◌, [], ◌∷◌, None, Some, true, false, codes};
ghost use Rattle.ec_order.specs.Order.{before, closure, under};
ghost use Rattle.ec_volume.specs.declared.image.Kind.TheVariants as kind;
ghost use Rattle.ec_volume.specs.declared.update.Update.TheVariants as update;

/// Operations with a common operand are ordered, but for two overwrites.
pub fn ordered_updates()
    ensures create_and_write { before (update.Make 1 (codes "f") 2 kind.File) (update.Put 2 0 (codes "ab") false) ≡ true }
    ensures two_creates { before (update.Make 1 (codes "f") 2 kind.File) (update.Make 1 (codes "g") 3 kind.File) ≡ true }
    ensures two_files { before (update.Put 2 0 (codes "ab") false) (update.Put 3 0 (codes "ab") false) ≡ false }
    ensures order { before (update.Put 2 0 (codes "ab") true) (update.Order (2 ∷ 3 ∷ [])) ≡ true }
    ensures overwrites { before (update.Put 2 0 (codes "ab") true) (update.Put 2 0 (codes "cd") true) ≡ false }
    ensures overwrite_and_write { before (update.Put 2 0 (codes "ab") true) (update.Put 2 9 (codes "cd") false) ≡ true }
    ensures write_and_overwrite { before (update.Put 2 0 (codes "ab") false) (update.Put 2 0 (codes "cd") true) ≡ true }
    ensures directory_above { before (update.Make 1 (codes "g") 9 kind.File) (update.Shift 3 (codes "s") 5 (codes "s") 6 kind.Dir None ((1, codes "e") ∷ [])) ≡ true }
    ensures file_below { before (update.Make 1 (codes "g") 9 kind.File) (update.Shift 3 (codes "x") 5 (codes "x") 4 kind.File None []) ≡ false }
    ensures victim { before (update.Put 4 0 (codes "ab") false) (update.Shift 1 (codes "f") 3 (codes "x") 2 kind.File (Some 4) []) ≡ true }
{}

/// Of two overwrites of one file, whose bytes meet, one is under the other.
pub fn overwrites_under_others()
    ensures same { under (update.Put 2 3 (codes "ab") true) (update.Put 2 3 (codes "cd") true) ≡ true }
    ensures last_byte { under (update.Put 2 3 (codes "ab") true) (update.Put 2 4 (codes "cd") true) ≡ true }
    ensures first_byte { under (update.Put 2 3 (codes "ab") true) (update.Put 2 2 (codes "cd") true) ≡ true }
    ensures behind { under (update.Put 2 3 (codes "ab") true) (update.Put 2 5 (codes "cd") true) ≡ false }
    ensures ahead { under (update.Put 2 3 (codes "ab") true) (update.Put 2 1 (codes "cd") true) ≡ false }
    ensures nothing_written { under (update.Put 2 3 [] true) (update.Put 2 2 (codes "cd") true) ≡ false }
    ensures nothing_behind { under (update.Put 2 2 (codes "cd") true) (update.Put 2 3 [] true) ≡ false }
    ensures other_file { under (update.Put 2 3 (codes "ab") true) (update.Put 4 3 (codes "cd") true) ≡ false }
    ensures no_overwrite { under (update.Put 2 3 (codes "ab") false) (update.Put 2 3 (codes "cd") true) ≡ false }
{}

/// A closure has all that its operations need, through others too, and no more.
pub fn closures()
    ensures chain { closure (λ n. n == 5) ((1, update.Put 2 0 (codes "ab") true) ∷ (2, update.Put 2 1 (codes "cd") true) ∷ (3, update.Put 3 0 (codes "ef") true) ∷ (4, update.Order (2 ∷ 4 ∷ [])) ∷ (5, update.Stamp 4 7) ∷ (6, update.Mode 4 511) ∷ []) ≡ (1, update.Put 2 0 (codes "ab") true) ∷ (2, update.Put 2 1 (codes "cd") true) ∷ (4, update.Order (2 ∷ 4 ∷ [])) ∷ (5, update.Stamp 4 7) ∷ [] }
    ensures meeting { closure (λ n. n == 3) ((1, update.Put 2 0 (codes "ab") true) ∷ (2, update.Put 2 4 (codes "cd") true) ∷ (3, update.Put 2 1 (codes "ef") true) ∷ []) ≡ (1, update.Put 2 0 (codes "ab") true) ∷ (3, update.Put 2 1 (codes "ef") true) ∷ [] }
{}
