// What the operations that durable lines name leave on the disk.
ghost use Rattle.std.specs.Prelude.{◌≡◌, [], ◌∷◌, None, Some, codes};
ghost use Rattle.ec_volume.specs.Volume.{after, formatted, tree};
ghost use Rattle.ec_volume.specs.declared.image.Kind.TheVariants as kind;
ghost use Rattle.ec_history.specs.History.{numbers, updates};
ghost use Rattle.ec_history.specs.Legal.{from_formatted};
ghost use Rattle.ec_history.specs.Lines.{durable_ops};
ghost use Rattle.ec_runs.specs.OfRows.Durable.{disjoint_overwrites, fsynced_file, moved_directories};
ghost use Rattle.ec_runs.specs.OfRows.Ended.{late_read};

/// A file, where the create of another one before its write was lost.
pub fn stores_fsynced_file()
    ensures operations { numbers (durable_ops from_formatted fsynced_file) ≡ 1 ∷ 3 ∷ [] }
    ensures kept { tree (after formatted (updates (durable_ops from_formatted fsynced_file))) (codes "a" ∷ []) ≡ Some (kind.File, 420, 0, 0, codes "x") }
    ensures lost { tree (after formatted (updates (durable_ops from_formatted fsynced_file))) (codes "b" ∷ []) ≡ None }
{}

/// The later one of two overwrites.
pub fn stores_later_overwrite()
    ensures operations { numbers (durable_ops from_formatted disjoint_overwrites) ≡ 1 ∷ 2 ∷ 4 ∷ [] }
    ensures bytes { tree (after formatted (updates (durable_ops from_formatted disjoint_overwrites))) (codes "f" ∷ []) ≡ Some (kind.File, 420, 0, 0, codes "aadd") }
{}

/// Two moves that rest on each other.
pub fn stores_moved_directories()
    ensures operations { numbers (durable_ops from_formatted moved_directories) ≡ 1 ∷ 2 ∷ 3 ∷ 4 ∷ 5 ∷ [] }
    ensures inner { tree (after formatted (updates (durable_ops from_formatted moved_directories))) (codes "c" ∷ codes "b" ∷ codes "a" ∷ []) ≡ Some (kind.Dir, 493, 0, 0, []) }
    ensures left { tree (after formatted (updates (durable_ops from_formatted moved_directories))) (codes "a" ∷ []) ≡ None }
{}

/// The write of one clerk behind the lost one of another.
pub fn stores_last_write()
    ensures operations { numbers (durable_ops from_formatted late_read) ≡ 1 ∷ 2 ∷ 1 ∷ [] }
    ensures bytes { tree (after formatted (updates (durable_ops from_formatted late_read))) (codes "f" ∷ []) ≡ Some (kind.File, 420, 0, 0, codes "six") }
{}
