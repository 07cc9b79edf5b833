// What the updates test and change, on a small volume.
ghost use Rattle.std.specs.Prelude.{◌≡◌, [], ◌∷◌, ◌++◌, None, Some, true, false, codes, replicate};
ghost use Rattle.ec_volume.specs.Update.{is_sound, operands};
ghost use Rattle.ec_volume.specs.declared.image.Image.TheVariants as image;
ghost use Rattle.ec_volume.specs.declared.image.Kind.TheVariants as kind;
ghost use Rattle.ec_volume.specs.declared.update.Update.TheVariants as update;
ghost use Rattle.ec_runs.specs.OfRows.Small.{image_behind, crowded, small, unfit, way};

/// A new object is an entry of its directory, without bytes or entries.
pub fn make_adds_an_object()
    ensures operands { operands (update.Make 1 (codes "g") 9 kind.File) ≡ 1 ∷ 9 ∷ [] }
    ensures fits { unfit small (update.Make 1 (codes "g") 9 kind.File) ≡ None }
    ensures directory { image_behind (update.Make 1 (codes "g") 9 kind.File) 1 ≡ image.Dir 493 0 0 ((codes "d", 3) ∷ (codes "e", 5) ∷ (codes "f", 2) ∷ (codes "g", 9) ∷ []) }
    ensures file { image_behind (update.Make 1 (codes "g") 9 kind.File) 9 ≡ image.File 420 0 0 [] }
    ensures new_directory { image_behind (update.Make 1 (codes "g") 9 kind.Dir) 9 ≡ image.Dir 493 0 0 [] }
    ensures name_taken { unfit small (update.Make 1 (codes "f") 9 kind.File) ≡ Some 1 }
    ensures id_taken { unfit small (update.Make 1 (codes "g") 2 kind.File) ≡ Some 2 }
    ensures in_file { unfit small (update.Make 2 (codes "g") 9 kind.File) ≡ Some 2 }
    ensures full { unfit crowded (update.Make 7 (codes "a") 9 kind.File) ≡ Some 7 }
{}

/// An object goes with its entry.
pub fn drop_removes_an_object()
    ensures operands { operands (update.Drop 1 (codes "f") 2 kind.File) ≡ 1 ∷ 2 ∷ [] }
    ensures fits { unfit small (update.Drop 1 (codes "f") 2 kind.File) ≡ None }
    ensures directory { image_behind (update.Drop 1 (codes "f") 2 kind.File) 1 ≡ image.Dir 493 0 0 ((codes "d", 3) ∷ (codes "e", 5) ∷ []) }
    ensures file { image_behind (update.Drop 1 (codes "f") 2 kind.File) 2 ≡ image.Gone }
    ensures empty { unfit small (update.Drop 1 (codes "e") 5 kind.Dir) ≡ None }
    ensures other_id { unfit small (update.Drop 1 (codes "f") 4 kind.File) ≡ Some 1 }
    ensures other_kind { unfit small (update.Drop 1 (codes "f") 2 kind.Dir) ≡ Some 2 }
    ensures not_empty { unfit small (update.Drop 1 (codes "d") 3 kind.Dir) ≡ Some 3 }
{}

/// An object gets another name in its directory, in the place of a victim, if any.
pub fn move_renames_an_object()
    ensures operands { operands (update.Move 1 (codes "f") (codes "a") 2 kind.File None) ≡ 1 ∷ 2 ∷ [] }
    ensures fits { unfit small (update.Move 1 (codes "f") (codes "a") 2 kind.File None) ≡ None }
    ensures directory { image_behind (update.Move 1 (codes "f") (codes "a") 2 kind.File None) 1 ≡ image.Dir 493 0 0 ((codes "a", 2) ∷ (codes "d", 3) ∷ (codes "e", 5) ∷ []) }
    ensures object { image_behind (update.Move 1 (codes "f") (codes "a") 2 kind.File None) 2 ≡ small 2 }
    ensures victim_operands { operands (update.Move 3 (codes "s") (codes "t") 6 kind.Dir (Some 8)) ≡ 3 ∷ 6 ∷ 8 ∷ [] }
    ensures victim_fits { unfit small (update.Move 3 (codes "s") (codes "t") 6 kind.Dir (Some 8)) ≡ None }
    ensures victim_directory { image_behind (update.Move 3 (codes "s") (codes "t") 6 kind.Dir (Some 8)) 3 ≡ image.Dir 448 5 6 ((codes "t", 6) ∷ (codes "x", 4) ∷ []) }
    ensures victim { image_behind (update.Move 3 (codes "s") (codes "t") 6 kind.Dir (Some 8)) 8 ≡ image.Gone }
    ensures full { unfit crowded (update.Move 7 (100 ∷ []) (codes "a") 100 kind.File None) ≡ None }
    ensures name_taken { unfit small (update.Move 1 (codes "f") (codes "e") 2 kind.File None) ≡ Some 1 }
    ensures other_id { unfit small (update.Move 1 (codes "f") (codes "a") 4 kind.File None) ≡ Some 1 }
    ensures other_kind { unfit small (update.Move 1 (codes "f") (codes "a") 2 kind.Dir None) ≡ Some 2 }
    ensures victim_not_empty { unfit small (update.Move 1 (codes "e") (codes "d") 5 kind.Dir (Some 3)) ≡ Some 3 }
    ensures no_victim { unfit small (update.Move 1 (codes "e") (codes "a") 5 kind.Dir (Some 3)) ≡ Some 1 }
{}

/// Bytes stand at their place, behind zeros where the file was shorter.
pub fn put_writes_bytes()
    ensures operands { operands (update.Put 4 2 (codes "XY") true) ≡ 4 ∷ [] }
    ensures middle { image_behind (update.Put 4 2 (codes "XY") true) 4 ≡ image.File 384 9 7 (codes "abXYef") }
    ensures past_end { image_behind (update.Put 4 5 (codes "XY") false) 4 ≡ image.File 384 9 7 (codes "abcdeXY") }
    ensures gap { image_behind (update.Put 2 4 (codes "X") false) 2 ≡ image.File 420 0 0 (codes "hi" ++ 0 ∷ 0 ∷ codes "X") }
    ensures inside_fits { unfit small (update.Put 4 4 (codes "XY") true) ≡ None }
    ensures inside_unfit { unfit small (update.Put 4 5 (codes "XY") true) ≡ Some 4 }
    ensures extending_fits { unfit small (update.Put 4 5 (codes "XY") false) ≡ None }
    ensures directory { unfit small (update.Put 3 0 (codes "X") false) ≡ Some 3 }
    ensures gone { unfit small (update.Put 9 0 (codes "X") false) ≡ Some 9 }
{}

/// A file is cut, or filled with zeros.
pub fn len_sets_the_length()
    ensures operands { operands (update.Len 4 2) ≡ 4 ∷ [] }
    ensures cut { image_behind (update.Len 4 2) 4 ≡ image.File 384 9 7 (codes "ab") }
    ensures filled { image_behind (update.Len 2 4) 2 ≡ image.File 420 0 0 (codes "hi" ++ 0 ∷ 0 ∷ []) }
    ensures fits { unfit small (update.Len 4 2) ≡ None }
    ensures directory { unfit small (update.Len 3 0) ≡ Some 3 }
    ensures gone { unfit small (update.Len 9 0) ≡ Some 9 }
{}

/// Mode, stamp and owner change alone.
pub fn attributes_change_alone()
    ensures mode_operands { operands (update.Mode 4 511) ≡ 4 ∷ [] }
    ensures file_mode { image_behind (update.Mode 4 511) 4 ≡ image.File 511 9 7 (codes "abcdef") }
    ensures directory_mode { image_behind (update.Mode 5 511) 5 ≡ image.Dir 511 0 0 [] }
    ensures mode_fits { unfit small (update.Mode 3 511) ≡ None }
    ensures mode_gone { unfit small (update.Mode 9 511) ≡ Some 9 }
    ensures stamp_operands { operands (update.Stamp 4 11) ≡ 4 ∷ [] }
    ensures file_stamp { image_behind (update.Stamp 4 11) 4 ≡ image.File 384 11 7 (codes "abcdef") }
    ensures directory_stamp { image_behind (update.Stamp 5 11) 5 ≡ image.Dir 493 11 0 [] }
    ensures stamp_fits { unfit small (update.Stamp 3 11) ≡ None }
    ensures stamp_gone { unfit small (update.Stamp 9 11) ≡ Some 9 }
    ensures owner_operands { operands (update.Owner 4 11) ≡ 4 ∷ [] }
    ensures file_owner { image_behind (update.Owner 4 11) 4 ≡ image.File 384 9 11 (codes "abcdef") }
    ensures directory_owner { image_behind (update.Owner 5 11) 5 ≡ image.Dir 493 0 11 [] }
    ensures owner_fits { unfit small (update.Owner 3 11) ≡ None }
    ensures owner_gone { unfit small (update.Owner 9 11) ≡ Some 9 }
{}

/// An order changes nothing.
pub fn order_changes_nothing()
    ensures operands { operands (update.Order (4 ∷ 3 ∷ [])) ≡ 4 ∷ 3 ∷ [] }
    ensures fits { unfit small (update.Order (4 ∷ 3 ∷ [])) ≡ None }
    ensures file { image_behind (update.Order (4 ∷ 3 ∷ [])) 4 ≡ small 4 }
    ensures directory { image_behind (update.Order (4 ∷ 3 ∷ [])) 3 ≡ small 3 }
    ensures gone { unfit small (update.Order (4 ∷ 9 ∷ [])) ≡ Some 9 }
{}

/// A file moves into another directory, in the place of a victim, if any.
pub fn shift_moves_a_file()
    ensures operands { operands (update.Shift 1 (codes "f") 3 (codes "g") 2 kind.File None []) ≡ 1 ∷ 3 ∷ 2 ∷ [] }
    ensures fits { unfit small (update.Shift 1 (codes "f") 3 (codes "g") 2 kind.File None []) ≡ None }
    ensures old_directory { image_behind (update.Shift 1 (codes "f") 3 (codes "g") 2 kind.File None []) 1 ≡ image.Dir 493 0 0 ((codes "d", 3) ∷ (codes "e", 5) ∷ []) }
    ensures new_directory { image_behind (update.Shift 1 (codes "f") 3 (codes "g") 2 kind.File None []) 3 ≡ image.Dir 448 5 6 ((codes "g", 2) ∷ (codes "s", 6) ∷ (codes "t", 8) ∷ (codes "x", 4) ∷ []) }
    ensures object { image_behind (update.Shift 1 (codes "f") 3 (codes "g") 2 kind.File None []) 2 ≡ small 2 }
    ensures victim_operands { operands (update.Shift 1 (codes "f") 3 (codes "x") 2 kind.File (Some 4) []) ≡ 1 ∷ 3 ∷ 2 ∷ 4 ∷ [] }
    ensures victim_fits { unfit small (update.Shift 1 (codes "f") 3 (codes "x") 2 kind.File (Some 4) []) ≡ None }
    ensures victim_directory { image_behind (update.Shift 1 (codes "f") 3 (codes "x") 2 kind.File (Some 4) []) 3 ≡ image.Dir 448 5 6 ((codes "s", 6) ∷ (codes "t", 8) ∷ (codes "x", 2) ∷ []) }
    ensures victim { image_behind (update.Shift 1 (codes "f") 3 (codes "x") 2 kind.File (Some 4) []) 4 ≡ image.Gone }
    ensures full { unfit crowded (update.Shift 1 (codes "f") 7 (codes "a") 2 kind.File None []) ≡ Some 7 }
    ensures full_victim { unfit crowded (update.Shift 1 (codes "f") 7 (100 ∷ []) 2 kind.File (Some 100) []) ≡ None }
    ensures other_id { unfit small (update.Shift 1 (codes "f") 3 (codes "g") 4 kind.File None []) ≡ Some 1 }
    ensures other_kind { unfit small (update.Shift 1 (codes "f") 3 (codes "g") 2 kind.Dir None []) ≡ Some 2 }
    ensures name_taken { unfit small (update.Shift 1 (codes "f") 3 (codes "x") 2 kind.File None []) ≡ Some 3 }
    ensures victim_kind { unfit small (update.Shift 1 (codes "f") 3 (codes "s") 2 kind.File (Some 6) []) ≡ Some 6 }
{}

/// A directory's move tests each directory from the root to its new parent.
pub fn shift_tests_the_way()
    ensures operands { operands (update.Shift 3 (codes "s") 5 (codes "g") 6 kind.Dir None ((1, codes "e") ∷ [])) ≡ 3 ∷ 5 ∷ 6 ∷ 1 ∷ [] }
    ensures fits { unfit small (update.Shift 3 (codes "s") 5 (codes "g") 6 kind.Dir None ((1, codes "e") ∷ [])) ≡ None }
    ensures above { image_behind (update.Shift 3 (codes "s") 5 (codes "g") 6 kind.Dir None ((1, codes "e") ∷ [])) 1 ≡ small 1 }
    ensures other_name { unfit small (update.Shift 3 (codes "s") 5 (codes "g") 6 kind.Dir None ((1, codes "d") ∷ [])) ≡ Some 1 }
    ensures no_name { unfit small (update.Shift 3 (codes "s") 5 (codes "g") 6 kind.Dir None ((1, codes "g") ∷ [])) ≡ Some 1 }
    ensures victim_not_empty { unfit crowded (update.Shift 3 (codes "s") 1 (codes "full") 6 kind.Dir (Some 7) []) ≡ Some 7 }
    ensures victim_empty { unfit small (update.Shift 3 (codes "s") 1 (codes "e") 6 kind.Dir (Some 5) []) ≡ None }
{}

/// A directory that moves deeper below its old parent: the old parent, also above the new one, keeps both tests.
pub fn shift_tests_the_old_parent_twice()
    ensures operands { operands (update.Shift 3 (codes "t") 6 (codes "t") 8 kind.Dir None ((1, codes "d") ∷ (3, codes "s") ∷ [])) ≡ 3 ∷ 6 ∷ 8 ∷ 1 ∷ [] }
    ensures sound { is_sound (update.Shift 3 (codes "t") 6 (codes "t") 8 kind.Dir None ((1, codes "d") ∷ (3, codes "s") ∷ [])) ≡ true }
    ensures fits { unfit small (update.Shift 3 (codes "t") 6 (codes "t") 8 kind.Dir None ((1, codes "d") ∷ (3, codes "s") ∷ [])) ≡ None }
    ensures old_directory { image_behind (update.Shift 3 (codes "t") 6 (codes "t") 8 kind.Dir None ((1, codes "d") ∷ (3, codes "s") ∷ [])) 3 ≡ image.Dir 448 5 6 ((codes "s", 6) ∷ (codes "x", 4) ∷ []) }
    ensures new_directory { image_behind (update.Shift 3 (codes "t") 6 (codes "t") 8 kind.Dir None ((1, codes "d") ∷ (3, codes "s") ∷ [])) 6 ≡ image.Dir 493 0 0 ((codes "t", 8) ∷ []) }
    ensures other_way { unfit small (update.Shift 3 (codes "t") 6 (codes "t") 8 kind.Dir None ((1, codes "d") ∷ (3, codes "x") ∷ [])) ≡ Some 3 }
    ensures other_name { unfit small (update.Shift 3 (codes "x") 6 (codes "t") 8 kind.Dir None ((1, codes "d") ∷ (3, codes "s") ∷ [])) ≡ Some 3 }
    ensures other_root { unfit small (update.Shift 3 (codes "t") 6 (codes "t") 8 kind.Dir None ((1, codes "e") ∷ (3, codes "s") ∷ [])) ≡ Some 1 }
{}

/// Which moves into another directory are sound.
pub fn sound_shifts()
    ensures file { is_sound (update.Shift 1 (codes "f") 3 (codes "g") 2 kind.File (Some 4) []) ≡ true }
    ensures file_with_way { is_sound (update.Shift 1 (codes "f") 3 (codes "g") 2 kind.File None ((1, codes "d") ∷ [])) ≡ false }
    ensures into_root { is_sound (update.Shift 3 (codes "s") 1 (codes "s") 6 kind.Dir None []) ≡ true }
    ensures into_root_with_way { is_sound (update.Shift 3 (codes "s") 1 (codes "s") 6 kind.Dir None ((5, codes "s") ∷ [])) ≡ false }
    ensures without_way { is_sound (update.Shift 3 (codes "s") 5 (codes "s") 6 kind.Dir None []) ≡ false }
    ensures without_root { is_sound (update.Shift 3 (codes "s") 5 (codes "s") 6 kind.Dir None ((7, codes "e") ∷ [])) ≡ false }
    ensures root_later { is_sound (update.Shift 3 (codes "s") 5 (codes "s") 6 kind.Dir None ((7, codes "e") ∷ (1, codes "e") ∷ [])) ≡ false }
    ensures one_directory { is_sound (update.Shift 3 (codes "s") 3 (codes "q") 6 kind.Dir None ((1, codes "d") ∷ [])) ≡ false }
    ensures into_itself { is_sound (update.Shift 1 (codes "d") 3 (codes "q") 3 kind.Dir None ((1, codes "d") ∷ [])) ≡ false }
    ensures below_itself { is_sound (update.Shift 1 (codes "d") 6 (codes "q") 3 kind.Dir None ((1, codes "d") ∷ (3, codes "s") ∷ [])) ≡ false }
    ensures victim_above { is_sound (update.Shift 1 (codes "e") 6 (codes "q") 5 kind.Dir (Some 3) ((1, codes "d") ∷ (3, codes "s") ∷ [])) ≡ false }
    ensures new_parent_above { is_sound (update.Shift 3 (codes "t") 6 (codes "q") 8 kind.Dir None ((1, codes "d") ∷ (6, codes "s") ∷ [])) ≡ false }
    ensures repeated { is_sound (update.Shift 5 (codes "t") 6 (codes "q") 8 kind.Dir None ((1, codes "d") ∷ (3, codes "s") ∷ (3, codes "s") ∷ [])) ≡ false }
    ensures old_parent_repeated { is_sound (update.Shift 3 (codes "t") 6 (codes "q") 8 kind.Dir None ((1, codes "d") ∷ (3, codes "s") ∷ (3, codes "s") ∷ [])) ≡ false }
    ensures fifteen { is_sound (update.Shift 3 (codes "t") 6 (codes "q") 8 kind.Dir None (way 15)) ≡ true }
    ensures sixteen { is_sound (update.Shift 3 (codes "t") 6 (codes "q") 8 kind.Dir None (way 16)) ≡ false }
{}

/// Which other updates are sound.
pub fn sound_updates()
    ensures make { is_sound (update.Make 1 (codes "g") 9 kind.File) ≡ true }
    ensures make_of_directory { is_sound (update.Make 1 (codes "g") 1 kind.File) ≡ false }
    ensures drop { is_sound (update.Drop 1 (codes "f") 2 kind.File) ≡ true }
    ensures drop_of_directory { is_sound (update.Drop 1 (codes "f") 1 kind.File) ≡ false }
    ensures moved { is_sound (update.Move 1 (codes "f") (codes "g") 2 kind.File (Some 4)) ≡ true }
    ensures move_to_itself { is_sound (update.Move 1 (codes "f") (codes "f") 2 kind.File None) ≡ false }
    ensures move_over_itself { is_sound (update.Move 1 (codes "f") (codes "g") 2 kind.File (Some 2)) ≡ false }
    ensures move_over_directory { is_sound (update.Move 1 (codes "f") (codes "g") 2 kind.File (Some 1)) ≡ false }
    ensures put { is_sound (update.Put 2 61440 (replicate 4096 0) false) ≡ true }
    ensures put_nothing { is_sound (update.Put 2 0 [] false) ≡ false }
    ensures put_too_many { is_sound (update.Put 2 0 (replicate 4097 0) false) ≡ false }
    ensures put_too_far { is_sound (update.Put 2 61441 (replicate 4096 0) false) ≡ false }
    ensures len { is_sound (update.Len 2 65536) ≡ true }
    ensures len_too_far { is_sound (update.Len 2 65537) ≡ false }
    ensures mode { is_sound (update.Mode 2 4095) ≡ true }
    ensures mode_too_great { is_sound (update.Mode 2 4096) ≡ false }
    ensures stamp { is_sound (update.Stamp 2 7) ≡ true }
    ensures owner { is_sound (update.Owner 2 7) ≡ true }
    ensures order { is_sound (update.Order (1 ∷ 2 ∷ 3 ∷ 4 ∷ 5 ∷ 6 ∷ 7 ∷ 8 ∷ [])) ≡ true }
    ensures order_of_none { is_sound (update.Order []) ≡ false }
    ensures order_of_nine { is_sound (update.Order (1 ∷ 2 ∷ 3 ∷ 4 ∷ 5 ∷ 6 ∷ 7 ∷ 8 ∷ 9 ∷ [])) ≡ false }
    ensures order_twice { is_sound (update.Order (2 ∷ 2 ∷ [])) ≡ false }
{}
