// What calls come to on a small volume.
ghost use Rattle.std.specs.Prelude.{◌≡◌, [], ◌∷◌, None, Some, true, false, codes};
ghost use Rattle.ec_plain.specs.Plain.{answers, issues, plain, refuses};
ghost use Rattle.ec_plain.specs.declared.call.Call.TheVariants as call;
ghost use Rattle.ec_plain.specs.declared.call.Refusal.TheVariants as no;
ghost use Rattle.ec_plain.specs.declared.call.Reply.TheVariants as reply;
ghost use Rattle.ec_volume.specs.declared.image.Kind.TheVariants as kind;
ghost use Rattle.ec_volume.specs.declared.update.Update.TheVariants as update;
ghost use Rattle.ec_runs.specs.OfRows.Small.{crowded, small};

/// A walk ends at the first name that leads nowhere, and at a file before the last name.
pub fn walks_that_end()
    ensures no_name { plain small (call.Stat (codes "q" ∷ [])) 9 ≡ refuses (no.NotFound 1) (1 ∷ []) }
    ensures no_second_name { plain small (call.Stat (codes "d" ∷ codes "q" ∷ [])) 9 ≡ refuses (no.NotFound 2) (1 ∷ 3 ∷ []) }
    ensures behind_no_name { plain small (call.Stat (codes "q" ∷ codes "x" ∷ [])) 9 ≡ refuses (no.NotFound 1) (1 ∷ []) }
    ensures through_file { plain small (call.Stat (codes "f" ∷ codes "x" ∷ [])) 9 ≡ refuses (no.NotDir 1) (1 ∷ 2 ∷ []) }
    ensures through_second { plain small (call.Stat (codes "d" ∷ codes "x" ∷ codes "y" ∷ [])) 9 ≡ refuses (no.NotDir 2) (1 ∷ 3 ∷ 4 ∷ []) }
{}

/// New objects: refused without a name, below a file, under a taken name, and in a full directory.
pub fn creates()
    ensures file { plain small (call.Create (codes "d" ∷ codes "g" ∷ [])) 9 ≡ issues (update.Make 3 (codes "g") 9 kind.File) (1 ∷ 3 ∷ 9 ∷ []) }
    ensures directory { plain small (call.Mkdir (codes "g" ∷ [])) 9 ≡ issues (update.Make 1 (codes "g") 9 kind.Dir) (1 ∷ 9 ∷ []) }
    ensures root { plain small (call.Create []) 9 ≡ refuses no.Root [] }
    ensures directory_root { plain small (call.Mkdir []) 9 ≡ refuses no.Root [] }
    ensures taken { plain small (call.Create (codes "f" ∷ [])) 9 ≡ refuses no.Exists (1 ∷ []) }
    ensures full { plain crowded (call.Create (codes "full" ∷ codes "a" ∷ [])) 9 ≡ refuses no.DirFull (1 ∷ 7 ∷ []) }
    ensures full_taken { plain crowded (call.Create (codes "full" ∷ (100 ∷ []) ∷ [])) 9 ≡ refuses no.Exists (1 ∷ 7 ∷ []) }
    ensures no_parent { plain small (call.Create (codes "q" ∷ codes "g" ∷ [])) 9 ≡ refuses (no.NotFound 1) (1 ∷ []) }
    ensures below_file { plain small (call.Create (codes "f" ∷ codes "g" ∷ [])) 9 ≡ refuses (no.NotDir 1) (1 ∷ 2 ∷ []) }
    ensures deep_below_file { plain small (call.Create (codes "d" ∷ codes "x" ∷ codes "y" ∷ codes "z" ∷ [])) 9 ≡ refuses (no.NotDir 2) (1 ∷ 3 ∷ 4 ∷ []) }
{}

/// Writes and lengths: for files alone, up to 65,536 bytes.
pub fn writes()
    ensures inside { plain small (call.Write (codes "f" ∷ []) 1 (codes "o")) 9 ≡ issues (update.Put 2 1 (codes "o") true) (1 ∷ 2 ∷ []) }
    ensures past_end { plain small (call.Write (codes "f" ∷ []) 2 (codes "o")) 9 ≡ issues (update.Put 2 2 (codes "o") false) (1 ∷ 2 ∷ []) }
    ensures last_byte { plain small (call.Write (codes "f" ∷ []) 65534 (codes "ab")) 9 ≡ issues (update.Put 2 65534 (codes "ab") false) (1 ∷ 2 ∷ []) }
    ensures too_far { plain small (call.Write (codes "f" ∷ []) 65535 (codes "ab")) 9 ≡ refuses no.TooLong (1 ∷ 2 ∷ []) }
    ensures directory { plain small (call.Write (codes "d" ∷ []) 65535 (codes "ab")) 9 ≡ refuses no.IsDir (1 ∷ 3 ∷ []) }
    ensures length { plain small (call.SetLen (codes "f" ∷ []) 65536) 9 ≡ issues (update.Len 2 65536) (1 ∷ 2 ∷ []) }
    ensures too_long { plain small (call.SetLen (codes "f" ∷ []) 65537) 9 ≡ refuses no.TooLong (1 ∷ 2 ∷ []) }
    ensures directory_length { plain small (call.SetLen (codes "d" ∷ []) 0) 9 ≡ refuses no.IsDir (1 ∷ 3 ∷ []) }
{}

/// Reads give no bytes past the end, and lists the names in their order.
pub fn reads()
    ensures part { plain small (call.Read (codes "d" ∷ codes "x" ∷ []) 2 3) 9 ≡ answers (reply.Data (codes "cde")) (1 ∷ 3 ∷ 4 ∷ []) }
    ensures to_end { plain small (call.Read (codes "d" ∷ codes "x" ∷ []) 4 9) 9 ≡ answers (reply.Data (codes "ef")) (1 ∷ 3 ∷ 4 ∷ []) }
    ensures past_end { plain small (call.Read (codes "d" ∷ codes "x" ∷ []) 7 9) 9 ≡ answers (reply.Data []) (1 ∷ 3 ∷ 4 ∷ []) }
    ensures directory { plain small (call.Read [] 0 9) 9 ≡ refuses no.IsDir (1 ∷ []) }
    ensures names { plain small (call.List (codes "d" ∷ [])) 9 ≡ answers (reply.Names (codes "s" ∷ codes "t" ∷ codes "x" ∷ [])) (1 ∷ 3 ∷ []) }
    ensures names_of_file { plain small (call.List (codes "d" ∷ codes "x" ∷ [])) 9 ≡ refuses (no.NotDir 2) (1 ∷ 3 ∷ 4 ∷ []) }
    ensures file_stat { plain small (call.Stat (codes "d" ∷ codes "x" ∷ [])) 9 ≡ answers (reply.Stat kind.File 384 9 7 6) (1 ∷ 3 ∷ 4 ∷ []) }
    ensures directory_stat { plain small (call.Stat (codes "d" ∷ [])) 9 ≡ answers (reply.Stat kind.Dir 448 5 6 3) (1 ∷ 3 ∷ []) }
{}

/// Attributes of any object, and calls for durability.
pub fn attributes()
    ensures mode { plain small (call.Chmod (codes "d" ∷ []) 511) 9 ≡ issues (update.Mode 3 511) (1 ∷ 3 ∷ []) }
    ensures root_mode { plain small (call.Chmod [] 511) 9 ≡ issues (update.Mode 1 511) (1 ∷ []) }
    ensures stamp { plain small (call.Touch (codes "f" ∷ []) 11) 9 ≡ issues (update.Stamp 2 11) (1 ∷ 2 ∷ []) }
    ensures owner { plain small (call.Chown (codes "f" ∷ []) 11) 9 ≡ issues (update.Owner 2 11) (1 ∷ 2 ∷ []) }
    ensures no_name { plain small (call.Chown (codes "q" ∷ []) 11) 9 ≡ refuses (no.NotFound 1) (1 ∷ []) }
    ensures fsync { plain small (call.Fsync (codes "f" ∷ [])) 9 ≡ answers reply.Ok (1 ∷ 2 ∷ []) }
    ensures fsync_of_none { plain small (call.Fsync (codes "q" ∷ [])) 9 ≡ refuses (no.NotFound 1) (1 ∷ []) }
    ensures sync { plain small call.Sync 9 ≡ answers reply.Ok [] }
    ensures order { plain small (call.Forder ((codes "f" ∷ []) ∷ (codes "d" ∷ []) ∷ (codes "f" ∷ []) ∷ [])) 9 ≡ issues (update.Order (2 ∷ 3 ∷ [])) (1 ∷ 2 ∷ 1 ∷ 3 ∷ 1 ∷ 2 ∷ []) }
    ensures order_refused { plain small (call.Forder ((codes "f" ∷ []) ∷ (codes "q" ∷ []) ∷ (codes "d" ∷ []) ∷ [])) 9 ≡ refuses (no.NotFound 1) (1 ∷ 2 ∷ 1 ∷ []) }
{}

/// Removals, of a file and of an empty directory.
pub fn removals()
    ensures file { plain small (call.Remove (codes "d" ∷ codes "x" ∷ [])) 9 ≡ issues (update.Drop 3 (codes "x") 4 kind.File) (1 ∷ 3 ∷ 4 ∷ []) }
    ensures file_root { plain small (call.Remove []) 9 ≡ refuses no.Root [] }
    ensures file_none { plain small (call.Remove (codes "q" ∷ [])) 9 ≡ refuses (no.NotFound 1) (1 ∷ []) }
    ensures file_below_file { plain small (call.Remove (codes "f" ∷ codes "x" ∷ [])) 9 ≡ refuses (no.NotDir 1) (1 ∷ 2 ∷ []) }
    ensures file_directory { plain small (call.Remove (codes "e" ∷ [])) 9 ≡ refuses no.IsDir (1 ∷ 5 ∷ []) }
    ensures directory { plain small (call.Rmdir (codes "d" ∷ codes "s" ∷ [])) 9 ≡ issues (update.Drop 3 (codes "s") 6 kind.Dir) (1 ∷ 3 ∷ 6 ∷ []) }
    ensures directory_root { plain small (call.Rmdir []) 9 ≡ refuses no.Root [] }
    ensures directory_file { plain small (call.Rmdir (codes "d" ∷ codes "x" ∷ [])) 9 ≡ refuses (no.NotDir 2) (1 ∷ 3 ∷ 4 ∷ []) }
    ensures directory_full { plain small (call.Rmdir (codes "d" ∷ [])) 9 ≡ refuses no.NotEmpty (1 ∷ 3 ∷ []) }
{}

/// Renames within one directory.
pub fn renames_in_place()
    ensures file { plain small (call.Rename (codes "f" ∷ []) (codes "g" ∷ [])) 9 ≡ issues (update.Move 1 (codes "f") (codes "g") 2 kind.File None) (1 ∷ 2 ∷ 1 ∷ []) }
    ensures directory { plain small (call.Rename (codes "d" ∷ []) (codes "g" ∷ [])) 9 ≡ issues (update.Move 1 (codes "d") (codes "g") 3 kind.Dir None) (1 ∷ 3 ∷ 1 ∷ []) }
    ensures over_directory { plain small (call.Rename (codes "d" ∷ []) (codes "e" ∷ [])) 9 ≡ issues (update.Move 1 (codes "d") (codes "e") 3 kind.Dir (Some 5)) (1 ∷ 3 ∷ 1 ∷ 5 ∷ []) }
    ensures full { plain crowded (call.Rename (codes "full" ∷ (100 ∷ []) ∷ []) (codes "full" ∷ codes "a" ∷ [])) 9 ≡ issues (update.Move 7 (100 ∷ []) (codes "a") 100 kind.File None) (1 ∷ 7 ∷ 100 ∷ 1 ∷ 7 ∷ []) }
    ensures same { plain small (call.Rename (codes "f" ∷ []) (codes "f" ∷ [])) 9 ≡ answers reply.Ok (1 ∷ 2 ∷ []) }
    ensures same_of_none { plain small (call.Rename (codes "q" ∷ []) (codes "q" ∷ [])) 9 ≡ refuses (no.NotFound 1) (1 ∷ []) }
    ensures root { plain small (call.Rename [] (codes "g" ∷ [])) 9 ≡ refuses no.Root [] }
    ensures to_root { plain small (call.Rename (codes "q" ∷ []) []) 9 ≡ refuses no.Root [] }
    ensures file_over_directory { plain small (call.Rename (codes "f" ∷ []) (codes "e" ∷ [])) 9 ≡ refuses no.IsDir (1 ∷ 2 ∷ 1 ∷ 5 ∷ []) }
    ensures directory_over_file { plain small (call.Rename (codes "e" ∷ []) (codes "f" ∷ [])) 9 ≡ refuses (no.NotDir 1) (1 ∷ 5 ∷ 1 ∷ 2 ∷ []) }
    ensures over_full_directory { plain small (call.Rename (codes "e" ∷ []) (codes "d" ∷ [])) 9 ≡ refuses no.NotEmpty (1 ∷ 5 ∷ 1 ∷ 3 ∷ []) }
{}

/// Renames into another directory.
pub fn renames_elsewhere()
    ensures file { plain small (call.Rename (codes "f" ∷ []) (codes "d" ∷ codes "g" ∷ [])) 9 ≡ issues (update.Shift 1 (codes "f") 3 (codes "g") 2 kind.File None []) (1 ∷ 2 ∷ 1 ∷ 3 ∷ []) }
    ensures over_file { plain small (call.Rename (codes "f" ∷ []) (codes "d" ∷ codes "x" ∷ [])) 9 ≡ issues (update.Shift 1 (codes "f") 3 (codes "x") 2 kind.File (Some 4) []) (1 ∷ 2 ∷ 1 ∷ 3 ∷ 4 ∷ []) }
    ensures directory { plain small (call.Rename (codes "d" ∷ codes "s" ∷ []) (codes "e" ∷ codes "g" ∷ [])) 9 ≡ issues (update.Shift 3 (codes "s") 5 (codes "g") 6 kind.Dir None ((1, codes "e") ∷ [])) (1 ∷ 3 ∷ 6 ∷ 1 ∷ 5 ∷ []) }
    ensures into_root { plain small (call.Rename (codes "d" ∷ codes "s" ∷ []) (codes "g" ∷ [])) 9 ≡ issues (update.Shift 3 (codes "s") 1 (codes "g") 6 kind.Dir None []) (1 ∷ 3 ∷ 6 ∷ 1 ∷ []) }
    ensures deeper { plain small (call.Rename (codes "d" ∷ codes "t" ∷ []) (codes "d" ∷ codes "s" ∷ codes "t" ∷ [])) 9 ≡ issues (update.Shift 3 (codes "t") 6 (codes "t") 8 kind.Dir None ((1, codes "d") ∷ (3, codes "s") ∷ [])) (1 ∷ 3 ∷ 8 ∷ 1 ∷ 3 ∷ 6 ∷ []) }
    ensures over_directory { plain small (call.Rename (codes "e" ∷ []) (codes "d" ∷ codes "s" ∷ [])) 9 ≡ issues (update.Shift 1 (codes "e") 3 (codes "s") 5 kind.Dir (Some 6) ((1, codes "d") ∷ [])) (1 ∷ 5 ∷ 1 ∷ 3 ∷ 6 ∷ []) }
    ensures over_full { plain crowded (call.Rename (codes "f" ∷ []) (codes "full" ∷ (100 ∷ []) ∷ [])) 9 ≡ issues (update.Shift 1 (codes "f") 7 (100 ∷ []) 2 kind.File (Some 100) []) (1 ∷ 2 ∷ 1 ∷ 7 ∷ 100 ∷ []) }
{}

/// Refused renames into another directory.
pub fn refused_renames_elsewhere()
    ensures full { plain crowded (call.Rename (codes "f" ∷ []) (codes "full" ∷ codes "a" ∷ [])) 9 ≡ refuses no.DirFull (1 ∷ 2 ∷ 1 ∷ 7 ∷ []) }
    ensures into_itself { plain small (call.Rename (codes "d" ∷ []) (codes "d" ∷ codes "g" ∷ [])) 9 ≡ refuses no.Loop (1 ∷ 3 ∷ 1 ∷ 3 ∷ []) }
    ensures below_itself { plain small (call.Rename (codes "d" ∷ []) (codes "d" ∷ codes "s" ∷ codes "g" ∷ [])) 9 ≡ refuses no.Loop (1 ∷ 3 ∷ 1 ∷ 3 ∷ 6 ∷ []) }
    ensures onto_own_entry { plain small (call.Rename (codes "d" ∷ []) (codes "d" ∷ codes "x" ∷ [])) 9 ≡ refuses no.Loop (1 ∷ 3 ∷ 1 ∷ 3 ∷ []) }
    ensures below_itself_of_none { plain small (call.Rename (codes "d" ∷ []) (codes "d" ∷ codes "q" ∷ codes "g" ∷ [])) 9 ≡ refuses (no.NotFound 2) (1 ∷ 3 ∷ 1 ∷ 3 ∷ []) }
    ensures below_own_file { plain small (call.Rename (codes "d" ∷ []) (codes "d" ∷ codes "x" ∷ codes "g" ∷ [])) 9 ≡ refuses (no.NotDir 2) (1 ∷ 3 ∷ 1 ∷ 3 ∷ 4 ∷ []) }
    ensures parent_file { plain small (call.Rename (codes "e" ∷ []) (codes "f" ∷ codes "g" ∷ [])) 9 ≡ refuses (no.NotDir 1) (1 ∷ 5 ∷ 1 ∷ 2 ∷ []) }
    ensures file_itself { plain small (call.Rename (codes "f" ∷ []) (codes "f" ∷ codes "g" ∷ [])) 9 ≡ refuses (no.NotDir 1) (1 ∷ 2 ∷ 1 ∷ 2 ∷ []) }
    ensures through_file { plain small (call.Rename (codes "e" ∷ []) (codes "f" ∷ codes "g" ∷ codes "h" ∷ [])) 9 ≡ refuses (no.NotDir 1) (1 ∷ 5 ∷ 1 ∷ 2 ∷ []) }
    ensures no_parent { plain small (call.Rename (codes "f" ∷ []) (codes "q" ∷ codes "g" ∷ [])) 9 ≡ refuses (no.NotFound 1) (1 ∷ 2 ∷ 1 ∷ []) }
    ensures file_over_directory { plain small (call.Rename (codes "f" ∷ []) (codes "d" ∷ codes "s" ∷ [])) 9 ≡ refuses no.IsDir (1 ∷ 2 ∷ 1 ∷ 3 ∷ 6 ∷ []) }
    ensures directory_over_file { plain small (call.Rename (codes "e" ∷ []) (codes "d" ∷ codes "x" ∷ [])) 9 ≡ refuses (no.NotDir 2) (1 ∷ 5 ∷ 1 ∷ 3 ∷ 4 ∷ []) }
    ensures over_own_parent { plain small (call.Rename (codes "d" ∷ codes "s" ∷ []) (codes "d" ∷ [])) 9 ≡ refuses no.NotEmpty (1 ∷ 3 ∷ 6 ∷ 1 ∷ 3 ∷ []) }
{}
