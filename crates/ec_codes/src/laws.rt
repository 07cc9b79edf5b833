// What holds of all codes.
ghost use Rattle.std.specs.Prelude.{◌≡◌, ◌≤◌, ℕ, true, List, length};
ghost use Rattle.ec_volume.specs.Entries.{Entries};
ghost use Rattle.ec_volume.specs.declared.image.Image.TheVariants.{File, Dir};
ghost use Rattle.ec_volume.specs.declared.update.Update.{Update};
ghost use Rattle.ec_codes.specs.Updates.{update_code};
ghost use Rattle.ec_codes.specs.Images.{image_code};
ghost use Rattle.ec_codes.specs.Lengths.{max_update_code, max_file_code, max_dir_code};

/// An update's code has at most 4,108 bytes, a file's image 65,555 and a directory's 8,848.
pub fn codes_are_short()
    ensures update { (update : Update) → update_code.fits update ≡ true → length (update_code.spell update) ≤ max_update_code }
    ensures file { (mode stamp owner : ℕ) (bytes : List ℕ) → image_code.fits (File mode stamp owner bytes) ≡ true → length (image_code.spell (File mode stamp owner bytes)) ≤ max_file_code }
    ensures directory { (mode stamp owner : ℕ) (entries : Entries) → image_code.fits (Dir mode stamp owner entries) ≡ true → length (image_code.spell (Dir mode stamp owner entries)) ≤ max_dir_code }
{}
