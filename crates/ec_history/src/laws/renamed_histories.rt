// Histories over a base with renamed ids.
ghost use Rattle.std.specs.Prelude.{◌≡◌, ℕ, List, map};
ghost use Rattle.ec_volume.specs.Volume.{Images};
ghost use Rattle.ec_plain.specs.declared.call.Call.{Call};
ghost use Rattle.ec_history.specs.History.{Base, History, kept, issued, owed, due, touched, Covers};
ghost use Rattle.ec_history.specs.Legal.{IsLegal, IsLawful};
ghost use Rattle.ec_history.specs.Lines.{AreCovered, IsStored};
ghost use Rattle.ec_history.specs.declared.entry.Entry.{Entry};
ghost use Rattle.ec_history.specs.declared.shown.Shown.{Shown};
ghost use Rattle.ec_history.specs.OfLaws.Renaming.{IsRenaming};
ghost use Rattle.ec_history.specs.OfLaws.Renamed.{AreRenamed, op_by, owed_by};

/// A history keeps and issues the same operations there, with renamed ids, and an entry touches the
/// renamed objects.
pub fn renamed_histories_keep_the_same()
    ensures kept { (r : ℕ → ℕ) (base other : Base) (h : History) → IsRenaming r → AreRenamed r base other → kept other h ≡ map (op_by r) (kept base h) }
    ensures issued { (r : ℕ → ℕ) (base other : Base) (h : History) → IsRenaming r → AreRenamed r base other → issued other h ≡ map (op_by r) (issued base h) }
    ensures touched { (r : ℕ → ℕ) (base other : Base) (h : History) (e : ℕ × Entry) → IsRenaming r → AreRenamed r base other
        → touched other (kept other h) e ≡ map r (touched base (kept base h) e) }
{}

/// A start owes the same, with renamed objects, and its calls have to report the same.
pub fn renamed_histories_owe_the_same()
    ensures owed { (r : ℕ → ℕ) (base other : Base) (h : History) (c b : ℕ) → IsRenaming r → AreRenamed r base other
        → owed other h c b ≡ owed_by r (owed base h c b) }
    ensures due { (r : ℕ → ℕ) (base other : Base) (h : History) (c b p : ℕ) (cl : Call) → IsRenaming r → AreRenamed r base other
        → due other h c b p cl ≡ due base h c b p cl }
{}

/// An entry covers the same operations, and a loss is lawful over both bases or neither.
pub fn renamed_losses_are_lawful()
    ensures covers { (r : ℕ → ℕ) (base other : Base) (h : History) (e : ℕ × Entry) (c b n : ℕ) → IsRenaming r → AreRenamed r base other
        → Covers base h e c b n → Covers other h e c b n }
    ensures covers_back { (r : ℕ → ℕ) (base other : Base) (h : History) (e : ℕ × Entry) (c b n : ℕ) → IsRenaming r → AreRenamed r base other
        → Covers other h e c b n → Covers base h e c b n }
    ensures lawful { (r : ℕ → ℕ) (base other : Base) (h : History) (c b : ℕ) (ns : List ℕ) → IsRenaming r → AreRenamed r base other
        → IsLawful base h c b ns → IsLawful other h c b ns }
    ensures lawful_back { (r : ℕ → ℕ) (base other : Base) (h : History) (c b : ℕ) (ns : List ℕ) → IsRenaming r → AreRenamed r base other
        → IsLawful other h c b ns → IsLawful base h c b ns }
{}

/// A history is legal over both bases or neither.
pub fn renamed_histories_are_legal()
    ensures legal { (r : ℕ → ℕ) (base other : Base) (most : ℕ) (h : History) → IsRenaming r → AreRenamed r base other → IsLegal base most h
        → IsLegal other most h }
    ensures legal_back { (r : ℕ → ℕ) (base other : Base) (most : ℕ) (h : History) → IsRenaming r → AreRenamed r base other → IsLegal other most h
        → IsLegal base most h }
{}

/// The durable lines of a transcript name all that its calls cover, over both bases or neither, and
/// what they name leaves volumes of one shape.
pub fn renamed_transcripts_are_covered()
    ensures covered { (r : ℕ → ℕ) (base other : Base) (ss : List Shown) → IsRenaming r → AreRenamed r base other → AreCovered base ss → AreCovered other ss }
    ensures covered_back { (r : ℕ → ℕ) (base other : Base) (ss : List Shown) → IsRenaming r → AreRenamed r base other → AreCovered other ss
        → AreCovered base ss }
    ensures stored { (r : ℕ → ℕ) (base other : Base) (ss : List Shown) (v : Images) → IsRenaming r → AreRenamed r base other → IsStored base ss v
        → IsStored other ss v }
    ensures stored_back { (r : ℕ → ℕ) (base other : Base) (ss : List Shown) (v : Images) → IsRenaming r → AreRenamed r base other
        → IsStored other ss v → IsStored base ss v }
{}
