// What holds of all transcript lines.
ghost use Rattle.std.specs.Prelude.{◌≡◌, ℕ, List};
ghost use Rattle.ec_history.specs.declared.shown.Shown.{Shown};
ghost use Rattle.ec_script.specs.declared.line.LineFault.TheVariants as fault;
ghost use Rattle.ec_words.specs.OfText.Lines.{shown_line};
ghost use Rattle.ec_shown.specs.Showable.{IsShowable};
ghost use Rattle.ec_shown.specs.Lines.{IsShown, IsUnfit};

/// Bytes are read as one line, or have one column. What is read is printed as these bytes and is within
/// its ranges, and what is printed of values within their ranges is read as these values.
pub fn one_reading()
    ensures value_once { (bytes : List ℕ) (a b : Shown) → IsShown bytes a → IsShown bytes b → a ≡ b }
    ensures spelling_once { (bytes : List ℕ) (a : Shown) → IsShown bytes a → bytes ≡ shown_line a }
    ensures column_once { (bytes : List ℕ) (i j : ℕ) → IsUnfit bytes (fault.At i) → IsUnfit bytes (fault.At j) → i ≡ j }
    ensures ranges { (bytes : List ℕ) (a : Shown) → IsShown bytes a → IsShowable a }
    ensures read_back { (a : Shown) → IsShowable a → IsShown (shown_line a) a }
{}
