// What holds of every line.
ghost use Rattle.std.specs.Prelude.{◌≡◌, ◌+◌, ◌≤◌, ℕ, List, length};
ghost use Rattle.ec_plain.specs.declared.call.Call.{Call};
ghost use Rattle.ec_script.specs.declared.line.Line.{Line};
ghost use Rattle.ec_script.specs.declared.line.LineFault.TheVariants as fault;
ghost use Rattle.ec_script.specs.Grammar.{IsLine, IsFault, IsLaneLine};
ghost use Rattle.ec_words.specs.Words.{column_of};

/// Bytes are one line, or one line of a lane, or have one column, which is at most just behind it.
pub fn one_reading()
    ensures line_once { (bytes : List ℕ) (l m : Line) → IsLine bytes l → IsLine bytes m → l ≡ m }
    ensures lane_once { (bytes : List ℕ) (x y : ℕ × Call) → IsLaneLine bytes x → IsLaneLine bytes y → x ≡ y }
    ensures column_once { (bytes : List ℕ) (i j : ℕ) → IsFault bytes (fault.At i) → IsFault bytes (fault.At j) → i ≡ j }
    ensures within { (bytes : List ℕ) (k : ℕ) → column_of bytes k ≤ length bytes + 1 }
{}
