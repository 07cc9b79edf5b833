// What holds of every stream of frames.
ghost use Rattle.std.specs.Prelude.{◌≡◌, ◌↔◌, ◌≤◌, ℕ, List, [], ◌∷◌, ◌++◌, length};
ghost use Rattle.ec_streams.specs.OfFrame.Frames.{Begins, BeginsLong};
ghost use Rattle.ec_streams.specs.OfFrame.Streams.{Event, Fed, Runs, stream, taken, all_moved, IsAtEnd, AreMessages};

/// However a stream is cut and whenever its bodies are taken, they are the messages of the whole stream.
pub fn any_pieces()
    ensures { (events : List Event) (held : List ℕ) → Runs [] events held → IsAtEnd held → AreMessages (stream events) (taken events) held }
{}

/// A stream has one list of messages and one rest.
pub fn one_reading()
    ensures { (bytes rest left : List ℕ) (bodies others : List (List ℕ)) → AreMessages bytes bodies rest → AreMessages bytes others left → (bodies ≡ others) × (rest ≡ left) }
{}

/// One piece is as good as two.
pub fn joined_pieces()
    ensures { (old new xs ys : List ℕ) (events : List Event) → (Runs old (Fed (xs ++ ys) ∷ events) new) ↔ (Runs old (Fed xs ∷ Fed ys ∷ events) new) }
{}

/// What a stream begins with is one, and stays so as the stream goes on.
pub fn one_beginning()
    ensures frame { (bytes body other rest left : List ℕ) → Begins bytes body rest → Begins bytes other left → (body ≡ other) × (rest ≡ left) }
    ensures long { (bytes : List ℕ) (m n : ℕ) → BeginsLong bytes m → BeginsLong bytes n → m ≡ n }
    ensures not_both { (bytes body rest : List ℕ) (n : ℕ) → Begins bytes body rest → BeginsLong bytes n → ⊥ }
    ensures frame_stays { (bytes body rest more : List ℕ) → Begins bytes body rest → Begins (bytes ++ more) body (rest ++ more) }
    ensures long_stays { (bytes more : List ℕ) (n : ℕ) → BeginsLong bytes n → BeginsLong (bytes ++ more) n }
{}

/// However a stream is cut, no more bytes are moved in memory than came.
pub fn moved_once()
    ensures { (events : List Event) (held : List ℕ) → Runs [] events held → all_moved (record { taken = 0; left = [] }) events ≤ length (stream events) }
{}
