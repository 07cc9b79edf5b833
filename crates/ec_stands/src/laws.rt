// What holds of all images.
ghost use Rattle.std.specs.Prelude.{◌≡◌, ◌++◌, ◌∷◌, [], ℕ, List, Ok};
ghost use Rattle.ec_durable.specs.declared.record.Record.{Record};
ghost use Rattle.ec_durable.specs.declared.state.Durable.{Durable};
ghost use Rattle.ec_durable.specs.Codes.{said};
ghost use Rattle.ec_durable.specs.Durable.{step};
ghost use Rattle.ec_journal.specs.OfLayout.Layout.{Layout, Lies};
ghost use Rattle.ec_stands.specs.Stands.{StandsFor, IsBadAt, StepsTo};
ghost use Rattle.ec_stands.specs.Checkpoints.{IsCheckpoint};

/// An image stands for at most one state, and for none where it has a bad place. Its first bad place is one.
pub fn images_stand_for_one_state()
    ensures one { (image : List ℕ) (a b : Durable) → StandsFor image a → StandsFor image b → a ≡ b }
    ensures not_both { (image : List ℕ) (state : Durable) (place : ℕ) → StandsFor image state → IsBadAt image place → ⊥ }
    ensures first { (image : List ℕ) (a b : ℕ) → IsBadAt image a → IsBadAt image b → a ≡ b }
{}

/// An image that has the layout of a state's checkpoint stands for the state behind its records, and each record more steps that state.
pub fn laid_out_images_stand()
    ensures stands { (image : List ℕ) (l : Layout) (base state : Durable) (places : List (ℕ × ℕ)) → Lies image l → IsCheckpoint l base places → StepsTo l.bodies base state → StandsFor image state }
    ensures more { (bodies : List (List ℕ)) (body : List ℕ) (r : Record) (d e f : Durable) → StepsTo bodies d e → said body ≡ Ok r → step r e ≡ Ok f → StepsTo (bodies ++ body ∷ []) d f }
{}
