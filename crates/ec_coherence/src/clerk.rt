// What a clerk takes.
ghost use Rattle.ec_coherence.specs.ClerkLaws.{TakenOutside, TakenInside};

/// Any message that a clerk takes, in a session or not, leaves tokens, licences and numbers in
/// agreement.
pub fn clerks_keep_tokens()
    ensures outside { TakenOutside }
    ensures inside { TakenInside }
{}
