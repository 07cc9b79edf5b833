// Tokens that come back from holders.
ghost use Rattle.ec_quiet.specs.OfDeliveries.Coming.{BacksComeBack};

/// A holder's token that was recalled comes back: the others are still waited for, or the want is
/// granted.
pub fn recalled_tokens_are_delivered()
    ensures { BacksComeBack }
{}
