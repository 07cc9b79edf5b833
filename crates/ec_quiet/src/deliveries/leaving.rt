// Tokens that the line's clerk had too much.
ghost use Rattle.ec_quiet.specs.OfDeliveries.Coming.{OldTokensLeave};

/// Such a token leaves the phase as it is, and less is left by its message.
pub fn old_tokens_leave()
    ensures { OldTokensLeave }
{}
