//! What the generator's scripts are made of. The function has an empty body, and its contract is a law.
ghost use Rattle.ec_script.specs.OfMade.Made.{MadeLinesCall};

/// Each line of a script of up to 2,000 lines stands in the grammar, and is a call of one of four clerks. Two
/// of eight make an object.
pub fn made_lines_call()
    ensures { MadeLinesCall }
{}
