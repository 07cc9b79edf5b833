use ec_base::{Duplicate, Hold, NoMemory};

/// What a session holds on an object: the mode, and the number of its grant.
#[derive(Clone, Copy, Debug, Drop, PartialEq, Eq)]
pub struct Token {
    pub hold: Hold,
    pub number: u64,
}

impl Duplicate for Token {
    fn duplicate(&self) -> Result<Self, NoMemory> {
        Ok(*self)
    }
}
