// Operations by their places.
use ec_base::OpNo;
use ec_volume::Update;

/// An operation that a start issued.
#[derive(Drop)]
pub struct Issue {
    pub number: OpNo,
    /// The place of its entry.
    pub place: u32,
    pub update: Update,
}
