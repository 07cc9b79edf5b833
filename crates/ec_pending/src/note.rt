// What happened to the operations of a start.
use crate::asked::Asked;
use ec_base::OpNo;
use ec_volume::Update;

/// What happened to the operations of a start.
#[derive(Drop)]
pub enum Note {
    /// An operation of this number was issued by an entry at this place.
    Issue(OpNo, u32, Box<Update>),
    /// This was asked.
    Cover(Asked),
}
