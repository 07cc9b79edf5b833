//! Objects, their images, updates and volumes.
#![tactic(auto)]

mod carry;
mod effect;
mod entries;
mod fits;
mod image;
mod laws;
mod limits;
mod look;
mod shared;
mod update;
mod volume;

pub use entries::Entries;
pub use image::{Image, Kind};
pub use laws::{
    changed_volume_shows_the_update, images_tell_the_volume, lists_fit_one_by_one,
    unfit_operand_decides,
};
pub use limits::{MAX_ENTRIES, MAX_FILE_BYTES, MAX_MODE, MAX_ORDERED, MAX_WRITE_BYTES};
pub use look::Look;
pub use shared::SharedImage;
pub use update::{Update, operands};
pub use volume::{ApplyFault, Volume};
