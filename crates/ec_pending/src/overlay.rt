//! A volume with changed images laid over it, of which each can be made anew from the volume below.
mod changed;
mod overlay;

pub use changed::Changed;
pub use overlay::Overlay;
