//! A map from objects to values, of which each is found and put in a time that grows with the logarithm
//! of their count.
mod map;

pub use map::ObjMap;
