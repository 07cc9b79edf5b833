//! The words of a line: what each may stand for, rows of them, and the calls that they spell.
#![tactic(auto)]

mod call;
mod cursor;
mod escape;
mod laws;
mod name;
mod number;
mod paths;
mod pieces;
mod spell;
mod spelled;
pub mod text;

pub use call::read_call;
pub use cursor::{Misfit, Words, column_left};
pub use escape::text_of;
pub use laws::spelled_calls;
pub use name::{Keyword, Verb, choice_of, is_word, keyword_of, kind_of, verb_of};
pub use number::{mode_of, number_in};
pub use paths::read_paths;
pub use pieces::piece_len;
pub use spell::{Armed, Count, Lane, Mode, clerk_of};
pub use spelled::{Spelled, first, no_more, one, three, two};
