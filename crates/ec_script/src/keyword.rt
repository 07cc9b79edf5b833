// Lines that are no calls, by their words.
ghost use Rattle.std.specs.Prelude.{MatchResult};
ghost use Rattle.ec_script.specs.Grammar.{Says};
ghost use Rattle.ec_words.specs.RowsLeft.{IsMisfit, left};

use crate::line::Line;
use ec_base::{ClerkId, OpNo};
use ec_disk::Choice;
use ec_wire::MsgKind;
use ec_words::{Armed, Keyword, Misfit, Words, no_more, one, three, two};
use std::alloc::Global;

// What stands behind a keyword.
pub(crate) fn read_keyword(
    alloc: Global,
    keyword: Keyword,
    words: Words<'_>,
) -> Result<Line, Misfit>
    ensures { MatchResult result (Says keyword (left words.entry)) (IsMisfit (Says keyword) (left words.entry)) }
{
    match keyword {
        Keyword::Push => {
            let (clerk, op) = two::<ClerkId, OpNo>(alloc, words)?;
            Ok(Line::Push(clerk, op))
        }
        Keyword::Cut => Ok(Line::Cut(one::<ClerkId>(alloc, words)?)),
        Keyword::Uncut => Ok(Line::Uncut(one::<ClerkId>(alloc, words)?)),
        Keyword::Drop => {
            let (clerk, (kind, number)) = three::<ClerkId, MsgKind, u32>(alloc, words)?;
            Ok(Line::Drop(clerk, kind, number))
        }
        Keyword::Repeat => {
            let (clerk, (kind, number)) = three::<ClerkId, MsgKind, u32>(alloc, words)?;
            Ok(Line::Repeat(clerk, kind, number))
        }
        Keyword::Deliver => {
            let (clerk, (kind, number)) = three::<ClerkId, MsgKind, u32>(alloc, words)?;
            Ok(Line::Deliver(clerk, kind, number))
        }
        Keyword::Resend => Ok(Line::Resend(one::<ClerkId>(alloc, words)?)),
        Keyword::Crash => Ok(Line::Crash(one::<ClerkId>(alloc, words)?)),
        Keyword::End => Ok(Line::End(one::<ClerkId>(alloc, words)?)),
        Keyword::Stop => {
            no_more(words)?;
            Ok(Line::Stop)
        }
        Keyword::Arm => {
            let (calls, choice) = two::<Armed, Choice>(alloc, words)?;
            Ok(Line::Arm(calls.0, choice))
        }
        Keyword::Restart => {
            no_more(words)?;
            Ok(Line::Restart)
        }
    }
}
