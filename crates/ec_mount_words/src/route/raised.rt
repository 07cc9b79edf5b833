// Answers as the caller sees them.
ghost use Rattle.std.specs.Prelude.{◌≡◌};
ghost use Rattle.ec_mount_words.specs.OfRoute.Calls.{place_below, raised_refusal, raised};

use ec_history::Answer;
use ec_plain::{Refusal, Reply};

/// The answer of a volume whose mount path has so many names: the place of a name in a path is told by the whole path.
pub fn raised_answer(names: u8, answer: Answer) -> Answer
    ensures { result ≡ raised names answer }
{
    match answer {
        Answer::Reply(Reply::Refused(refusal)) => {
            Answer::Reply(Reply::Refused(raised_refusal(names, refusal)))
        }
        other => other,
    }
}

fn raised_refusal(names: u8, refusal: Refusal) -> Refusal
    ensures { result ≡ raised_refusal names refusal }
{
    match refusal {
        Refusal::NotFound(place) => Refusal::NotFound(place_below(names, place)),
        Refusal::NotDir(place) => Refusal::NotDir(place_below(names, place)),
        other => other,
    }
}

// The place of a name behind so many more names.
fn place_below(names: u8, place: u8) -> u8
    ensures { result ≡ place_below names place }
{
    place.saturating_add(names)
}
