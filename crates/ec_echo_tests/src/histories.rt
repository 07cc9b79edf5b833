// Transcripts as histories: whether they are legal, what they keep, and what the first start of clerk A owes.
use ec_base::ClerkId;
use ec_history::Rule;
use ec_legal::transcript::read_lines;
use ec_legal::{History, HistoryFault, place};
use std::alloc::Global;

// A session ends under its running clerk, and a late answer stands before its loss, which is told and reported.
const REPORTED: &[u8] = b"1 A create /f -> waits
1 A create /f -> ok op 1
2 A write /f 0 one -> ok op 2
3 A sync -> waits
durable A 1 2
3 A sync -> ok
5 A write /f 0 two -> ok op 3
6 A touch /f 7 -> ok op 4
ended A lost 3 4
8 B write /f 0 six -> waits
8 B write /f 0 six -> ok op 1
9 A read /f 0 9 -> data 3 two
told A lost 3 4
11 A stat /f -> waits
durable B 1
11 A stat /f -> lost 3 4
12 A stat /f -> stat file 0644 0 3
";

// The operations of a session are lost, and nothing reports them yet.
const OWED: &[u8] = b"1 A create /f -> ok op 1
2 A write /f 0 hi -> ok op 2
ended A lost 1 2
told A lost 1 2
";

// The second answer isn't that of the volume.
const WRONG: &[u8] = b"1 A create /f -> ok op 1
2 A stat /f -> stat file 0600 0 0
3 A write /f 0 hi -> ok op 2
";

// The second line may not follow the first.
const TWICE: &[u8] = b"1 A create /f -> ok op 1
1 A create /f -> ok op 1
";

fn placed(alloc: Global, text: &[u8]) -> Option<Result<History, HistoryFault>> {
    if text.len() > 1_000 {
        return None;
    }
    match read_lines(alloc, text, 0) {
        Ok(shown) => Some(place(alloc, &shown)),
        Err(_) => None,
    }
}

fn kept(history: &History) -> Option<usize> {
    match history.kept() {
        Ok(updates) => Some(updates.len()),
        Err(_) => None,
    }
}

// The verdict, how many updates are kept, and how many pairs are owed.
type Found = (Result<(), HistoryFault>, usize, usize);

fn found_in(history: &History) -> Option<Found> {
    let owed = history.owed(ClerkId::new(0)?, 1).ok()?.len();
    Some((history.check(1_024), kept(history)?, owed))
}

fn found(alloc: Global, text: &[u8]) -> Option<Result<Found, HistoryFault>> {
    match placed(alloc, text)? {
        Ok(history) => {
            let found = found_in(&history);
            drop(history);
            Some(Ok(found?))
        }
        Err(fault) => Some(Err(fault)),
    }
}

#[test]
fn transcripts_are_histories(rt: HostRuntime) {
    assert!(rt; found(rt.alloc(), REPORTED) == Some(Ok((Ok(()), 3, 0))));
    assert!(rt; found(rt.alloc(), OWED) == Some(Ok((Ok(()), 0, 3))));
    let reply = HistoryFault::At(2, Rule::Reply);
    assert!(rt; found(rt.alloc(), WRONG) == Some(Ok((Err(reply), 1, 0))));
    let shape = HistoryFault::At(2, Rule::Shape);
    assert!(rt; found(rt.alloc(), TWICE) == Some(Err(shape)));
}
