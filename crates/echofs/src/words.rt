// What the program says to people.
ghost use Rattle.std.specs.Prelude.{◌↔◌, ◌≢◌, IsSome};

const USAGE: &str = "usage:
  echofs drill [N] < SCRIPT        carry out a script on the disk echofs.disk, a new one with room for N objects
  echofs check [N] < TRANSCRIPT    judge a transcript that began on a new disk with room for N objects
  echofs make N                    write the script of number N
  echofs soak N                    carry out the script of number N on the disk, and count its answers
  echofs leases L E < SCRIPT       carry out a script with leases of length L, and clocks that differ by at most E
  echofs serve ADDR COUNT          serve the disk over TCP at ADDR, until COUNT links have come and gone
  echofs mount ADDR CLERK < LANES  carry out lanes as clerk A to P of the server at ADDR
  echofs mounts CLERK PATH=ADDR .. < CALLS
                                   carry out calls over one to eight volumes, each of a server at ADDR, below PATH
The manual is docs/echofs.1.
echofs: the words are none of these";

/// What the program says of a status on standard error.
pub fn reason(status: u8) -> Option<&'static str>
    ensures { IsSome result ↔ (status ≢ 0) }
{
    match status {
        0 => None,
        2 => Some(USAGE),
        3 => Some("echofs: a line can't be read or carried out; the last line names it"),
        4 => Some("echofs: the input can't be read"),
        5 => Some("echofs: the output can't be written"),
        6 => Some("echofs: the disk failed"),
        7 => Some("echofs: the disk is bad; the last line tells where"),
        8 => Some("echofs: the net failed"),
        9 => Some("echofs: out of memory"),
        10 => Some("echofs: a thread can't be started"),
        11 => Some("echofs: too much; the last line tells the limit"),
        12 => Some("echofs: the transcript isn't legal; the last line names its first fault"),
        13 => Some("echofs: the server knows a later start of this clerk; the last line tells it"),
        14 => Some("echofs: the server sent what is no message; the last line tells where"),
        15 => Some("echofs: a counter is spent; the last line names it"),
        _ => Some("echofs: stopped"),
    }
}
