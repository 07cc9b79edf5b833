// Links whose use has ended.
ghost use Rattle.std.specs.Prelude.{◌≡◌, ◌+◌, [], ◌∷◌, ◌++◌, true};
ghost use Rattle.ec_link.specs.NetAnswers.{is_bad};

use ec_link::Net;

/// Gives a link back to its net: whether the net has it.
pub fn give_back<N: Net>(net: &mut N, link: N::Link) -> bool
    ensures faults { N.faults net.new ≡ N.faults net.old }
    ensures bad { result ≡ true → N.bad net.new ≡ N.bad net.old + is_bad (N.Link.faults link) (N.Link.closes link) }
    ensures ended { result ≡ true → N.ended net.new ≡ N.ended net.old ++ (N.Link.given link, N.Link.got link) ∷ [] }
    ensures asked { N.asked net.new ≡ N.asked net.old }
{
    match net.back(link) {
        Ok(()) => true,
        Err(_) => false,
    }
}
