// An address that a net was asked for, which stands in proofs alone and has no bytes.
ghost use Rattle.std.specs.Prelude.{◌≡◌};

use ec_base::trace::Trace;

/// The bytes of the address.
pub fn named(addr: &str) -> Trace<u8>
    ensures { result.items ≡ addr.now }
{
    let mut name = Trace::new();
    for byte in addr.as_bytes() {
        name = name.and(byte);
    }
    name
}
