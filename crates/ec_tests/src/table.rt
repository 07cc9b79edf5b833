//! Tables by their bytes.

use ec_codes::CodeFault;
use ec_stands::table::{Version, get_table};
use std::alloc::Global;

// The table of a formatted volume in version 1: the root in slot 0.
const FORMATTED: [u8; 52] = [
    0, 0, 0, 48, 0, 0, 0, 2, 0, 0, 0, 0, 0, 0, 0, 1, 0, 0, 0, 0, 0, 0, 0, 0, 0, 0, 0, 0, 0, 0, 0,
    0, 0, 0, 0, 0, 0, 0, 0, 0, 0, 0, 0, 1, 0, 0, 0, 1, 0, 0, 0, 0,
];

// What a table of a formatted volume has: its version, where it ends, the next id and session, the slots, and the places of the images.
type Told = (Version, usize, u32, u64, usize, Option<(u32, u32)>);

fn contents(alloc: Global, bytes: &[u8]) -> Option<Told> {
    let ((version, table), next) = get_table(alloc, bytes, 0, 32).ok()?;
    let place = match table.places.as_slice() {
        [(id, number)] => Some((id.get(), *number)),
        _ => None,
    };
    Some((
        version,
        next,
        table.next_id,
        table.next_session,
        table.slots.as_slice().len(),
        place,
    ))
}

#[test]
fn formatted_table(rt: HostRuntime) {
    let want = (Version::One, 52, 2, 1, 16, Some((1, 0)));
    assert!(rt; contents(rt.alloc(), &FORMATTED) == Some(want));
}

// Each refusal once.
#[test]
fn refused_tables(rt: HostRuntime) {
    let rows: [(&[u8], u32, CodeFault); 6] = [
        (&[], 32, CodeFault::Short(0)),
        (&[1], 32, CodeFault::Field(0)),
        (&[0, 0, 255, 253], 32, CodeFault::Field(0)),
        (&[2, 0, 0, 255, 252], 32, CodeFault::Field(1)),
        (&FORMATTED[..51], 32, CodeFault::Short(51)),
        (&FORMATTED, 0, CodeFault::Field(48)),
    ];
    for (bytes, most, fault) in rows {
        assert!(rt; get_table(rt.alloc(), bytes, 0, most).err() == Some(fault));
    }
}
