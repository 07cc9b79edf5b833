//! Updates and images by their bytes, and bytes that are neither.

use ec_codes::{CodeFault, get_image, get_image_v1, get_update, put_image, put_update};
use ec_volume::{Image, Kind, Update};
use std::alloc::Global;

fn is_new_file(update: &Update) -> bool {
    match update {
        Update::Make {
            dir,
            name,
            obj,
            kind: Kind::File,
        } => dir.get() == 1 && name.bytes() == b"f".as_slice() && obj.get() == 2,
        _ => false,
    }
}

// Whether the code is that of file 2 with the name `f` in the root, up to its end, and is written so again.
fn makes(alloc: Global, code: &[u8]) -> bool {
    match get_update(alloc, code, 0) {
        Ok((update, place)) => {
            let mut bytes = Vec::new(alloc);
            let is_put = put_update(&update, &mut bytes).is_ok();
            let is_same = bytes.as_slice() == code;
            drop(bytes);
            let is_made = is_new_file(&update);
            drop(update);
            is_put && is_same && is_made && place == code.len()
        }
        Err(_) => false,
    }
}

fn is_file(image: &Image) -> bool {
    match image {
        Image::File {
            mode: 0o644,
            stamp: 0,
            owner: 7,
            bytes,
        } => bytes.as_slice() == b"hi".as_slice(),
        _ => false,
    }
}

// Whether the code is that of a file with these, up to its end, and is written so again.
fn holds_file(alloc: Global, code: &[u8]) -> bool {
    match get_image(alloc, code, 0) {
        Ok((image, place)) => {
            let mut bytes = Vec::new(alloc);
            let is_put = put_image(&image, &mut bytes).is_ok();
            let is_same = bytes.as_slice() == code;
            drop(bytes);
            let is_file = is_file(&image);
            drop(image);
            is_put && is_same && is_file && place == code.len()
        }
        Err(_) => false,
    }
}

// Whether the code is that of an empty directory in version 1, which had no owners.
fn holds_old_directory(alloc: Global, code: &[u8]) -> bool {
    match get_image_v1(alloc, code, 0) {
        Ok((image, place)) => {
            let is_so = matches!(
                &image,
                Image::Dir {
                    mode: 0o755,
                    owner: 0,
                    ..
                }
            );
            drop(image);
            is_so && place == code.len()
        }
        Err(_) => false,
    }
}

// Whether the code is that of an object that is gone, and is written so again.
fn holds_nothing(alloc: Global, code: &[u8]) -> bool {
    match get_image(alloc, code, 0) {
        Ok((image, place)) => {
            let mut bytes = Vec::new(alloc);
            let is_put = put_image(&image, &mut bytes).is_ok();
            let is_same = bytes.as_slice() == code;
            drop(bytes);
            let is_gone = matches!(&image, Image::Gone);
            drop(image);
            is_put && is_same && is_gone && place == code.len()
        }
        Err(_) => false,
    }
}

#[test]
fn codes_that_are_read(rt: HostRuntime) {
    let made = makes(rt.alloc(), &[1, 0, 0, 0, 1, 0, 0, 0, 2, 1, 1, 102]);
    let file = b"\x01\x01\xa4\0\0\0\0\0\0\0\0\0\0\0\x07\0\0\0\x02hi";
    let held = holds_file(rt.alloc(), file);
    let old = holds_old_directory(rt.alloc(), b"\x02\x01\xed\0\0\0\0\0\0\0\0\0");
    let gone = holds_nothing(rt.alloc(), &[0]);
    assert!(rt; made && held && old && gone);
}

// Each refusal of an update once.
#[test]
fn refused_updates(rt: HostRuntime) {
    let rows: [(&[u8], CodeFault); 15] = [
        (&[], CodeFault::Short(0)),
        (&[0], CodeFault::Field(0)),
        (&[11], CodeFault::Field(0)),
        (&[7, 0, 0, 0], CodeFault::Short(4)),
        (&[7, 0, 0, 0, 0], CodeFault::Field(1)),
        (&[1, 0, 0, 0, 1, 0, 0, 0, 1], CodeFault::Field(5)),
        (&[1, 0, 0, 0, 1, 0, 0, 0, 2, 3], CodeFault::Field(9)),
        (&[1, 0, 0, 0, 1, 0, 0, 0, 2, 1, 0], CodeFault::Field(10)),
        (&[1, 0, 0, 0, 1, 0, 0, 0, 2, 1, 1, 47], CodeFault::Field(10)),
        (
            &[3, 0, 0, 0, 1, 0, 0, 0, 2, 1, 0, 0, 0, 0, 1, 102, 1, 102],
            CodeFault::Field(16),
        ),
        (&[4, 0, 0, 0, 2, 0, 0, 255, 255, 2], CodeFault::Field(9)),
        (
            &[4, 0, 0, 0, 2, 0, 0, 255, 255, 1, 0, 2, 1, 1],
            CodeFault::Field(10),
        ),
        (&[6, 0, 0, 0, 2, 16, 0], CodeFault::Field(5)),
        (&[8, 0], CodeFault::Field(1)),
        (&[8, 2, 0, 0, 0, 2, 0, 0, 0, 2], CodeFault::Field(6)),
    ];
    for (bytes, fault) in rows {
        assert!(rt; get_update(rt.alloc(), bytes, 0).err() == Some(fault));
    }
}

// Of a file: too many bytes, and too few. Of a directory: too many entries, a name without bytes, no id, names that don't rise, and an id that
// stands twice.
#[test]
fn refused_images(rt: HostRuntime) {
    let rows: [(&[u8], CodeFault); 12] = [
        (b"", CodeFault::Short(0)),
        (b"\x03", CodeFault::Field(0)),
        (b"\x01\x01", CodeFault::Short(2)),
        (b"\x01\x10\0", CodeFault::Field(1)),
        (
            b"\x02\x01\xed\0\0\0\0\0\0\0\0\0\0\0\0",
            CodeFault::Short(15),
        ),
        (
            b"\x01\x01\xa4\0\0\0\0\0\0\0\0\0\0\0\0\0\x01\0\x01",
            CodeFault::Field(15),
        ),
        (
            b"\x01\x01\xa4\0\0\0\0\0\0\0\0\0\0\0\0\0\0\0\x02h",
            CodeFault::Short(20),
        ),
        (
            b"\x02\x01\xed\0\0\0\0\0\0\0\0\0\0\0\0\x81",
            CodeFault::Field(15),
        ),
        (
            b"\x02\x01\xed\0\0\0\0\0\0\0\0\0\0\0\0\x01\0",
            CodeFault::Field(16),
        ),
        (
            b"\x02\x01\xed\0\0\0\0\0\0\0\0\0\0\0\0\x01\x01f\0\0\0\0",
            CodeFault::Field(18),
        ),
        (
            b"\x02\x01\xed\0\0\0\0\0\0\0\0\0\0\0\0\x02\x01b\0\0\0\x02\x01a",
            CodeFault::Field(22),
        ),
        (
            b"\x02\x01\xed\0\0\0\0\0\0\0\0\0\0\0\0\x02\x01a\0\0\0\x02\x01b\0\0\0\x02",
            CodeFault::Field(24),
        ),
    ];
    for (bytes, fault) in rows {
        assert!(rt; get_image(rt.alloc(), bytes, 0).err() == Some(fault));
    }
    let old: [(&[u8], CodeFault); 3] = [
        (b"\x03", CodeFault::Field(0)),
        (b"\x02\x01\xed\0\0\0\0\0\0\0\0", CodeFault::Short(11)),
        (b"\x02\x01\xed\0\0\0\0\0\0\0\0\x81", CodeFault::Field(11)),
    ];
    for (bytes, fault) in old {
        assert!(rt; get_image_v1(rt.alloc(), bytes, 0).err() == Some(fault));
    }
}
