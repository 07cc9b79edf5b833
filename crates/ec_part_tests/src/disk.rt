//! Disks in memory and over real files: what a cut leaves of them, their lengths, and their syncs.

use ec_disk::{Choice, CrashDisk, Disk, DiskAnswer, DiskLen, FileDisk, MemDisk};
use std::alloc::{AllocError, Global};
use std::cell::Cell;
use std::fs::{File, Metadata, OpenFile};
use std::os::unix::fs::FileExt;
use std::{fs, io};

// What a watched file was asked, and what it is to answer.
#[derive(Drop)]
struct Watch {
    syncs: Cell<u32>,
    is_sync_failing: Cell<bool>,
    // So many bytes more are written, and then writes fail.
    room: Cell<usize>,
}

impl Watch {
    fn new() -> Self {
        Watch {
            syncs: Cell::new(0),
            is_sync_failing: Cell::new(false),
            room: Cell::new(usize::MAX),
        }
    }
}

#[derive(Drop)]
struct Watched<'a> {
    file: File,
    watch: &'a Watch,
}

impl FileExt for Watched<'_> {
    fn read_at(&self, buf: &mut [u8], offset: u64) -> io::Result<usize> {
        self.file.read_at(buf, offset)
    }

    fn write_at(&self, buf: &[u8], offset: u64) -> io::Result<usize> {
        let room = self.watch.room.get();
        if room == 0 {
            return Err(io::Error::from(io::ErrorKind::StorageFull));
        }
        let count = self.file.write_at(&buf[..buf.len().min(room)], offset)?;
        self.watch.room.set(room.saturating_sub(count));
        Ok(count)
    }
}

impl OpenFile for Watched<'_> {
    fn metadata(&self) -> io::Result<Metadata> {
        self.file.metadata()
    }

    fn set_len(&self, size: u64) -> io::Result<()> {
        self.file.set_len(size)
    }

    fn sync_all(&self) -> io::Result<()> {
        self.sync_data()
    }

    fn sync_data(&self) -> io::Result<()> {
        self.watch
            .syncs
            .set(self.watch.syncs.get().saturating_add(1));
        if self.watch.is_sync_failing.get() {
            return Err(io::Error::from(io::ErrorKind::Other));
        }
        self.file.sync_data()
    }
}

// A new file that holds these bytes.
fn file_of(rt: HostRuntime, path: &str, bytes: &[u8]) -> io::Result<File> {
    let mut options = File::options();
    options.read(true).write(true).create(true).truncate(true);
    let file = options.open(&rt, path)?;
    file.write_all_at(bytes, 0)?;
    Ok(file)
}

fn disk_over<F: FileExt + OpenFile + Drop>(alloc: Global, file: F) -> io::Result<FileDisk<F>> {
    match FileDisk::new(alloc, file) {
        Ok(disk) => Ok(disk),
        Err(_) => Err(io::Error::from(io::ErrorKind::OutOfMemory)),
    }
}

fn letter(answer: DiskAnswer) -> u8 {
    match answer {
        DiskAnswer::Done => b'.',
        DiskAnswer::Failed => b'!',
        DiskAnswer::Stopped => b'#',
        DiskAnswer::NoMemory => b'-',
    }
}

// A length from 256 on is a plus.
fn digit(len: DiskLen) -> u8 {
    match len {
        DiskLen::Len(len) => {
            match u8::try_from(len) {
                Ok(len) => b'0'.wrapping_add(len),
                Err(_) => b'+',
            }
        }
        DiskLen::Failed => b'!',
        DiskLen::Stopped => b'#',
    }
}

// Of a digit.
fn number(letter: u8) -> u64 {
    u64::from(letter.wrapping_sub(b'0'))
}

fn choice_of(letter: u8) -> Choice {
    match letter {
        b'o' => Choice::Old,
        b'n' => Choice::New,
        _ => Choice::Torn,
    }
}

// Whether a call answers so. The first letter is its answer, the next ones what it is: a write at a place, a sync, a cut, the length, or a stop
// that is armed behind so many calls, or disarmed.
fn answers<D: CrashDisk>(disk: &mut D, call: &[u8]) -> bool {
    match call {
        [told, b'w', at, piece @ ..] => letter(disk.write_at(number(*at), piece)) == *told,
        [told, b's'] => letter(disk.sync()) == *told,
        [told, b'c', choice] => letter(disk.power_cut(choice_of(*choice))) == *told,
        [told, b'l'] => digit(disk.len()) == *told,
        [b'.', b'a', calls] => {
            disk.arm(number(*calls));
            true
        }
        [b'.', b'd'] => {
            disk.disarm();
            true
        }
        _ => false,
    }
}

// Whether all calls answer so, one after the other.
fn all_answer<D: CrashDisk>(disk: &mut D, calls: &[u8]) -> bool {
    for call in calls.split(|byte| *byte == b' ') {
        if !answers(disk, call) {
            return false;
        }
    }
    true
}

fn byte_at(disk: &mut FileDisk<File>, at: u64) -> Option<u8> {
    let mut byte = [0];
    if disk.read_at(at, &mut byte) == DiskAnswer::Done {
        Some(byte[0])
    } else {
        None
    }
}

// What a cut leaves in the file.
fn left(rt: HostRuntime, path: &str, choice: u8, len: u64) -> io::Result<Option<Vec<u8>>> {
    let mut disk = disk_over(rt.alloc(), file_of(rt, path, b"")?)?;
    let is_right = is_cut(&mut disk, choice, len);
    drop(disk);
    image_at(rt, path, is_right)
}

// What the file holds, where all was right. It's removed.
fn image_at(rt: HostRuntime, path: &str, is_right: bool) -> io::Result<Option<Vec<u8>>> {
    let image = fs::read(&rt, path)?;
    fs::remove_file(&rt, path)?;
    Ok(if is_right { Some(image) } else { None })
}

// A write and a sync are taken back to what the last good sync kept.
fn is_cut(disk: &mut FileDisk<File>, choice: u8, len: u64) -> bool {
    all_answer(disk, b".w0abcd .s .w1xyz .a1 #w1XYZ #s .d .w6QR .w8S")
        && byte_at(disk, 6) == Some(b'Q')
        && byte_at(disk, 9).is_none()
        && answers(disk, &[b'.', b'c', choice])
        && disk.len() == DiskLen::Len(len)
}

fn is_image(image: io::Result<Option<Vec<u8>>>, want: &[u8]) -> bool {
    match image {
        Ok(Some(image)) => image.as_slice() == want,
        _ => false,
    }
}

#[test]
fn cuts_leave_old_new_or_torn_in_the_file(rt: HostRuntime) {
    let cases: [(u8, &str, &[u8]); 3] = [
        (b'o', "old.img", b"abcd"),
        (b'n', "new.img", b"aXYZ\0\0QRS"),
        (b't', "torn.img", b"abYd\0\0Q\0S"),
    ];
    for (choice, path, want) in cases {
        let image = left(rt, path, choice, want.len() as u64);
        assert!(rt; is_image(image, want));
    }
}

// Writes inside, over the end, behind the end, and of nothing behind the end, and then a cut.
const LENGTHS: [(&[u8], u64); 5] = [
    (b".w0x 3l", 3),
    (b".w2yz 4l", 4),
    (b".w6q 7l", 7),
    (b".w9 9l", 9),
    (b".co 3l", 3),
];

// Whether disk and file have this length behind each call.
fn have_lengths(rt: HostRuntime, disk: &mut FileDisk<File>, path: &str) -> io::Result<bool> {
    for (calls, len) in LENGTHS {
        if !all_answer(disk, calls) || fs::metadata(&rt, path)?.len() != len {
            return Ok(false);
        }
    }
    Ok(true)
}

fn cut_back(rt: HostRuntime, path: &str) -> io::Result<Option<Vec<u8>>> {
    let mut disk = disk_over(rt.alloc(), file_of(rt, path, b"abc")?)?;
    let is_right = have_lengths(rt, &mut disk, path);
    drop(disk);
    image_at(rt, path, is_right?)
}

#[test]
fn length_is_that_of_the_file(rt: HostRuntime) {
    assert!(rt; is_image(cut_back(rt, "length.img"), b"abc"));
}

// Calls over a watched file, and how many syncs it saw behind each. A sync that failed keeps what it would have to take back.
fn are_synced(watch: &Watch, disk: &mut FileDisk<Watched>) -> bool {
    let calls: [(bool, &[u8], u32); 5] = [
        (false, b".w0x", 0),
        (false, b".s", 1),
        (false, b".w1y", 1),
        (true, b"!s", 2),
        (false, b".co", 3),
    ];
    for (is_failing, call, syncs) in calls {
        watch.is_sync_failing.set(is_failing);
        if !answers(disk, call) || watch.syncs.get() != syncs {
            return false;
        }
    }
    true
}

// A write for which there is no room in its middle is taken back.
fn is_taken_back(watch: &Watch, disk: &mut FileDisk<Watched>) -> bool {
    watch.room.set(3);
    let has_failed = all_answer(disk, b"!w3WXYZ 6l");
    watch.room.set(usize::MAX);
    has_failed && all_answer(disk, b".co 4l")
}

// What is left in a watched file of `abcd`, which has no room in a write, or whose syncs are counted.
fn left_in(rt: HostRuntime, path: &str, is_full: bool) -> io::Result<Option<Vec<u8>>> {
    let watch = Watch::new();
    let file = file_of(rt, path, b"abcd")?;
    let mut disk = disk_over(
        rt.alloc(),
        Watched {
            file,
            watch: &watch,
        },
    )?;
    let is_right = if is_full {
        is_taken_back(&watch, &mut disk)
    } else {
        are_synced(&watch, &mut disk)
    };
    drop(disk);
    image_at(rt, path, is_right)
}

#[test]
fn syncs_reach_the_file(rt: HostRuntime) {
    assert!(rt; is_image(left_in(rt, "syncs.img", false), b"xbcd"));
    assert!(rt; is_image(left_in(rt, "failed.img", true), b"abcd"));
}

// All bytes of a disk in memory.
fn contents(alloc: Global, disk: &mut MemDisk) -> Result<Vec<u8>, AllocError> {
    let mut bytes = Vec::new(alloc);
    if let DiskLen::Len(len) = disk.len() {
        bytes.resize(len as usize, 0)?;
        disk.read_at(0, &mut bytes);
    }
    Ok(bytes)
}

fn holds(alloc: Global, disk: &mut MemDisk, want: &[u8]) -> bool {
    match contents(alloc, disk) {
        Ok(bytes) => bytes.as_slice() == want,
        Err(_) => false,
    }
}

// Whether the calls on a new disk in memory, of which these fail, answer so, and leave these bytes.
fn goes(alloc: Global, fails: &[u64], calls: &[u8], want: &[u8]) -> bool {
    let Ok(fails) = fails.to_vec(alloc) else {
        return false;
    };
    let Ok(mut disk) = MemDisk::new(alloc, fails) else {
        return false;
    };
    let is_right = all_answer(&mut disk, calls) && holds(alloc, &mut disk, want);
    drop(disk);
    is_right
}

#[test]
fn disks_in_memory(rt: HostRuntime) {
    let cases: [(&[u64], &[u8], &[u8]); 5] = [
        (&[], b".w0abc .a1 #s #l .co 0l", b""),
        (&[1, 3], b"!l .w0a !w0b", b"a"),
        (&[], b".w0abcd .s .w1xyz .w1XYZ .w6QR .co", b"abcd"),
        (&[], b".w0abcd .s .w1xyz .w1XYZ .w6QR .cn", b"aXYZ\0\0QR"),
        (&[], b".w0abcd .s .w1xyz .w1XYZ .w6QR .ct", b"abYd\0\0Q\0"),
    ];
    for (fails, calls, want) in cases {
        assert!(rt; goes(rt.alloc(), fails, calls, want));
    }
}
