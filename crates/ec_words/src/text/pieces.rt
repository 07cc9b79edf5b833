// Bytes, names, paths, numbers and clerks, each put behind what is written.
ghost use Rattle.std.specs.Prelude.{◌≡◌, ◌<◌, ◌++◌, OnOk};
ghost use Rattle.std.specs.Fmt.{decimal};
ghost use Rattle.ec_words.specs.OfText.Pieces.{escaped, escaped_byte, hex_digit, step_text, path_text, octal, clerk_text, next_number, numbers_text};

use ec_base::{ClerkId, NoMemory, OpNo, Path};
use itoa::Buffer;

pub(crate) fn push_text(out: &mut Vec<u8>, text: &[u8]) -> Result<(), NoMemory>
    ensures { OnOk result (out.new.items ≡ out.old.items ++ text.now) }
{
    out.extend_from_slice(text)?;
    Ok(())
}

pub(crate) fn push_number(out: &mut Vec<u8>, number: u64) -> Result<(), NoMemory>
    ensures { OnOk result (out.new.items ≡ out.old.items ++ decimal number) }
{
    let mut buffer = Buffer::new();
    push_text(out, buffer.format(number).as_bytes())
}

pub(crate) fn push_clerk(out: &mut Vec<u8>, clerk: ClerkId) -> Result<(), NoMemory>
    ensures { OnOk result (out.new.items ≡ out.old.items ++ clerk_text clerk) }
{
    out.push(b'A' + clerk.get())?;
    Ok(())
}

pub(crate) fn push_escaped(out: &mut Vec<u8>, bytes: &[u8]) -> Result<(), NoMemory>
    ensures { OnOk result (out.new.items ≡ out.old.items ++ escaped bytes.now) }
{
    for byte in bytes {
        push_byte(out, *byte)?;
    }
    Ok(())
}

fn push_byte(out: &mut Vec<u8>, byte: u8) -> Result<(), NoMemory>
    ensures { OnOk result (out.new.items ≡ out.old.items ++ escaped_byte byte) }
{
    if 0x21 <= byte && byte <= 0x7e && byte != b'%' {
        out.push(byte)?;
    } else {
        out.extend_from_slice(&[b'%', hex_digit(byte / 16), hex_digit(byte % 16)])?;
    }
    Ok(())
}

fn hex_digit(n: u8) -> u8
    requires { n < 16 }
    ensures { result ≡ hex_digit n }
{
    if n < 10 { b'0' + n } else { b'A' - 10 + n }
}

pub(crate) fn push_path(out: &mut Vec<u8>, path: &Path) -> Result<(), NoMemory>
    ensures { OnOk result (out.new.items ≡ out.old.items ++ path_text path.now) }
{
    let names = path.names();
    if names.is_empty() {
        return push_text(out, b"/");
    }
    for name in names {
        push_step(out, name.bytes())?;
    }
    Ok(())
}

fn push_step(out: &mut Vec<u8>, name: &[u8]) -> Result<(), NoMemory>
    ensures { OnOk result (out.new.items ≡ out.old.items ++ step_text name.now) }
{
    push_text(out, b"/")?;
    push_escaped(out, name)
}

/// Four octal digits.
pub(crate) fn push_octal(out: &mut Vec<u8>, mode: u16) -> Result<(), NoMemory>
    ensures { OnOk result (out.new.items ≡ out.old.items ++ octal mode) }
{
    let digits = [
        b'0' + (mode / 512 % 8) as u8,
        b'0' + (mode / 64 % 8) as u8,
        b'0' + (mode / 8 % 8) as u8,
        b'0' + (mode % 8) as u8,
    ];
    push_text(out, &digits)
}

pub(crate) fn push_numbers(out: &mut Vec<u8>, numbers: &[OpNo]) -> Result<(), NoMemory>
    ensures { OnOk result (out.new.items ≡ out.old.items ++ numbers_text numbers.now) }
{
    let [first, rest @ ..] = numbers else {
        return push_text(out, b"-");
    };
    push_number(out, first.0)?;
    for number in rest {
        push_next(out, *number)?;
    }
    Ok(())
}

fn push_next(out: &mut Vec<u8>, number: OpNo) -> Result<(), NoMemory>
    ensures { OnOk result (out.new.items ≡ out.old.items ++ next_number number) }
{
    push_text(out, b" ")?;
    push_number(out, number.0)
}
