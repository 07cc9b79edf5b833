// The lines of a script, each put behind what is written.
ghost use Rattle.std.specs.Prelude.{◌≡◌, ◌-◌, ◌++◌, OnOk};
ghost use Rattle.std.specs.Fmt.{decimal};
ghost use Rattle.ec_script.specs.OfGenerator.Generator.{clerk_text, dir_text, file_text, call_text, line_text, draws_of, drawn, state_after};

use crate::generator::draws::Draws;
use ec_base::NoMemory;
use itoa::Buffer;

/// Writes the line of this number, counted from 1, with the numbers that it draws.
pub(crate) fn push_line(out: &mut Vec<u8>, draws: &mut Draws, line: u32) -> Result<(), NoMemory>
    ensures text { OnOk result (out.new.items ≡ out.old.items ++ line_text line (drawn (state_after 1 draws.old.state)) (drawn (state_after 2 draws.old.state)) (drawn (state_after 3 draws.old.state)) (drawn (state_after 4 draws.old.state))) }
    ensures draws { OnOk result (draws.new.state ≡ state_after (draws_of line) draws.old.state) }
{
    let clerk = draws.draw();
    let dir = draws.draw();
    let file = draws.draw();
    push_clerk(out, clerk)?;
    push_text(out, b" ")?;
    push_call(out, draws, line, dir, file)?;
    push_text(out, b"\n")
}

// Writes the call of a line, and draws a fourth number where it needs one.
fn push_call(
    out: &mut Vec<u8>,
    draws: &mut Draws,
    line: u32,
    dir: u64,
    file: u64,
) -> Result<(), NoMemory>
    ensures text { OnOk result (out.new.items ≡ out.old.items ++ call_text line dir file (drawn (state_after 1 draws.old.state))) }
    ensures draws { OnOk result (draws.new.state ≡ state_after (draws_of line - 3) draws.old.state) }
{
    match line % 8 {
        0 => push_dir(out, b"list ", dir),
        1 => push_dir(out, b"mkdir ", dir),
        2 => push_file(out, b"create ", dir, file),
        3 => {
            push_file(out, b"write ", dir, file)?;
            push_number(out, b" ", draws.draw() % 64)?;
            push_number(out, b" ", line as u64)
        }
        4 => {
            push_file(out, b"read ", dir, file)?;
            push_text(out, b" 0 64")
        }
        5 => {
            push_file(out, b"rename ", dir, file)?;
            push_file(out, b" ", dir, draws.draw())
        }
        6 => push_file(out, b"stat ", dir, file),
        _ => push_file(out, b"fsync ", dir, file),
    }
}

fn push_text(out: &mut Vec<u8>, text: &[u8]) -> Result<(), NoMemory>
    ensures { OnOk result (out.new.items ≡ out.old.items ++ text.now) }
{
    out.extend_from_slice(text)?;
    Ok(())
}

fn push_number(out: &mut Vec<u8>, front: &[u8], number: u64) -> Result<(), NoMemory>
    ensures { OnOk result (out.new.items ≡ out.old.items ++ front.now ++ decimal number) }
{
    push_text(out, front)?;
    let mut buffer = Buffer::new();
    push_text(out, buffer.format(number).as_bytes())
}

fn push_clerk(out: &mut Vec<u8>, number: u64) -> Result<(), NoMemory>
    ensures { OnOk result (out.new.items ≡ out.old.items ++ clerk_text number) }
{
    out.push(b'A' + (number % 4) as u8)?;
    Ok(())
}

fn push_dir(out: &mut Vec<u8>, front: &[u8], number: u64) -> Result<(), NoMemory>
    ensures { OnOk result (out.new.items ≡ out.old.items ++ front.now ++ dir_text number) }
{
    push_text(out, front)?;
    push_number(out, b"/d", number % 8)
}

fn push_file(out: &mut Vec<u8>, front: &[u8], dir: u64, number: u64) -> Result<(), NoMemory>
    ensures { OnOk result (out.new.items ≡ out.old.items ++ front.now ++ file_text dir number) }
{
    push_dir(out, front, dir)?;
    push_number(out, b"/f", number % 16)
}
