// Whole scripts.
ghost use Rattle.std.specs.Prelude.{◌≡◌, IfOk};
ghost use Rattle.ec_script.specs.OfGenerator.Generator.{script_of};

use crate::generator::draws::Draws;
use crate::generator::line::push_line;
use ec_base::NoMemory;
use std::alloc::Global;

/// The script of this number, of so many lines, each of which calls one of the clerks `A` to `D`.
pub fn script(alloc: Global, number: u32, lines: u32) -> Result<Vec<u8>, NoMemory>
    ensures { IfOk result (λ script. script.items ≡ script_of number lines) }
{
    let mut out = Vec::new(alloc);
    let mut draws = Draws::of(number);
    for before in 0..lines {
        push_line(&mut out, &mut draws, before + 1)?;
    }
    Ok(out)
}
