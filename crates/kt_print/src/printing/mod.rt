// The canonical text of a program.
ghost use Rattle.std.specs.Prelude.{◌≡◌, IfOk};
ghost use Rattle.kt_print.specs.CanonicalText.{canonical_text};

mod declarations;
mod expressions;
mod operators;
mod statements;
#[cfg(test)]
mod tests;

use declarations::{push_families, push_mains, push_tasks};
use kt_law::NoMemory;
use kt_prog::Program;
use std::alloc::Global;

/// The canonical text of any program, whether it is accepted or not, up to and with the line of the word `data`.
pub fn print_program(alloc: Global, program: &Program) -> Result<Vec<u8>, NoMemory>
    ensures { IfOk result (λ text. text.items ≡ canonical_text program.now) }
{
    let mut text = String::new(alloc);
    push_families(&mut text, program.families.as_slice())?;
    push_tasks(&mut text, program.tasks.as_slice())?;
    push_mains(&mut text, program.mains.as_slice())?;
    text.push_str("data\n")?;
    Ok(text.into_bytes())
}
