// The text of declarations.
ghost use Rattle.std.specs.Prelude.{◌≡◌, ◌++◌, OnOk, codes, map, string_bytes};
ghost use Rattle.std.specs.List.{flat_map};
ghost use Rattle.kt_print.specs.CanonicalText.{body_text, family_text, main_text, members_text, mode_text, param_text, params_text, size_text, sort_text, task_head, task_text, where_set};
ghost use Rattle.kt_print.specs.CanonicalWords.{listed};

use super::operators::word;
use super::statements::{push_block, push_end};
use kt_law::Mode;
use kt_prog::{Family, Index, Main, Name, Param, Sort, Stmt, Task};
use std::alloc::AllocError;

pub fn push_families(text: &mut String, families: &[Family]) -> Result<(), AllocError>
    ensures { OnOk result (string_bytes text.new
        ≡ string_bytes text.old ++ flat_map family_text families.now) }
{
    for family in families {
        push_family(text, family)?;
    }
    Ok(())
}

fn push_family(text: &mut String, family: &Family) -> Result<(), AllocError>
    ensures { OnOk result (string_bytes text.new
        ≡ string_bytes text.old ++ family_text family.now) }
{
    let name = family.name.as_str();
    write!(text, "object {name}")?;
    push_members(text, family)?;
    push_size(text, family)?;
    text.push('\n')
}

/// Adds ` of 3 input output;`.
fn push_size(text: &mut String, family: &Family) -> Result<(), AllocError>
    ensures { OnOk result (string_bytes text.new ≡ string_bytes text.old ++ size_text family.now) }
{
    let elements = family.elements;
    write!(text, " of {elements}")?;
    push_where(text, family.input, " input")?;
    push_where(text, family.output, " output")?;
    text.push(';')
}

/// Adds the number of members of a range.
fn push_members(text: &mut String, family: &Family) -> Result<(), AllocError>
    ensures { OnOk result (string_bytes text.new
        ≡ string_bytes text.old ++ members_text family.now) }
{
    if !family.many {
        return Ok(());
    }
    let members = family.members;
    write!(text, "[{members}]")
}

/// Adds a word that may be missing.
fn push_where(text: &mut String, there: bool, word: &str) -> Result<(), AllocError>
    ensures { OnOk result (string_bytes text.new
        ≡ string_bytes text.old ++ where_set there word.now) }
{
    if there { text.push_str(word) } else { Ok(()) }
}

fn push_mode(text: &mut String, mode: Mode) -> Result<(), AllocError>
    ensures { OnOk result (string_bytes text.new ≡ string_bytes text.old ++ mode_text mode) }
{
    match mode {
        Mode::R => text.push('r'),
        Mode::W => text.push('w'),
        Mode::X => text.push('x'),
        Mode::Cw(op) => {
            let word = word(op);
            write!(text, "cw({word})")
        }
        Mode::Rp => text.push_str("rp"),
        Mode::Wp => text.push_str("wp"),
        Mode::Xp => text.push_str("xp"),
        Mode::Cwp(op) => {
            let word = word(op);
            write!(text, "cwp({word})")
        }
    }
}

fn push_param(text: &mut String, param: &Param) -> Result<(), AllocError>
    ensures { OnOk result (string_bytes text.new ≡ string_bytes text.old ++ param_text param.now) }
{
    let name = param.name.as_str();
    match param.sort {
        Sort::Int => write!(text, "int {name}"),
        Sort::One(mode) => {
            push_mode(text, mode)?;
            write!(text, " {name}")
        }
        Sort::Many(mode) => {
            push_mode(text, mode)?;
            write!(text, " {name}[]")
        }
    }
}

/// Adds the parameters, the first behind `lead` and the others each behind a comma.
fn push_params(text: &mut String, lead: &str, params: &[Param]) -> Result<(), AllocError>
    ensures { OnOk result (string_bytes text.new
        ≡ string_bytes text.old ++ params_text lead.now params.now) }
{
    let mut before = lead;
    for param in params {
        text.push_str(before)?;
        push_param(text, param)?;
        before = ", ";
    }
    Ok(())
}

/// Adds a task or a loop up to its last parameter.
fn push_head(
    text: &mut String,
    index: &Option<Index>,
    name: &Name,
    params: &[Param],
) -> Result<(), AllocError>
    ensures { OnOk result (string_bytes text.new
        ≡ string_bytes text.old ++ task_head index.now name.now params.now) }
{
    let name = name.as_str();
    match index {
        None => {
            write!(text, "task {name}(")?;
            push_params(text, "", params)
        }
        Some(index) => {
            let index = index.name.as_str();
            write!(text, "loop {name}({index};")?;
            push_params(text, " ", params)
        }
    }
}

pub fn push_tasks(text: &mut String, tasks: &[Task]) -> Result<(), AllocError>
    ensures { OnOk result (string_bytes text.new
        ≡ string_bytes text.old ++ flat_map task_text tasks.now) }
{
    for task in tasks {
        push_task(text, task)?;
    }
    Ok(())
}

fn push_task(text: &mut String, task: &Task) -> Result<(), AllocError>
    ensures { OnOk result (string_bytes text.new ≡ string_bytes text.old ++ task_text task.now) }
{
    push_head(text, &task.index, &task.name, task.params.as_slice())?;
    text.push_str(") {\n")?;
    push_block(text, 0, task.body.as_slice())?;
    push_end(text, 0)
}

pub fn push_mains(text: &mut String, mains: &[Main]) -> Result<(), AllocError>
    ensures { OnOk result (string_bytes text.new
        ≡ string_bytes text.old ++ flat_map main_text mains.now) }
{
    for main in mains {
        push_main(text, main)?;
    }
    Ok(())
}

fn push_main(text: &mut String, main: &Main) -> Result<(), AllocError>
    ensures { OnOk result (string_bytes text.new ≡ string_bytes text.old ++ main_text main.now) }
{
    text.push_str("main {\n")?;
    push_block(text, 0, main.body.as_slice())?;
    push_end(text, 0)
}
