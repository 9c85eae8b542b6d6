// What forked names stand for.
ghost use Rattle.std.specs.Prelude.{◌≡◌, ◌≤◌, length, map, option_map, slice_get};
ghost use Rattle.kt_law.specs.declared.limits.TheConstants.{DEFINITIONS};
ghost use Rattle.kt_prog.specs.Targets.{kernel_named, target_of, task_named};
ghost use Rattle.kt_body.specs.Forking.{sort_of, target_in};

use kt_prog::{Kernel, Name, Program, Sort, Task};

/// A kernel, or a task or loop with its number.
#[derive(Clone, Copy)]
pub enum Target<'a> {
    Kernel(Kernel),
    Task(u32, &'a Task),
}

fn sort_in(sorts: &[Sort], i: usize) -> Option<Sort>
    ensures { result ≡ slice_get sorts.now i }
{
    if i < sorts.len() {
        Some(sorts[i])
    } else {
        None
    }
}

fn param_sort(task: &Task, i: usize) -> Option<Sort>
    ensures { result ≡ slice_get (map sort_of task.now.params) i }
{
    let params = task.params.as_slice();
    if i < params.len() {
        Some(params[i].sort)
    } else {
        None
    }
}

/// What parameter `i` of the target takes.
pub fn sort_at(target: &Target, i: usize) -> Option<Sort>
    ensures { result ≡ slice_get (target_in target.now).sorts i }
{
    match target {
        Target::Kernel(kernel) => sort_in(kernel.sorts(), i),
        Target::Task(_, task) => param_sort(task, i),
    }
}

/// The number of the target in a call.
pub fn number_of(target: &Target) -> u32
    ensures { result ≡ (target_in target.now).number }
{
    match target {
        Target::Kernel(kernel) => kernel.number(),
        Target::Task(number, _) => *number,
    }
}

fn task_at<'a>(tasks: &'a [Task], name: &Name) -> Option<Target<'a>>
    requires { length tasks.now ≤ DEFINITIONS }
    ensures { option_map target_in result ≡ task_named 1 tasks.now name.now }
{
    let mut number = 1;
    for task in tasks {
        if task.name.is(name) {
            return Some(Target::Task(number, task));
        }
        number += 1;
    }
    None
}

/// What a forked name stands for; a kernel goes before a task of its name.
pub fn target_at<'a>(program: &'a Program, name: &Name) -> Option<Target<'a>>
    requires { length program.now.tasks ≤ DEFINITIONS }
    ensures { option_map target_in result ≡ target_of program.now.tasks name.now }
{
    match Kernel::named(name) {
        Some(kernel) => Some(Target::Kernel(kernel)),
        None => task_at(program.tasks.as_slice(), name),
    }
}
