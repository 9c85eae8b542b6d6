// Whole programs.
ghost use Rattle.std.specs.Prelude.{◌≡◌, OnOk};
ghost use Rattle.kt_tokens.specs.Reading.{any, Answers};
ghost use Rattle.kt_read.specs.ProgramParts.{added, nothing};
ghost use Rattle.kt_read.specs.Programs.{ReadsProgram};

use crate::reader::declarations::{Declared, declaration};
use kt_prog::{Family, Main, Program, Task};
use kt_tokens::{Mark, Source, Unread};
use sqlite_items::Items;
use std::alloc::{AllocError, Global};

/// What has been declared so far.
#[derive(Debug, Drop)]
pub struct Gathered {
    families: Items<Family>,
    tasks: Items<Task>,
    mains: Items<Main>,
}

impl Gathered {
    fn new(alloc: Global) -> Self
        ensures { result ≡ nothing }
    {
        Gathered {
            families: Items::new(alloc),
            tasks: Items::new(alloc),
            mains: Items::new(alloc),
        }
    }

    fn add(&mut self, declared: Declared) -> Result<(), AllocError>
        ensures { OnOk result (self.new ≡ added self.old declared) }
    {
        match declared {
            Declared::Family(family) => self.families.push(family),
            Declared::Task(task) => self.tasks.push(task),
            Declared::Main(main) => self.mains.push(main),
        }
    }
}

/// `{ object | task | loop | main } "data"`
pub(crate) fn program(alloc: Global, source: &mut Source<'_>) -> Result<Program, Unread>
    ensures { Answers ReadsProgram any source.old source.new result }
{
    let mut gathered = Gathered::new(alloc);
    let mut stmts = Vec::new(alloc);
    'each: while !source.is(Mark::Data) {
        let next = declaration(alloc, source, &mut stmts)?;
        gathered.add(next)?;
    }
    let end = source.expect(Mark::Data)?;
    Ok(Program {
        families: gathered.families,
        tasks: gathered.tasks,
        mains: gathered.mains,
        end,
    })
}
