// What the program can be asked for.

/// The kinds of generated jobs.
#[derive(Clone, Copy, Debug, PartialEq, Eq)]
pub enum Kind {
    /// A product of matrices by tiles.
    Mul,
    /// Least walks between the nodes of a graph.
    Walks,
    /// Two buffers that are smoothed in turns.
    Stencil,
    /// Sums of all elements before.
    Scan,
}

/// The forms of the program's words.
#[derive(Clone, Copy, Debug, PartialEq, Eq)]
pub enum Command {
    /// Read and check the program.
    Check,
    /// Run the job on one thread.
    Seq,
    /// Run the job by events, with this many workers and this choice of the events.
    Sim(u32, u64),
    /// Run the job with this many workers.
    Run(u32),
    /// Write the generated job of this kind, size and number.
    Gen(Kind, u32, u64),
    /// Run the generated job of this kind, size and number with this many workers.
    Demo(Kind, u32, u64, u32),
}

/// Words of none of these forms.
#[derive(Clone, Copy, Debug, PartialEq, Eq)]
pub struct Usage;
