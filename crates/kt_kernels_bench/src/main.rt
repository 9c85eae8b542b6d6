//! Calls the kernels often, so that `bench/kernels.py` can time them beside plain loops of C.
//!
//! A line of the input has the name of a kernel, the rows of its tiles or the length of its row, how many calls
//! make a run, and how many runs there are. The answer has the sum of what the last call wrote; with the word
//! `time` behind the line also the nanoseconds of the fastest run.
#![tactic(auto)]

mod requests;
mod runs;

use requests::Request;
use runs::Tiles;
use std::io;

fn main(rt: HostRuntime) -> io::Result<()> {
    for line in rt.lines(rt.alloc()) {
        let line = line?;
        match Request::parse(line.as_str()) {
            None => println!(rt; "cannot read: {line}")?,
            Some(request) => {
                let mut tiles = Tiles::new();
                let fastest = tiles.fastest(&rt, &request)?;
                let sum = tiles.written(request.kernel);
                if request.is_timed {
                    println!(rt; "{} {} {sum} {fastest}", request.kernel, request.size)?;
                } else {
                    println!(rt; "{} {} {sum}", request.kernel, request.size)?;
                }
            }
        }
    }
    Ok(())
}
