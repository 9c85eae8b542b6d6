// What a line of the input asks for.
use std::fmt;

#[derive(Clone, Copy)]
pub enum Kernel {
    Mul,
    Minplus,
    Stencil,
    Scan,
}

impl fmt::Display for Kernel {
    fn fmt<W: fmt::Write>(&self, f: &mut fmt::Formatter<W>) -> fmt::Result {
        f.write_str(match self {
            Kernel::Mul => "mul",
            Kernel::Minplus => "minplus",
            Kernel::Stencil => "stencil",
            Kernel::Scan => "scan",
        })
    }
}

#[derive(Clone, Copy)]
pub struct Request {
    pub kernel: Kernel,
    /// Rows and columns of a tile, at most 64, or elements of a row, at most 4,096.
    pub size: usize,
    pub calls: u32,
    pub runs: u32,
    pub is_timed: bool,
}

impl Request {
    /// None where the line is no request.
    pub fn parse(line: &str) -> Option<Request> {
        let mut words = line.split_whitespace();
        let kernel = match words.next()? {
            "mul" => Kernel::Mul,
            "minplus" => Kernel::Minplus,
            "stencil" => Kernel::Stencil,
            "scan" => Kernel::Scan,
            _ => return None,
        };
        Some(Request {
            kernel,
            size: words.next()?.parse().ok()?,
            calls: words.next()?.parse().ok()?,
            runs: words.next()?.parse().ok()?,
            is_timed: words.next() == Some("time"),
        })
    }
}
