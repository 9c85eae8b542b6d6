// The calls of a kernel, and their time.
ghost use Rattle.std.specs.Prelude.{◌≤◌};

use crate::requests::{Kernel, Request};
use kt_kernels::{minplus, mul, scan, stencil};
use std::io;
use std::rt::Clock;
use std::time::Instant;

const SIDE: usize = 64;

const ROOM: usize = SIDE * SIDE;

/// Two tiles or rows to read, and one to write.
#[derive(Drop)]
pub struct Tiles {
    a: [u64; ROOM],
    b: [u64; ROOM],
    out: [u64; ROOM],
}

impl Tiles {
    /// With numbers of many sizes, the same at each start.
    pub fn new() -> Tiles {
        let mut tiles = Tiles {
            a: [0; ROOM],
            b: [0; ROOM],
            out: [0; ROOM],
        };
        for i in 0..ROOM {
            let seed = i as u64;
            tiles.a[i] = seed.wrapping_mul(0x9E37_79B9_7F4A_7C15);
            tiles.b[i] = seed.wrapping_add(77).wrapping_mul(0xC2B2_AE3D_27D4_EB4F)
                >> (i as u32 % 5 * 8);
        }
        tiles
    }

    /// The nanoseconds of the fastest run.
    pub fn fastest(&mut self, rt: &impl Clock, request: &Request) -> io::Result<u64> {
        let mut fastest = u64::MAX;
        for _ in 0..request.runs {
            let start = Instant::now(rt)?;
            for _ in 0..request.calls {
                self.call(request.kernel, request.size);
            }
            let nanoseconds = u64::from(start.elapsed(rt)?.subsec_nanos());
            fastest = fastest.min(nanoseconds);
        }
        Ok(fastest)
    }

    /// One call. What it wrote changes what the next one reads, so that no call can be left out.
    fn call(&mut self, kernel: Kernel, size: usize) {
        match kernel {
            Kernel::Mul => self.multiply(size.min(SIDE)),
            Kernel::Minplus => self.find_least(size.min(SIDE)),
            Kernel::Stencil => self.weight(size.min(ROOM)),
            Kernel::Scan => {
                let row = &mut self.a[..];
                scan(1, &mut row[..size.min(ROOM)]);
            }
        }
    }

    fn multiply(&mut self, side: usize)
        requires { side ≤ SIDE }
    {
        let room = side * side;
        let out = &mut self.out[..];
        mul(
            side,
            side,
            side,
            &self.a[..room],
            &self.b[..room],
            &mut out[..room],
        );
        self.a[0] ^= self.out[1];
    }

    fn find_least(&mut self, side: usize)
        requires { side ≤ SIDE }
    {
        let room = side * side;
        let out = &mut self.out[..];
        minplus(
            side,
            side,
            side,
            &self.a[..room],
            &self.b[..room],
            &mut out[..room],
        );
        self.a[0] ^= self.out[1];
    }

    fn weight(&mut self, length: usize)
        requires { length ≤ ROOM }
    {
        let out = &mut self.out[..];
        stencil(self.b[0], &self.a[..length], self.b[1], &mut out[..length]);
        self.a[0] ^= self.out[1];
    }

    /// The sum of the numbers that the kernel wrote, modulo 2^64.
    pub fn written(&self, kernel: Kernel) -> u64 {
        let numbers = match kernel {
            Kernel::Scan => &self.a,
            Kernel::Mul | Kernel::Minplus | Kernel::Stencil => &self.out,
        };
        let mut sum = 0u64;
        for number in numbers {
            sum = sum.wrapping_add(*number);
        }
        sum
    }
}
