// The buffers of the kernels.

use kt_law::{NoMemory, WIDTH};
use std::alloc::Global;

/// Numbers of a tile: as many as an object has elements at most.
pub const TILE: usize = WIDTH as usize;

/// Numbers of two tiles that are loaded and of one that is made of them.
pub const ROOM: usize = 3 * TILE;

/// The three tiles, one behind another.
#[derive(Drop)]
pub struct Buffers {
    pub numbers: [u64; ROOM],
}

/// The buffers of all kernels of a run, made once.
#[derive(Drop)]
pub struct Tiles {
    pub(crate) buffers: Box<Buffers>,
}

impl Tiles {
    /// Tiles with any numbers in them.
    pub fn new(alloc: Global) -> Result<Tiles, NoMemory> {
        let buffers = Box::new(alloc, Buffers { numbers: [0; ROOM] })?;
        Ok(Tiles { buffers })
    }
}
