// Where a body stands.

use crate::measured::Measured;

/// The program of a body, whether the body is main's, and the length of its call's path.
#[derive(Clone, Copy)]
pub struct Scene<'a> {
    pub program: &'a Measured<'a>,
    pub in_main: bool,
    pub depth: u32,
}
