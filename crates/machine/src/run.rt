// The state of a run.
ghost use Rattle.std.specs.Prelude.{◌^◌, ◌<◌, ◌≤◌, length};

use crate::cell::CELLS;
use crate::fault::Fault;
pub use crate::stack::Stack;
use image::admitted::Image;

// What an advance works on a copy of: beside Memory, so that counter and steps stay in registers. Worked on in the run, a
// step took 30 and not 22 instructions of the processor.
#[derive(Clone, Copy)]
pub struct Core {
    pub(crate) counter: usize,
    pub(crate) steps: u64,
    pub(crate) fault: Option<Fault>,
    ghost counted: { 1 ≤ counter },
}

// What the instructions work on.
#[derive(Drop)]
pub struct Memory<U, I, O> {
    pub(crate) unit: U,
    pub(crate) input: I,
    pub(crate) output: O,
    pub(crate) cells: [Option<i32>; CELLS],
    pub(crate) stack: Stack,
    ghost stacked: { length stack ≤ 68 },
}

#[derive(Drop)]
pub struct Run<'a, U, I, O> {
    pub(crate) image: &'a Image,
    pub(crate) lid: u64,
    pub(crate) core: Core,
    pub(crate) memory: Memory<U, I, O>,
    ghost lidded: { core.steps ≤ lid },
    ghost wide: { lid < 2 ^ 64 },
}
