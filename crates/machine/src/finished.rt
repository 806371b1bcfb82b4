// What a finished run gives back.
use crate::cell::CELLS;
use crate::fault::Fault;
use crate::status::Status;

#[derive(Drop)]
pub struct Finished<U, I, O> {
    pub unit: U,
    pub input: I,
    pub output: O,
    pub cells: [Option<i32>; CELLS],
    pub steps: u64,
    pub status: Status,
    pub fault: Option<Fault>,
}
