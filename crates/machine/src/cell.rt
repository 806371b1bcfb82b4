// The cells of a run.
ghost use Rattle.std.specs.Prelude.{◌≡◌, ◌-◌, ◌<◌, true};
ghost use Rattle.image.specs.Bounds.{cell_exists};

pub(crate) const CELLS: usize = 64;

// A cell that exists. Cells count from 1.
#[derive(Clone, Copy)]
pub(crate) struct Cell {
    pub(crate) number: u16,
    ghost exists: { cell_exists number ≡ true },
}

impl Cell {
    // Its place among the cells.
    pub(crate) fn index(self) -> usize
        ensures value { result ≡ self.number - 1 }
        ensures inside { result < CELLS }
    {
        usize::from(self.number) - 1
    }
}
