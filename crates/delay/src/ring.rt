// A delay memory in one lent slice.
pub mod memory;

ghost use Rattle.std.specs.Prelude.{◌≤◌, length};

// The cells are written in turn, from the first to the last and then from the first again.
#[derive(Drop)]
pub struct Ring<'a, T> {
    cells: &'a mut [T],
    // the cell to be written next, that of the oldest element; past the last it is the first again
    next: usize,
    ghost within: { next ≤ length cells.now },
}
