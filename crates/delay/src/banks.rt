// A delay memory of pels in four lent slices.
pub mod memory;

ghost use Rattle.std.specs.Prelude.{◌*◌, ◌≤◌, length};
ghost use Rattle.delay.specs.Woven.{most_rows};

// The banks take pels in turn, a row of all four and then the next row, and after the last row the first again.
#[derive(Drop)]
pub struct Banks<'a> {
    first: &'a mut [i8],
    second: &'a mut [i8],
    third: &'a mut [i8],
    fourth: &'a mut [i8],
    // how many cells of each bank are used
    rows: usize,
    // the place to be written next, that of the oldest pel; past the last it is the first again
    next: usize,
    ghost firsts: { rows ≤ length first.now },
    ghost seconds: { rows ≤ length second.now },
    ghost thirds: { rows ≤ length third.now },
    ghost fourths: { rows ≤ length fourth.now },
    ghost few: { rows ≤ most_rows },
    ghost within: { next ≤ rows * 4 },
}
