// The pictures of the meeting: stripes with darker and lighter patches, moving to the right.
use crate::script::Field;
use format::raster::measures::BLOCK_LINE_LINES;

// The pels of a line of the bench raster.
pub const WIDTH: usize = 119;

// The pels of a block-line.
pub const BLOCK_LINE_PELS: usize = BLOCK_LINE_LINES * WIDTH;

// Lines of a field.
const FIELD_LINES: u8 = 8;

// How far the picture moves from frame to frame.
const STRIDE: u16 = 2;

// The stripes repeat after so many shades; patches are lighter by so much.
const SHADES: u16 = 120;

const DARKEST: i8 = -60;

const LIGHTER: i8 = 50;

// The pel of a frame at a row and a column.
fn shade(frame: u8, row: u8, column: u8) -> i8 {
    let x = u16::from(column) + STRIDE * u16::from(u8::MAX - frame);
    let y = u16::from(row);
    let stripe = ((5 * x + 3 * y) % SHADES) as i8 + DARKEST;
    if (x / 16 + y / 4) % 3 == 0 {
        stripe + LIGHTER
    } else {
        stripe
    }
}

// The pels of the block-line of a field, line after line.
pub fn paint(frame: u8, field: Field, pels: &mut [i8; BLOCK_LINE_PELS]) {
    let top = match field {
        Field::First => 0,
        Field::Second => FIELD_LINES,
    };
    for (row, line) in (top..top + FIELD_LINES).zip(pels.chunks_mut(WIDTH)) {
        for (column, pel) in (0..u8::MAX).zip(line) {
            *pel = shade(frame, row, column);
        }
    }
}
