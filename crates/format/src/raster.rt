// The raster: how many blocks a line has, and how many block-lines a field.
ghost use Rattle.std.specs.Prelude.{◌≤◌};

pub mod measures;

// A raster within its limits: 1 to 4 colour blocks, 1 to 24 luminance blocks, and 1 to 32 block-lines
// in each field.
#[derive(Clone, Copy, PartialEq, Eq, Debug)]
pub struct Raster {
    colour: usize,
    luminance: usize,
    block_lines: usize,
    ghost some_colour: { 1 ≤ colour },
    ghost colour_limit: { colour ≤ 4 },
    ghost some_luminance: { 1 ≤ luminance },
    ghost luminance_limit: { luminance ≤ 24 },
    ghost some_block_lines: { 1 ≤ block_lines },
    ghost block_lines_limit: { block_lines ≤ 32 },
}
