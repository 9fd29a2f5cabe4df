// The front of a record, its head and its block words. It is looked at before levels are, or without them.
ghost use Rattle.std.specs.Prelude.{◌≤◌, length};
ghost use Rattle.format.specs.Front.{front_length};

use crate::raster::Raster;

pub(crate) mod parts;
pub mod usable;

// Bytes that begin with a front, as the raster's layout has it.
#[derive(Clone, Copy)]
pub struct Front<'a> {
    raster: Raster,
    bytes: &'a [u8],
    ghost room: { front_length raster ≤ length bytes.now },
}
