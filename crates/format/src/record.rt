// A record of the right length. The reader of a record makes one once the length has passed.
ghost use Rattle.std.specs.Prelude.{◌≡◌, length};
ghost use Rattle.format.specs.Raster.{record_length};

use crate::raster::Raster;

pub(crate) mod parts;
mod usable;

// The bytes of a record, as many as the raster's layout has.
#[derive(Clone, Copy)]
pub struct Record<'a> {
    raster: Raster,
    bytes: &'a [u8],
    ghost whole: { length bytes.now ≡ record_length raster },
}
