// The reader of a block-line's record: it stands over the caller's bytes, whatever their length.
use crate::raster::Raster;

pub mod parts;

// The bytes of a record, and the raster whose layout they should have. Bytes of another length than the
// layout's have no parts.
#[derive(Clone, Copy)]
pub struct RecordReader<'a> {
    raster: Raster,
    bytes: &'a [u8],
}
