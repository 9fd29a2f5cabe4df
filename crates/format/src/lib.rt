// The form of what the decoder is given: the raster, the frame header, the record of a block-line, and
// the refusals of what does not keep to that form.
#![tactic(auto)]

pub mod bits;
mod front;
pub mod header;
pub mod modes;
mod order;
mod packing;
pub mod raster;
pub mod reader;
mod record;
pub mod refusal;
#[cfg(test)]
mod tests;
pub mod words;
pub mod writer;

pub use front::usable::usable_front;
