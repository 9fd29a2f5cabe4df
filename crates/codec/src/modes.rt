// What holds for a frame, a line and a block while their pels are worked.
ghost use Rattle.std.specs.Prelude.{◌≡◌, ◌≤◌};
ghost use Rattle.quantizer.specs.Choice.{chosen};

use format::header::Header;
use format::raster::Raster;
use format::raster::measures::{MOST_COLOUR_BLOCKS, MOST_LUMINANCE_BLOCKS};
use format::words::Head;
use prediction::marks::{Around, BackgroundControl};
use quantizer::characteristic::Characteristic;

// The lengths that delays are made of, in pels: a line, a frame, the near and the far line of a
// repeated pel, and the last pel of a line that is burst or colour.
#[derive(Clone, Copy)]
pub struct Geometry {
    pub width: usize,
    pub frame: usize,
    pub near: usize,
    pub far: usize,
    pub colour: usize,
}

// What holds for a whole frame: the lengths of its raster, and what its header says of the background.
#[derive(Clone, Copy)]
pub(crate) struct FrameModes {
    pub g: Geometry,
    pub control: BackgroundControl,
    ghost narrow: { g.width ≤ 455 },
    ghost colours: { g.colour ≤ 455 },
    ghost bounded: { g.frame ≤ 238875 },
}

// The line above the one in work: a reset line, which is in picture and background already, or a line
// that is still pending, forced or not.
#[derive(Clone, Copy, PartialEq, Eq, Debug)]
pub enum Above {
    Reset,
    Pending { forced: bool },
}

// One of the 8 lines of a block-line.
#[derive(Clone, Copy)]
pub struct LineModes {
    pub number: usize,
    pub forced: bool,
    pub repeated: bool,
    pub second: bool,
    pub above: Above,
}

// A line in work: what holds for its frame, and for itself.
#[derive(Clone, Copy)]
pub(crate) struct LineWork {
    pub frame: FrameModes,
    pub modes: LineModes,
}

// A block of the block-line in work: whether it is subsampled, and the delay of its vector.
#[derive(Clone, Copy)]
pub struct BlockModes {
    pub subsampled: bool,
    pub delay: usize,
}

// The burst has no vector and is never subsampled.
pub const BURST: BlockModes = BlockModes {
    subsampled: false,
    delay: 0,
};

// No line has more blocks, the burst among them.
pub(crate) const MOST_BLOCKS: usize = 1 + MOST_COLOUR_BLOCKS + MOST_LUMINANCE_BLOCKS;

// A block-line in work: the set and its head, which chooses a characteristic, what holds for its frame, and
// of what its lines and blocks have their modes.
#[derive(Drop)]
pub(crate) struct BlockLine<'a, S> {
    pub set: &'a S,
    pub raster: Raster,
    pub header: Header,
    pub head: Head,
    pub characteristic: Characteristic,
    pub second: bool,
    pub above: Above,
    pub frame: FrameModes,
    pub blocks: [BlockModes; MOST_BLOCKS],
    ghost chooses: { characteristic ≡ chosen head.qc1 head.qc2 },
}

// How a pel is worked.
#[derive(Clone, Copy, PartialEq, Eq, Debug)]
pub enum PelMode {
    Clamped,
    Repeated,
    Subsampled,
    Forced,
    Burst,
    Adaptive,
}

// What a pel reads, by how it is worked. A clamped or repeated pel is there with what it reads, and one that
// subsampling omits reads nothing. A forced pel reads I, a burst pel Y a frame before, and any other coded pel
// all that is around it.
#[derive(Clone, Copy)]
pub enum Reading {
    Uncoded(i8),
    Omitted,
    Intraframe(i8),
    FrameBefore(i8),
    Surroundings(Around),
}

// What has been counted of a frame so far: the planes of its pels, each bit the parity of the ones in
// that plane, and its held pels.
#[derive(Clone, Copy, PartialEq, Eq, Debug)]
pub struct Tally {
    pub planes: u8,
    pub held: usize,
}
