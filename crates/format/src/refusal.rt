// What can be wrong with what the decoder is given.
ghost use Rattle.std.specs.Prelude.{◌≡◌, ◌∷◌, ◌++◌, Some};
ghost use Rattle.std.specs.Fmt.{decimal};
ghost use Rattle.format.specs.Refusal.{number_of, place_of};

use std::error::Error;
use std::fmt;

// The memories in their order: a refusal's place counts them from 1.
#[derive(Clone, Copy, PartialEq, Eq, Debug)]
pub enum MemoryName {
    Picture,
    Background,
    Line,
    Marks,
}

// The two header bytes that have fixed bits: a refusal's place counts them from 1.
#[derive(Clone, Copy, PartialEq, Eq, Debug)]
pub enum HeaderByte {
    Fm1,
    Fm2,
}

#[derive(Clone, Copy, PartialEq, Eq, Debug)]
pub enum Refusal {
    // The raster lies outside its limits.
    RasterLimits,
    // A memory is below its reach.
    MemoryReach(MemoryName),
    // A block-line beyond the last, or a finish before it: how many block-lines are done.
    BlockLineCount(usize),
    // A length differs from its layout: the length given.
    WrongLength(usize),
    // A fixed bit of the header is wrong.
    FixedHeaderBit(HeaderByte),
    // The last four bits of the head are not all 1.
    FixedHeadBits,
    // The block-line is forced and repeated at once.
    ForcedRepeat,
    // A block's word is not as its modes ask; the bits that fill the last byte are place 0.
    StrayWord(usize),
    // A block's vector is out of range.
    VectorRange(usize),
    // A level is beyond the top, or not 0 on an omitted pel.
    LevelValue(usize),
}

impl Refusal {
    pub fn number(&self) -> u8
        ensures { result ≡ number_of self.now }
    {
        match self {
            Refusal::RasterLimits => 1,
            Refusal::MemoryReach(_) => 2,
            Refusal::BlockLineCount(_) => 3,
            Refusal::WrongLength(_) => 4,
            Refusal::FixedHeaderBit(_) => 5,
            Refusal::FixedHeadBits => 6,
            Refusal::ForcedRepeat => 7,
            Refusal::StrayWord(_) => 8,
            Refusal::VectorRange(_) => 9,
            Refusal::LevelValue(_) => 10,
        }
    }

    pub fn place(&self) -> usize
        ensures { result ≡ place_of self.now }
    {
        match self {
            Refusal::MemoryReach(name) => *name as usize + 1,
            Refusal::FixedHeaderBit(byte) => *byte as usize + 1,
            Refusal::BlockLineCount(place)
            | Refusal::WrongLength(place)
            | Refusal::StrayWord(place)
            | Refusal::VectorRange(place)
            | Refusal::LevelValue(place) => *place,
            Refusal::RasterLimits | Refusal::FixedHeadBits | Refusal::ForcedRepeat => 0,
        }
    }
}

// The number and the place.
impl fmt::Display for Refusal {
    ghost output = { λ refusal. Some (decimal (number_of refusal) ++ (32 ∷ decimal (place_of refusal))) };

    fn fmt<W: fmt::Write>(&self, f: &mut fmt::Formatter<W>) -> fmt::Result {
        write!(f, "{} {}", self.number(), self.place())
    }
}

impl Error for Refusal {}
