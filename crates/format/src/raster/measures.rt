// The measures of a raster.
ghost use Rattle.std.specs.Prelude.{◌≡◌, ◌*◌, ◌≤◌};
ghost use Rattle.format.specs.Front.{front_length};
ghost use Rattle.format.specs.Raster.{Opens, Counts, blocks, lines, width, frame, picture_reach, line_reach, mark_reach, word_bytes, line_levels, record_length};

use crate::bits::BYTE_BITS;
use crate::raster::Raster;
use crate::refusal::Refusal;

pub const MOST_COLOUR_BLOCKS: usize = 4;

pub const MOST_LUMINANCE_BLOCKS: usize = 24;

pub const MOST_BLOCK_LINES: usize = 32;

// Pels of a block in a line.
pub const BLOCK_PELS: usize = 16;
// Pels of the colour burst, which open a line.
pub const BURST_PELS: usize = 7;
// The first block that has a word; block 1 is the burst.
pub const FIRST_BLOCK: usize = 2;
// The first pel that has a level.
pub const FIRST_PEL: usize = 4;
// Pels at the start of a line that have no level.
pub const UNCODED_PELS: usize = 3;
// Lines of a frame besides those of its block-lines.
const EXTRA_LINES: usize = 13;
// Lines of a block-line.
pub const BLOCK_LINE_LINES: usize = 8;
// Bits of a block word.
pub const WORD_BITS: usize = 10;

// What the picture memory holds beyond a frame: lines, and pels.
const REACH_LINES: usize = 7;

const REACH_PELS: usize = 15;

impl Raster {
    pub fn new(colour: usize, luminance: usize, block_lines: usize) -> Result<Raster, Refusal>
        ensures { Opens colour luminance block_lines result }
    {
        let within = (1..=MOST_COLOUR_BLOCKS).contains(&colour)
            && (1..=MOST_LUMINANCE_BLOCKS).contains(&luminance)
            && (1..=MOST_BLOCK_LINES).contains(&block_lines);
        if !within {
            return Err(Refusal::RasterLimits);
        }
        Ok(Raster {
            colour,
            luminance,
            block_lines,
        })
    }

    // The largest raster.
    pub fn standard() -> Raster
        ensures { Counts 4 24 32 result }
    {
        Raster {
            colour: MOST_COLOUR_BLOCKS,
            luminance: MOST_LUMINANCE_BLOCKS,
            block_lines: MOST_BLOCK_LINES,
        }
    }

    // A small raster, for trials.
    pub fn bench() -> Raster
        ensures { Counts 1 6 1 result }
    {
        Raster {
            colour: 1,
            luminance: 6,
            block_lines: 1,
        }
    }

    pub fn colour_blocks(&self) -> usize
        ensures value { result ≡ self.now.colour }
        ensures bound { result ≤ 4 }
    {
        self.colour
    }

    pub fn luminance_blocks(&self) -> usize
        ensures value { result ≡ self.now.luminance }
        ensures bound { result ≤ 24 }
    {
        self.luminance
    }

    // The block-lines of each field.
    pub fn block_lines(&self) -> usize
        ensures value { result ≡ self.now.block_lines }
        ensures low_bound { 1 ≤ result }
        ensures bound { result ≤ 32 }
    {
        self.block_lines
    }

    // The colour and the luminance blocks of a line.
    pub fn blocks(&self) -> usize
        ensures value { result ≡ blocks self.now }
        ensures low_bound { 2 ≤ result }
        ensures bound { result ≤ 28 }
    {
        self.colour + self.luminance
    }

    // The pels of a line.
    #[tactic(auto, unfolding(crate::specs::Raster::width))]
    pub fn width(&self) -> usize
        ensures value { result ≡ width self.now }
        ensures low_bound { 39 ≤ result }
        ensures bound { result ≤ 455 }
    {
        BURST_PELS + BLOCK_PELS * self.blocks()
    }

    // The lines of a frame, in which the block-lines of two fields lie.
    pub fn lines(&self) -> usize
        ensures value { result ≡ lines self.now }
        ensures low_bound { 29 ≤ result }
        ensures bound { result ≤ 525 }
    {
        EXTRA_LINES + 2 * BLOCK_LINE_LINES * self.block_lines
    }

    // The pels of a frame.
    #[tactic(auto, unfolding(crate::specs::Raster::frame))]
    pub fn frame(&self) -> usize
        ensures value { result ≡ frame self.now }
        ensures low_bound { 29 * width self.now ≤ result }
        ensures bound { result ≤ 238875 }
    {
        self.lines() * self.width()
    }

    // What the picture memory and the background memory have to hold.
    #[tactic(auto, unfolding(crate::specs::Raster::picture_reach))]
    pub fn picture_reach(&self) -> usize
        ensures value { result ≡ picture_reach self.now }
        ensures bound { result ≤ 242075 }
    {
        self.frame() + REACH_LINES * self.width() + REACH_PELS
    }

    // What the line memory has to hold.
    #[tactic(auto, unfolding(crate::specs::Raster::line_reach))]
    pub fn line_reach(&self) -> usize
        ensures value { result ≡ line_reach self.now }
        ensures bound { result ≤ 910 }
    {
        2 * self.width()
    }

    // What the mark memory has to hold.
    #[tactic(auto, unfolding(crate::specs::Raster::mark_reach))]
    pub fn mark_reach(&self) -> usize
        ensures value { result ≡ mark_reach self.now }
        ensures bound { result ≤ 456 }
    {
        self.width() + 1
    }

    // The bytes of a record's block words.
    pub fn word_bytes(&self) -> usize
        ensures value { result ≡ word_bytes self.now }
        ensures bound { result ≤ 35 }
    {
        (WORD_BITS * self.blocks()).div_ceil(BYTE_BITS)
    }

    // The bytes of a record's front: the head and the block words.
    pub fn front_length(&self) -> usize
        ensures value { result ≡ front_length self.now }
        ensures bound { result ≤ 36 }
    {
        1 + self.word_bytes()
    }

    // The levels of a line.
    pub fn line_levels(&self) -> usize
        ensures value { result ≡ line_levels self.now }
        ensures bound { result ≤ 452 }
    {
        self.width() - UNCODED_PELS
    }

    // The bytes of a block-line's record.
    #[tactic(auto, unfolding(crate::specs::Raster::record_length))]
    pub fn record_length(&self) -> usize
        ensures value { result ≡ record_length self.now }
        ensures bound { result ≤ 3652 }
    {
        self.front_length() + BLOCK_LINE_LINES * self.line_levels()
    }
}
