// The frames of the benchmark: pictures of a slope that moves, with a block that moves over it the other
// way and with grain, and modes that differ from frame to frame. All is made from numbers alone, so that
// another coder can be given the same.
ghost use Rattle.std.specs.Prelude.{◌<◌, ◌≤◌, pos, negsuc, ◌≤ℤ◌};

use anyhow::Context;
use format::header::HEADER_BYTES;
use format::raster::Raster;
use format::raster::measures::{BLOCK_LINE_LINES, FIRST_BLOCK};
use format::words::{BlockWord, Head};
use format::writer::write_record;
use std::alloc::{AllocError, Global};

// The frames that are made.
pub const FRAMES: usize = 6;

// FM1 and FM2 of each frame; BC and FC are 0.
const MODES: [(u8, u8); FRAMES] = [
    (0xe8, 0xff),
    (0x98, 0xe7),
    (0xd8, 0xef),
    (0xb8, 0xf7),
    (0xc8, 0xbf),
    (0x58, 0xef),
];

// A block-line to code: its front, its pels, and room for its record.
#[derive(Drop)]
pub struct BlockLine {
    pub front: Vec<u8>,
    pub picture: Vec<i8>,
    pub record: Vec<u8>,
}

// A frame to code: its modes and its block-lines, and room for its header and its parity.
#[derive(Drop)]
pub struct Frame {
    pub fm1: u8,
    pub fm2: u8,
    pub lines: Vec<BlockLine>,
    pub header: [u8; HEADER_BYTES],
    pub parity: u8,
}

// Grain: a number after another, from 12345.
#[derive(Drop)]
struct Grain {
    x: u32,
}

impl Grain {
    // x goes to (1103515245 x + 12345) mod 2^31, and gives x / 65536 mod 7.
    fn next(&mut self) -> u8
        ensures { result < 7 }
    {
        self.x = self.x.wrapping_mul(1_103_515_245).wrapping_add(12_345) % 0x8000_0000;
        (self.x / 65_536 % 7) as u8
    }
}

// Where a block-line stands: in which frame, and which of the frame's it is.
#[derive(Clone, Copy)]
struct Place {
    frame: usize,
    line: usize,
    ghost frames: { frame < 6 },
    ghost lines: { line < 64 },
}

impl Place {
    // A pel without its grain: the slope, and the block around pel 100 + 20 frame and row 256.
    fn base(self, row: usize, pel: usize) -> i16
        requires rows { row < 512 }
        requires pels { pel ≤ 455 }
        ensures low { negsuc 999 ≤ℤ result }
        ensures high { result ≤ℤ pos 1000 }
    {
        let steps = (pel + 3 * self.frame) * 5 + (row + 2 * self.frame) * 3;
        let slope = (steps % 201) as i16 - 100;
        if pel.abs_diff(100 + 20 * self.frame) <= 30 && row.abs_diff(256) <= 60 {
            90 - slope / 2
        } else {
            slope
        }
    }

    // A pel with its grain, from -3 to 3, within the range of a pel.
    fn pel(self, row: usize, pel: usize, grain: u8) -> i8
        requires rows { row < 512 }
        requires pels { pel ≤ 455 }
    {
        (self.base(row, pel) + i16::from(grain) - 3).clamp(-128, 127) as i8
    }

    // The pels of its eight rows.
    fn picture(self, heap: Global, grain: &mut Grain, width: usize) -> Result<Vec<i8>, AllocError>
        requires { width ≤ 455 }
    {
        let mut pels = Vec::new(heap);
        let top = BLOCK_LINE_LINES * self.line;
        for row in top..top + BLOCK_LINE_LINES {
            for pel in 1..=width {
                pels.push(self.pel(row, pel, grain.next()))?;
            }
        }
        Ok(pels)
    }

    // QC = (frame + line) mod 4. IFM is 0 in frame 0 and where line mod 16 = 5, FRP in frame 3 where
    // line mod 8 = 3.
    fn head(self) -> Head {
        let qc = (self.frame + self.line) % 4;
        Head {
            qc1: qc >= 2,
            qc2: qc % 2 == 1,
            ifm: self.frame != 0 && self.line % 16 != 5,
            frp: self.frame != 3 || self.line % 8 != 3,
        }
    }

    // S where frame is 1, 2 or 4 and (block + line) mod 3 = 0. In the frames 2, 4 and 5
    // vx = (3 block + line) mod 7 - 3 and vy = (block + frame) mod 5 - 2, else 0.
    fn word(self, block: usize) -> BlockWord
        requires { block < 30 }
    {
        let (vx, vy) = match self.frame {
            2 | 4 | 5 => (
                ((3 * block + self.line) % 7) as i8 - 3,
                ((block + self.frame) % 5) as i8 - 2,
            ),
            _ => (0, 0),
        };
        let s = match self.frame {
            1 | 2 | 4 => (block + self.line) % 3 == 0,
            _ => false,
        };
        BlockWord { s, vx, vy }
    }

    // The words of the blocks 2 to K + 1.
    fn words(self, heap: Global, raster: Raster) -> Result<Vec<BlockWord>, AllocError> {
        (FIRST_BLOCK..FIRST_BLOCK + raster.blocks())
            .map(|block| self.word(block))
            .collect(heap)
    }

    // The block-line. Its front is the front of a record whose levels are all 0.
    fn block_line(
        self,
        heap: Global,
        grain: &mut Grain,
        raster: Raster,
    ) -> anyhow::Result<BlockLine> {
        let words = self.words(heap, raster)?;
        let levels = vec![in heap; 0i8; BLOCK_LINE_LINES * raster.line_levels()]?;
        let mut record = vec![in heap; 0u8; raster.record_length()]?;
        write_record(raster, self.head(), &words, &levels, &mut record)
            .ok()
            .context("a front is not written")?;
        let front = record
            .get(..raster.front_length())
            .context("a record has no front")?;
        Ok(BlockLine {
            front: Vec::from_slice(heap, front)?,
            picture: self.picture(heap, grain, raster.width())?,
            record,
        })
    }
}

// A frame.
fn frame_of(
    heap: Global,
    grain: &mut Grain,
    raster: Raster,
    frame: usize,
    modes: (u8, u8),
) -> anyhow::Result<Frame>
    requires { frame < 6 }
{
    let (fm1, fm2) = modes;
    let mut lines = Vec::new(heap);
    for line in 0..2 * raster.block_lines() {
        lines.push(Place { frame, line }.block_line(heap, grain, raster)?)?;
    }
    Ok(Frame {
        fm1,
        fm2,
        lines,
        header: [0; HEADER_BYTES],
        parity: 0,
    })
}

// The frames.
pub fn frames(heap: Global, raster: Raster) -> anyhow::Result<Vec<Frame>> {
    let mut grain = Grain { x: 12_345 };
    let mut all = Vec::new(heap);
    for (frame, modes) in MODES.into_iter().enumerate() {
        all.push(frame_of(heap, &mut grain, raster, frame, modes)?)?;
    }
    Ok(all)
}
