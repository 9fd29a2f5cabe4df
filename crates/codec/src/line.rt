// The lines of a block-line: reset lines, the flush of a pending line, clamped pels, and the pels that have a level.
ghost use Rattle.std.specs.Prelude.{◌≡◌, ℕ, ◌+◌, ◌^◌, ◌<◌, ◌≤◌, length, pos, slice_index_or};
ghost use Rattle.codec.specs.Line.{block_at, pels, clamped_pels, line_work, flush, resets};
ghost use Rattle.codec.specs.Step.{course};
ghost use Rattle.codec.specs.Work.{modes_in, value_in};

use crate::memories::{EndMemories, enter_reset};
use crate::modes::{BURST, BlockLine, BlockModes, FrameModes, LineWork, Tally};
use format::bits::signed;
use format::modes::block_of;
use format::raster::measures::FIRST_PEL;
use prediction::rules::uncoded;
use quantizer::set::CharacteristicSet;
use std::array;

// How many bytes there are.
const BYTES: usize = 256;

// Reset pels enter all memories.
pub(crate) fn enter_resets<M: EndMemories>(m: &mut M, count: usize)
    ensures { M.signal m.new ≡ resets count (M.signal m.old) }
{
    for _ in 0..count {
        enter_reset(m);
    }
}

impl FrameModes {
    // The pending line, which the line memory holds as its newest, enters picture and background with 0
    // below it. The line memory does not move.
    pub(crate) fn flush<M: EndMemories>(self, m: &mut M, is_forced: bool, tally: Tally) -> Tally
        ensures does { course (M.signal m.new) result ≡ flush self.g self.control is_forced self.g.width (course (M.signal m.old) tally) }
        ensures same { result.held ≡ tally.held }
    {
        let mut counted = tally;
        for pel in 1..=self.g.width {
            let y = self.settled(m, self.is_luminance(pel), self.g.width + 1 - pel, 0);
            counted = self.enter_y(m, is_forced, y, counted);
        }
        counted
    }
}

impl LineWork {
    // The clamped pels 1 to 3 of the line.
    pub(crate) fn work_clamped<M: EndMemories>(self, m: &mut M, tally: Tally) -> Tally
        requires few_held { tally.held < 2 ^ 62 }
        ensures does { course (M.signal m.new) result ≡ clamped_pels self.frame.g self.frame.control self.modes (course (M.signal m.old) tally) }
        ensures few { result.held ≤ tally.held + 3 }
    {
        let first = self.enter_pel(m, 1, uncoded(0), tally);
        let second = self.enter_pel(m, 2, uncoded(0), first);
        self.enter_pel(m, 3, uncoded(0), second)
    }
}

impl<S: CharacteristicSet> BlockLine<'_, S> {
    // The modes of the block that a pel lies in.
    pub(crate) fn block_at(&self, pel: usize) -> BlockModes
        ensures { result ≡ block_at self.now.blocks pel }
    {
        self.blocks.get(block_of(pel) - 1).copied().unwrap_or(BURST)
    }

    // The value of the level in a byte.
    pub(crate) fn level_value(&self, byte: u8) -> i8
        ensures { result ≡ value_in S.tops S.values self.now byte }
    {
        self.set
            .value(self.characteristic, signed(byte))
            .unwrap_or(0)
    }

    // The values of all level bytes.
    fn level_values(&self) -> [i8; BYTES]
        ensures { (b : ℕ) → b < 256 → slice_index_or result b (pos 0) ≡ value_in S.tops S.values self.now b }
    {
        array::from_fn(|byte| self.level_value(byte as u8))
    }

    // The pels of a line that have a level: the levels one after another, each with its pel number.
    fn work_levels<M: EndMemories>(
        &self,
        m: &mut M,
        line: LineWork,
        levels: &[u8],
        tally: Tally,
    ) -> Tally
        requires few_held { tally.held < 2 ^ 62 }
        requires short { length levels.now ≤ 900 }
        ensures does { course (M.signal m.new) result ≡ pels line.frame.g line.frame.control line.modes self.now.blocks (value_in S.tops S.values self.now) 4 levels.now (course (M.signal m.old) tally) }
        ensures few { result.held ≤ tally.held + length levels.now }
    {
        let values = self.level_values();
        let mut counted = tally;
        for (i, byte) in levels.iter().enumerate() {
            let pel = i + FIRST_PEL;
            let value = values[usize::from(*byte)];
            counted = line.step(m, self.block_at(pel), pel, value, counted);
        }
        counted
    }

    // A line by its number: its clamped pels, then the pels that have a level.
    pub(crate) fn work_line<M: EndMemories>(
        &self,
        m: &mut M,
        number: usize,
        levels: &[u8],
        tally: Tally,
    ) -> Tally
        requires few_held { tally.held < 2 ^ 61 }
        requires short { length levels.now ≤ 900 }
        ensures does { course (M.signal m.new) result ≡ line_work self.now.frame.g self.now.frame.control (modes_in self.now number) self.now.blocks (value_in S.tops S.values self.now) levels.now (course (M.signal m.old) tally) }
        ensures few { result.held ≤ tally.held + 3 + length levels.now }
    {
        let line = self.line(number);
        let clamped = line.work_clamped(m, tally);
        self.work_levels(m, line, levels, clamped)
    }
}
