// What a coder finds: the prepared picture, the level of a pel, and the levels of a line and of a block-line.
ghost use Rattle.std.specs.Prelude.{◌≡◌, ◌+◌, ◌^◌, ◌<◌, ◌≤◌, length, take, ◌-ℤ◌};
ghost use Rattle.codec.specs.Coder.{picture_length, code_lines};
ghost use Rattle.codec.specs.Coding.{limited, prepared, prediction_from, is_coded, level_for, level_at, coded, code_pels, code_line};
ghost use Rattle.codec.specs.Line.{block_at};
ghost use Rattle.codec.specs.Step.{course, step};
ghost use Rattle.codec.specs.Work.{IsOver, modes_in, value_in, number_in};
ghost use Rattle.codec.specs.Written.{before};
ghost use Rattle.format.specs.Front.{front_length};
ghost use Rattle.format.specs.Raster.{record_length};

use crate::memories::EndMemories;
use crate::modes::{BlockLine, FrameModes, LineWork, PelMode, Reading, Tally};
use crate::pel::worked_from;
use format::raster::measures::{BLOCK_LINE_LINES, BURST_PELS, FIRST_PEL, UNCODED_PELS};
use prediction::rules::{byte, prediction};
use quantizer::set::CharacteristicSet;

// The range of a picture pel.
const LOWEST: i8 = -124;

const HIGHEST: i8 = 123;

// The level byte that was found for a pel, and what has been counted after it.
#[derive(Clone, Copy)]
pub(crate) struct CodedPel {
    level: u8,
    tally: Tally,
}

// A picture pel limited to its range.
fn limited(z: i8) -> i8
    ensures { result ≡ limited z }
{
    z.clamp(LOWEST, HIGHEST)
}

// The prediction, from what a pel reads; a pel that is not coded has none.
fn prediction_from(reading: Reading) -> i8
    ensures { result ≡ prediction_from reading }
{
    match reading {
        Reading::Uncoded(_) | Reading::Omitted => 0,
        Reading::Intraframe(i) => i,
        Reading::FrameBefore(y) => y,
        Reading::Surroundings(a) => prediction(a),
    }
}

impl PelMode {
    // Whether a pel worked so is coded.
    fn is_coded(self) -> bool
        ensures { result ≡ is_coded self }
    {
        matches!(self, PelMode::Forced | PelMode::Burst | PelMode::Adaptive)
    }
}

impl FrameModes {
    // A picture pel as it is coded: pels 1 to 3, pel 7 and the first luminance pel become 0.
    fn prepared(self, pel: usize, z: i8) -> i8
        ensures { result ≡ prepared self.g pel z }
    {
        if pel <= UNCODED_PELS || pel == BURST_PELS || pel == self.g.colour + 1 {
            0
        } else {
            limited(z)
        }
    }
}

impl<S: CharacteristicSet> BlockLine<'_, S> {
    // The number of the error of a pel, the pel minus its prediction.
    fn error_number(&self, predicted: i8, pel: i8) -> i8
        ensures { result ≡ number_in S.numbers self.now (pel -ℤ predicted) }
    {
        let error = i16::from(pel) - i16::from(predicted);
        self.set.number(self.characteristic, error).unwrap_or(0)
    }

    // The level of a pel: the number of its error, and 0 where no pel is coded or coding has stopped.
    fn level_for(&self, stop: bool, mode: PelMode, predicted: i8, pel: i8) -> i8
        ensures { result ≡ level_for (number_in S.numbers self.now) stop mode predicted pel }
    {
        if mode.is_coded() && !stop {
            self.error_number(predicted, pel)
        } else {
            0
        }
    }

    // A pel of a line: its level is found and the pel enters, both from what it reads once.
    fn code_pel<M: EndMemories>(
        &self,
        m: &mut M,
        stop: bool,
        line: LineWork,
        pel: usize,
        z: i8,
        tally: Tally,
    ) -> CodedPel
        requires few_held { tally.held < 2 ^ 63 }
        ensures found { result.level ≡ level_at (number_in S.numbers self.now) stop line.frame.g line.modes (block_at self.now.blocks pel) pel z (M.signal m.old) }
        ensures does { course (M.signal m.new) result.tally ≡ step line.frame.g line.frame.control line.modes (block_at self.now.blocks pel) pel (value_in S.tops S.values self.now result.level) (course (M.signal m.old) tally) }
        ensures few { result.tally.held ≤ tally.held + 1 }
    {
        let block = self.block_at(pel);
        let mode = line.modes.pel_mode(block.subsampled, pel);
        let reading = line.reading(m, mode, block, pel);
        let prepared = line.frame.prepared(pel, z);
        let level = byte(self.level_for(stop, mode, prediction_from(reading), prepared));
        let x = worked_from(reading, self.level_value(level));
        CodedPel {
            level,
            tally: line.enter_pel(m, pel, x, tally),
        }
    }

    // The pels of a line that have a level: each level is found and written, and the memories move as a
    // decoder's given that level.
    fn code_levels<M: EndMemories>(
        &self,
        m: &mut M,
        stop: bool,
        line: LineWork,
        picture: &[i8],
        levels: &mut [u8],
        tally: Tally,
    ) -> Tally
        requires few_held { tally.held < 2 ^ 62 }
        requires short { length picture.now ≤ 900 }
        requires as_long { length levels.old ≡ length picture.now }
        ensures does { coded levels.new (course (M.signal m.new) result) ≡ code_pels (number_in S.numbers self.now) stop line.frame.g line.frame.control line.modes self.now.blocks (value_in S.tops S.values self.now) 4 picture.now (course (M.signal m.old) tally) }
        ensures few { result.held ≤ tally.held + length picture.now }
    {
        let mut counted = tally;
        for (i, z) in picture.iter().enumerate() {
            let coded = self.code_pel(m, stop, line, i + FIRST_PEL, *z, counted);
            levels[i] = coded.level;
            counted = coded.tally;
        }
        counted
    }

    // A line by its number: the clamped pels, then the pels that have a level.
    fn code_line<M: EndMemories>(
        &self,
        m: &mut M,
        stop: bool,
        number: usize,
        picture: &[i8],
        levels: &mut [u8],
        tally: Tally,
    ) -> Tally
        requires few_held { tally.held < 2 ^ 61 }
        requires short { length picture.now ≤ 900 }
        requires as_long { length levels.old + 3 ≡ length picture.now }
        ensures does { coded levels.new (course (M.signal m.new) result) ≡ code_line (number_in S.numbers self.now) stop self.now.frame.g self.now.frame.control (modes_in self.now number) self.now.blocks (value_in S.tops S.values self.now) picture.now (course (M.signal m.old) tally) }
        ensures few { result.held ≤ tally.held + length picture.now }
    {
        let line = self.line(number);
        let clamped = line.work_clamped(m, tally);
        self.code_levels(m, stop, line, &picture[UNCODED_PELS..], levels, clamped)
    }

    // The eight lines, whose front stands in the buffer: the levels are written behind it.
    pub(crate) fn code<M: EndMemories>(
        &self,
        m: &mut M,
        stop: bool,
        picture: &[i8],
        buffer: &mut [u8],
        tally: Tally,
    ) -> Tally
        requires few_held { tally.held < 2 ^ 60 }
        requires over { IsOver buffer.old self.now }
        requires pels { length picture.now ≡ picture_length self.now.raster }
        requires room { length buffer.old ≡ record_length self.now.raster }
        ensures does { coded buffer.new (course (M.signal m.new) result) ≡ before (take (front_length self.now.raster) buffer.old) (code_lines (S.tops self.now.set.now) (S.values self.now.set.now) (S.numbers self.now.set.now) self.now.raster self.now.header self.now.second self.now.above (take (front_length self.now.raster) buffer.old) stop picture.now 1 8 (course (M.signal m.old) tally)) }
        ensures few { result.held ≤ tally.held + 4000 }
    {
        let width = self.frame.g.width;
        let count = self.raster.line_levels();
        let mut counted = tally;
        for i in 0..BLOCK_LINE_LINES {
            let pel = i * width;
            let place = self.raster.front_length() + i * count;
            counted = self.code_line(
                m,
                stop,
                i + 1,
                &picture[pel..pel + width],
                &mut buffer[place..place + count],
                counted,
            );
        }
        counted
    }
}
