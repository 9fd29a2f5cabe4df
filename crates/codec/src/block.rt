// A block-line: the modes of its blocks and lines, and its eight lines one after another.
ghost use Rattle.std.specs.Prelude.{◌≡◌, ◌+◌, ◌^◌, ◌<◌, ◌≤◌, true, pos, ◌+ℤ◌, ◌*ℤ◌, unsigned_abs};
ghost use Rattle.codec.specs.Block.{geometry_of, vector_delay, modes_of, blocks_of, control_of, line_is_forced, block_line_work, record_value};
ghost use Rattle.codec.specs.Line.{line_work};
ghost use Rattle.codec.specs.Step.{course};
ghost use Rattle.codec.specs.Work.{IsOver, modes_in, value_in};
ghost use Rattle.format.specs.Record.{is_whole, head_in, line_in, has_line};
ghost use Rattle.format.specs.Reader.{read_bytes};
ghost use Rattle.quantizer.specs.Choice.{chosen};

use crate::memories::EndMemories;
use crate::modes::{
    Above, BURST, BlockLine, BlockModes, FrameModes, Geometry, LineModes, LineWork, MOST_BLOCKS,
    Tally,
};
use format::header::Header;
use format::modes::{forced, subsamples};
use format::raster::Raster;
use format::raster::measures::{BLOCK_LINE_LINES, BLOCK_PELS, BURST_PELS};
use format::reader::RecordReader;
use format::words::{BlockWord, Head, head_in};
use prediction::marks::BackgroundControl;
use quantizer::characteristic::Characteristic;
use quantizer::set::CharacteristicSet;
use std::array;

// Lines between a pel and the near and the far line that repeat it, besides a field's block-lines.
const NEAR_LINES: usize = 6;

const FAR_LINES: usize = 7;

impl FrameModes {
    // What holds for a frame of a raster under a header.
    pub(crate) fn of(raster: Raster, header: Header) -> FrameModes
        ensures lengths { result.g ≡ geometry_of raster }
        ensures control { result.control ≡ control_of header }
    {
        let width = raster.width();
        let lines = BLOCK_LINE_LINES * raster.block_lines();
        FrameModes {
            g: Geometry {
                width,
                frame: raster.frame(),
                near: (NEAR_LINES + lines) * width,
                far: (FAR_LINES + lines) * width,
                colour: BURST_PELS + BLOCK_PELS * raster.colour_blocks(),
            },
            control: BackgroundControl {
                brc: header.brc,
                buc: header.buc,
            },
        }
    }

    // The pels of vy lines.
    fn rows_delay(self, vy: i8) -> i64
        ensures value { result ≡ pos self.g.width *ℤ vy }
        ensures bound { unsigned_abs result ≤ 128000 }
    {
        self.g.width as i64 * i64::from(vy)
    }

    // The delay of a vector: a frame, and vx pels and vy lines more.
    fn vector_delay(self, vx: i8, vy: i8) -> usize
        ensures { result ≡ vector_delay self.g vx vy }
    {
        let delay = self.g.frame as i64 + i64::from(vx) + self.rows_delay(vy);
        usize::try_from(delay).unwrap_or(0)
    }

    // The modes of a block, from its word; one that has no word has those of the burst.
    fn modes_of(self, sbc: bool, head: Head, word: Option<BlockWord>) -> BlockModes
        ensures { result ≡ modes_of self.g sbc head word }
    {
        match word {
            Some(word) => BlockModes {
                subsampled: subsamples(sbc, head, word),
                delay: self.vector_delay(word.vx, word.vy),
            },
            None => BURST,
        }
    }

    // The blocks of a block-line, block 1 first.
    fn blocks_of(self, sbc: bool, head: Head, reader: RecordReader<'_>) -> [BlockModes; MOST_BLOCKS]
        requires whole { is_whole reader.raster (read_bytes reader) ≡ true }
        requires headed { head ≡ head_in (read_bytes reader) }
        ensures { result ≡ blocks_of self.g reader.entry.raster sbc (read_bytes reader.entry) }
    {
        array::from_fn(|i| self.modes_of(sbc, head, reader.word(i + 1)))
    }
}

// The characteristic that a head chooses.
pub(crate) fn chosen_by(head: Head) -> Characteristic
    ensures { result ≡ chosen head.qc1 head.qc2 }
{
    Characteristic::from_bits(head.qc1, head.qc2)
}

// Whether a line of a block-line is forced.
pub(crate) fn line_is_forced(header: Header, head: Head, line: usize) -> bool
    ensures { result ≡ line_is_forced header head line }
{
    forced(header.drm, header.crm1, header.crm2, head, line)
}

impl<'a, S: CharacteristicSet> BlockLine<'a, S> {
    // The block-line of a record.
    pub(crate) fn over(
        set: &'a S,
        raster: Raster,
        header: Header,
        second: bool,
        above: Above,
        bytes: &[u8],
    ) -> BlockLine<'a, S>
        requires { is_whole raster bytes.now ≡ true }
        ensures over { IsOver bytes.now result }
        ensures set { result.set.now ≡ set.now }
        ensures raster { result.raster ≡ raster }
        ensures header { result.header ≡ header }
        ensures second { result.second ≡ second }
        ensures above { result.above ≡ above }
    {
        let head = head_in(bytes);
        let frame = FrameModes::of(raster, header);
        BlockLine {
            set,
            raster,
            header,
            head,
            characteristic: chosen_by(head),
            second,
            above,
            frame,
            blocks: frame.blocks_of(header.sbc, head, RecordReader::over(raster, bytes)),
        }
    }
}

impl<S: CharacteristicSet> BlockLine<'_, S> {
    // A line, 1 to 8.
    pub(crate) fn line(&self, number: usize) -> LineWork
        ensures frame { result.frame ≡ self.now.frame }
        ensures modes { result.modes ≡ modes_in self.now number }
    {
        let above = match number {
            1 => self.above,
            _ => Above::Pending {
                forced: line_is_forced(self.header, self.head, number.saturating_sub(1)),
            },
        };
        LineWork {
            frame: self.frame,
            modes: LineModes {
                number,
                forced: line_is_forced(self.header, self.head, number),
                repeated: !self.head.frp,
                second: self.second,
                above,
            },
        }
    }

    // A line by its number: the reader of the record hands out its levels.
    fn work_numbered<M: EndMemories>(
        &self,
        m: &mut M,
        reader: RecordReader<'_>,
        number: usize,
        tally: Tally,
    ) -> Tally
        requires few_held { tally.held < 2 ^ 61 }
        requires numbered { has_line number ≡ true }
        requires whole { is_whole reader.raster (read_bytes reader) ≡ true }
        ensures does { course (M.signal m.new) result ≡ line_work self.now.frame.g self.now.frame.control (modes_in self.now number) self.now.blocks (value_in S.tops S.values self.now) (line_in reader.entry.raster (read_bytes reader.entry) number) (course (M.signal m.old) tally) }
        ensures few { result.held ≤ tally.held + 500 }
    {
        match reader.levels(number) {
            Some(levels) => self.work_line(m, number, levels.bytes, tally),
            None => tally,
        }
    }

    // The eight lines, of the record that the reader stands over.
    pub(crate) fn work<M: EndMemories>(
        &self,
        m: &mut M,
        reader: RecordReader<'_>,
        tally: Tally,
    ) -> Tally
        requires few_held { tally.held < 2 ^ 60 }
        requires whole { is_whole reader.raster (read_bytes reader) ≡ true }
        requires raster { self.now.raster ≡ reader.raster }
        requires over { IsOver (read_bytes reader) self.now }
        ensures does { course (M.signal m.new) result ≡ block_line_work self.now.raster self.now.header self.now.second self.now.above (record_value (S.tops self.now.set.now) (S.values self.now.set.now) (read_bytes reader.entry)) (read_bytes reader.entry) (course (M.signal m.old) tally) }
        ensures few { result.held ≤ tally.held + 4000 }
    {
        let mut counted = tally;
        for number in 1..=BLOCK_LINE_LINES {
            counted = self.work_numbered(m, reader, number, counted);
        }
        counted
    }
}
