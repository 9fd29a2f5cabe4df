// The parts of a record: its front and its levels.
ghost use Rattle.std.specs.Prelude.{◌≡◌, true, length};
ghost use Rattle.format.specs.Raster.{line_levels, record_length};
ghost use Rattle.format.specs.Record.{head_in, word_in, has_word, word_at, line_in, has_line, LevelsAt};
ghost use Rattle.format.specs.RecordOver.{bytes_of, front_bytes};

use crate::front::Front;
use crate::raster::Raster;
use crate::raster::measures::BLOCK_LINE_LINES;
use crate::record::Record;
use crate::words::{BlockWord, Head, Levels};

impl<'a> Record<'a> {
    // Over bytes of the right length.
    pub fn over(raster: Raster, bytes: &'a [u8]) -> Record<'a>
        requires { length bytes.now ≡ record_length raster }
        ensures at { result.raster ≡ raster }
        ensures stands_over { bytes_of result ≡ bytes.now }
    {
        Record { raster, bytes }
    }

    // The front, with which the record begins.
    #[tactic(auto, using(crate::proofs::RasterLaws::record_length_is))]
    pub fn front(&self) -> Front<'a>
        ensures at { result.raster ≡ self.now.raster }
        ensures stands_over { front_bytes result ≡ bytes_of self.now }
    {
        Front::over(self.raster, self.bytes)
    }

    pub fn head(&self) -> Head
        ensures { result ≡ head_in (bytes_of self.now) }
    {
        self.front().head()
    }

    // The word of a block that has one.
    pub(crate) fn word_of(&self, block: usize) -> BlockWord
        requires { has_word self.now.raster block ≡ true }
        ensures { result ≡ word_in self.now.raster (bytes_of self.now) block }
    {
        self.front().word_of(block)
    }

    // The word of a block, 2 to K + 1.
    pub fn word(&self, block: usize) -> Option<BlockWord>
        ensures { result ≡ word_at self.now.raster (bytes_of self.now) block }
    {
        self.front().word(block)
    }

    // The level bytes of a line that has them.
    #[tactic(auto, unfolding(crate::specs::Record::line_in))]
    pub(crate) fn line(&self, line: usize) -> &'a [u8]
        requires { has_line line ≡ true }
        ensures value { result.now ≡ line_in self.now.raster (bytes_of self.now) line }
        ensures len { length result.now ≡ line_levels self.now.raster }
    {
        let count = self.raster.line_levels();
        let start = self.raster.front_length() + (line - 1) * count;
        &self.bytes[start..start + count]
    }

    // The level bytes of a line, 1 to 8 in the block-line.
    pub fn levels(&self, line: usize) -> Option<Levels<'a>>
        ensures { LevelsAt self.now.raster (bytes_of self.now) line result }
    {
        if (1..=BLOCK_LINE_LINES).contains(&line) {
            Some(Levels {
                line,
                bytes: self.line(line),
            })
        } else {
            None
        }
    }
}
