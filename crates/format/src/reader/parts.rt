// What a reader hands out: the head, the block words and the levels of a line, each with its place.
ghost use Rattle.std.specs.Prelude.{◌≡◌, true, Ok};
ghost use Rattle.format.specs.Reader.{read_bytes, RecordPart, head_part, word_part, LevelsPart, verdict};
ghost use Rattle.format.specs.Record.{length_fits};
ghost use Rattle.format.specs.Sound.{Sound};

use crate::raster::Raster;
use crate::reader::RecordReader;
use crate::record::Record;
use crate::refusal::Refusal;
use crate::words::{BlockWord, Head, Levels};
use crate::writer::count_fits;

impl<'a> RecordReader<'a> {
    // A reader over the bytes of a record.
    pub fn over(raster: Raster, bytes: &'a [u8]) -> RecordReader<'a>
        ensures at { result.raster ≡ raster }
        ensures stands_over { read_bytes result ≡ bytes.now }
    {
        RecordReader { raster, bytes }
    }

    pub fn raster(&self) -> Raster
        ensures { result ≡ self.now.raster }
    {
        self.raster
    }

    // Refuses bytes that are not as many as the raster's record has.
    pub fn fits(&self) -> Result<(), Refusal>
        ensures { result ≡ length_fits self.now.raster (read_bytes self.now) }
    {
        count_fits(self.raster.record_length(), self.bytes.len())
    }

    // The record, where the bytes are as many as it has.
    fn record(&self) -> Option<Record<'a>>
        ensures { RecordPart self.now.raster (read_bytes self.now) result }
    {
        self.fits().ok()?;
        Some(Record::over(self.raster, self.bytes))
    }

    // The head, the first byte.
    pub fn head(&self) -> Option<Head>
        ensures { result ≡ head_part self.now.raster (read_bytes self.now) }
    {
        Some(self.record()?.head())
    }

    // The word of a block, 2 to K + 1.
    pub fn word(&self, block: usize) -> Option<BlockWord>
        ensures { result ≡ word_part self.now.raster (read_bytes self.now) block }
    {
        self.record()?.word(block)
    }

    // The level bytes of a line, 1 to 8 in the block-line.
    pub fn levels(&self, line: usize) -> Option<Levels<'a>>
        ensures { LevelsPart self.now.raster (read_bytes self.now) line result }
    {
        self.record()?.levels(line)
    }

    // The first refusal that applies to the record, under a frame's SBC and the top number of its
    // characteristic.
    pub fn usable(&self, sbc: bool, top: u8) -> Result<(), Refusal>
        ensures verdict { result ≡ verdict self.now.raster sbc top (read_bytes self.now) }
        ensures sound { result ≡ Ok tt → Sound self.now.raster sbc top (read_bytes self.now) }
    {
        self.fits()?;
        Record::over(self.raster, self.bytes).usable(sbc, top)
    }
}
