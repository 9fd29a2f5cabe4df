// The calls of a decoder.
ghost use Rattle.std.specs.Prelude.{◌≡◌, ◌+◌, ◌<◌, ◌≤◌, true, OnOk};
ghost use Rattle.std.specs.Result.{result_and};
ghost use Rattle.codec.specs.Decoder.{Accepts, reach_test, idle_of, frame_of, opening, opened_as, block_lines, record_test, top_in, next_course, block_line, block_line_as};
ghost use Rattle.codec.specs.Step.{course};
ghost use Rattle.format.specs.Header.{read_header};
ghost use Rattle.format.specs.Reader.{verdict};
ghost use Rattle.format.specs.Record.{is_whole};
ghost use Rattle.quantizer.specs.Choice.{chosen};

use crate::block::chosen_by;
use crate::end;
pub use crate::end::Refused;
use crate::memories::{EndMemories, reaches};
use crate::modes::Tally;
use format::header::Header;
use format::raster::Raster;
use format::reader::RecordReader;
use format::refusal::Refusal;
use format::words::Head;
use quantizer::set::CharacteristicSet;

pub mod calls;

// What an end is that decodes.
#[derive(Clone, Copy)]
pub struct Decoder;

pub type Idle = end::Idle<Decoder>;

pub type Open = end::Open<Decoder>;

pub type Finished = end::Finished<Decoder>;

// An accepted opening: the frame in hand, and the planes in which its header's parity differs from the
// parity of the frame before.
#[derive(Drop)]
pub struct Opened {
    pub end: Open,
    pub planes: u8,
}

// The header of a frame that may be opened.
fn opening_header<M: EndMemories>(m: &M, raster: Raster, bytes: &[u8]) -> Result<Header, Refusal>
    ensures { result ≡ result_and (reach_test raster (M.signal m.now)) (read_header bytes.now) }
{
    reaches(m, raster)?;
    Header::read(bytes)
}

// The top number of the characteristic that a head chooses.
fn top_in<S: CharacteristicSet>(set: &S, head: Head) -> u8
    ensures { result ≡ S.tops set.now (chosen head.qc1 head.qc2) }
{
    set.top(chosen_by(head))
}

// The head of a record that is usable.
fn usable_head<S: CharacteristicSet>(
    set: &S,
    raster: Raster,
    sbc: bool,
    bytes: &[u8],
) -> Result<Head, Refusal>
    ensures { Accepts (verdict raster sbc (top_in (S.tops set.now) bytes.now) bytes.now) raster bytes.now result }
{
    let reader = RecordReader::over(raster, bytes);
    let head = reader.head().ok_or(Refusal::WrongLength(bytes.len()))?;
    reader.usable(sbc, top_in(set, head))?;
    Ok(head)
}

impl end::Idle<Decoder> {
    // Opens a frame: a header of five bytes.
    pub fn open<M: EndMemories>(self, m: &mut M, header: &[u8]) -> Result<Opened, Refused<Idle>>
        ensures { (opened_as result, M.signal m.new) ≡ opening (idle_of self) header.now (M.signal m.old) }
    {
        match opening_header(m, self.raster, header) {
            Err(refusal) => Err(Refused { end: self, refusal }),
            Ok(header) => Ok(Opened {
                planes: header.parity ^ self.parity,
                end: self.begin(m, header),
            }),
        }
    }
}

impl end::Open<Decoder> {
    // The head of a record from which the next block-line may be worked.
    fn next_head<M: EndMemories, S: CharacteristicSet>(
        &self,
        m: &M,
        set: &S,
        bytes: &[u8],
    ) -> Result<Head, Refusal>
        ensures accepts { Accepts (record_test (S.tops set.now) (S.values set.now) (frame_of self.now) bytes.now (M.signal m.now)) self.now.raster bytes.now result }
        ensures turn { OnOk result (self.now.done < block_lines self.now.raster) }
    {
        reaches(m, self.raster)?;
        self.turn_left()?;
        usable_head(set, self.raster, self.header.sbc, bytes)
    }

    // Works the next block-line.
    fn work_next<M: EndMemories, S: CharacteristicSet>(
        &self,
        m: &mut M,
        set: &S,
        bytes: &[u8],
    ) -> Tally
        requires { is_whole self.now.raster bytes.now ≡ true }
        ensures does { course (M.signal m.new) result ≡ next_course (S.tops set.now) (S.values set.now) (frame_of self.now) bytes.now (M.signal m.old) }
        ensures few { result.held ≤ self.now.tally.held + 4000 }
    {
        let counted = self.between_fields(m);
        let reader = RecordReader::over(self.raster, bytes);
        self.next_over(set, bytes).work(m, reader, counted)
    }

    // Takes the record of the next block-line.
    pub fn block_line<M: EndMemories, S: CharacteristicSet>(
        self,
        m: &mut M,
        set: &S,
        bytes: &[u8],
    ) -> Result<Open, Refused<Open>>
        ensures { (block_line_as result, M.signal m.new) ≡ block_line (S.tops set.now) (S.values set.now) (frame_of self) bytes.now (M.signal m.old) }
    {
        match self.next_head(m, set, bytes) {
            Err(refusal) => Err(Refused { end: self, refusal }),
            Ok(head) => {
                let tally = self.work_next(m, set, bytes);
                Ok(self.onward(head, tally))
            }
        }
    }
}
