// The calls of a coder.
ghost use Rattle.std.specs.Prelude.{◌≡◌, ◌+◌, ◌<◌, ◌≤◌, length, OnOk};
ghost use Rattle.std.specs.Result.{result_and};
ghost use Rattle.codec.specs.Coder.{header_length, opening_coded, opened_coding_as, coding_test, record_written, block_line_coded};
ghost use Rattle.codec.specs.Decoder.{reach_test, idle_of, frame_of, next_course, block_line_as};
ghost use Rattle.codec.specs.Step.{course};
ghost use Rattle.codec.specs.Written.{Fitting};
ghost use Rattle.format.specs.Header.{read_header};
ghost use Rattle.format.specs.RecordWriting.{count_test};

use crate::end::{self, Refused};
use crate::memories::{EndMemories, reaches};
use crate::modes::Tally;
use format::header::{HEADER_BYTES, Header};
use format::raster::Raster;
use format::raster::measures::BLOCK_LINE_LINES;
use format::refusal::Refusal;
use format::usable_front;
use format::words::head_in;
use format::writer::{count_fits, write_front};
use quantizer::set::CharacteristicSet;

pub mod calls;

// What an end is that codes.
#[derive(Clone, Copy)]
pub struct Coder;

pub type Idle = end::Idle<Coder>;

pub type Open = end::Open<Coder>;

pub type Finished = end::Finished<Coder>;

// The header of a frame that may be opened, from its bytes, in a buffer of so many bytes.
fn coding_header<M: EndMemories>(
    m: &M,
    raster: Raster,
    bytes: &[u8],
    room: usize,
) -> Result<Header, Refusal>
    ensures test { result ≡ result_and (reach_test raster (M.signal m.now)) (result_and (count_test header_length room) (read_header bytes.now)) }
    ensures fits { OnOk result (room ≡ 5) }
{
    reaches(m, raster)?;
    count_fits(HEADER_BYTES, room)?;
    Header::read(bytes)
}

impl end::Idle<Coder> {
    // Opens a frame: its header is written, which begins with the parity of the frame before.
    pub fn open<M: EndMemories>(
        self,
        m: &mut M,
        fm1: u8,
        bc: u8,
        fm2: u8,
        fc: u8,
        buffer: &mut [u8],
    ) -> Result<Open, Refused<Idle>>
        ensures { (opened_coding_as result, buffer.new, M.signal m.new) ≡ opening_coded (idle_of self) fm1 bc fm2 fc buffer.old (M.signal m.old) }
    {
        let bytes = [self.parity, fm1, bc, fm2, fc];
        match coding_header(m, self.raster, &bytes, buffer.len()) {
            Err(refusal) => Err(Refused { end: self, refusal }),
            Ok(header) => {
                buffer.copy_from_slice(&bytes);
                Ok(self.begin(m, header))
            }
        }
    }
}

impl end::Open<Coder> {
    // Whether the next block-line may be coded.
    fn coding_test<M: EndMemories>(
        &self,
        m: &M,
        front: &[u8],
        picture: &[i8],
        buffer: &[u8],
    ) -> Result<(), Refusal>
        ensures test { result ≡ coding_test (frame_of self.now) front.now picture.now buffer.now (M.signal m.now) }
        ensures fits { OnOk result (Fitting self.now.raster self.now.done front.now picture.now buffer.now) }
    {
        reaches(m, self.raster)?;
        self.turn_left()?;
        count_fits(self.raster.front_length(), front.len())?;
        count_fits(BLOCK_LINE_LINES * self.raster.width(), picture.len())?;
        count_fits(self.raster.record_length(), buffer.len())?;
        usable_front(self.raster, self.header.sbc, front)
    }

    // Codes the next block-line and writes its record: the front, under Stop with every vector 0, and the
    // levels that are found.
    fn code_next<M: EndMemories, S: CharacteristicSet>(
        &self,
        m: &mut M,
        set: &S,
        front: &[u8],
        stop: bool,
        picture: &[i8],
        buffer: &mut [u8],
    ) -> Tally
        requires { Fitting self.now.raster self.now.done front.now picture.now buffer.old }
        ensures written { buffer.new ≡ record_written (S.tops set.now) (S.values set.now) (S.numbers set.now) (frame_of self.now) front.now stop picture.now (M.signal m.old) }
        ensures does { course (M.signal m.new) result ≡ next_course (S.tops set.now) (S.values set.now) (frame_of self.now) (record_written (S.tops set.now) (S.values set.now) (S.numbers set.now) (frame_of self.now) front.now stop picture.now (M.signal m.old)) (M.signal m.old) }
        ensures few { result.held ≤ self.now.tally.held + 4000 }
    {
        let counted = self.between_fields(m);
        let first = self.raster.front_length();
        // both lengths are the layout's, so nothing is refused
        let _ = write_front(self.raster, stop, front, &mut buffer[0..first]);
        self.next_over(set, buffer)
            .code(m, stop, picture, buffer, counted)
    }

    // Codes the next block-line: a front, the pels of eight lines, and a buffer for the record. Stop
    // writes every vector and every level as 0.
    pub fn block_line<M: EndMemories, S: CharacteristicSet>(
        self,
        m: &mut M,
        set: &S,
        front: &[u8],
        stop: bool,
        picture: &[i8],
        buffer: &mut [u8],
    ) -> Result<Open, Refused<Open>>
        ensures { (block_line_as result, buffer.new, M.signal m.new) ≡ block_line_coded (S.tops set.now) (S.values set.now) (S.numbers set.now) (frame_of self) front.now stop picture.now buffer.old (M.signal m.old) }
    {
        match self.coding_test(m, front, picture, buffer) {
            Err(refusal) => Err(Refused { end: self, refusal }),
            Ok(()) => {
                let tally = self.code_next(m, set, front, stop, picture, buffer);
                Ok(self.onward(head_in(buffer), tally))
            }
        }
    }
}
