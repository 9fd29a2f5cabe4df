// The states of an end, coder or decoder, as values that move, and what both do with a frame in hand.
ghost use Rattle.std.specs.Prelude.{◌≡◌, ◌+◌, ◌*◌, ◌<◌, ◌≤◌, true, OnOk, nat_le};
ghost use Rattle.codec.specs.Block.{line_is_forced};
ghost use Rattle.codec.specs.Line.{resets};
ghost use Rattle.codec.specs.Step.{course};
ghost use Rattle.codec.specs.Work.{IsOver};
ghost use Rattle.format.specs.Raster.{width};
ghost use Rattle.format.specs.Record.{is_whole};
ghost use Rattle.format.specs.Usable.{refuse_if};

use crate::block::line_is_forced;
use crate::line::enter_resets;
use crate::memories::{EndMemories, reaches};
use crate::modes::{Above, BlockLine, FrameModes, Tally};
use format::header::Header;
use format::raster::Raster;
use format::raster::measures::BLOCK_LINE_LINES;
use format::refusal::Refusal;
use format::words::Head;
use quantizer::set::CharacteristicSet;
use std::marker::PhantomData;

// An end with no frame in hand: it allows only opening. It keeps the parity of its last frame.
#[derive(Drop)]
pub struct Idle<E> {
    pub(crate) raster: Raster,
    pub(crate) parity: u8,
    kind: PhantomData<E>,
}

// An end with a frame in hand: it allows only a block-line or the finish. `done` block-lines are
// done, `forced` tells whether the pending line is forced, and `tally` is what was counted so far.
#[derive(Drop)]
pub struct Open<E> {
    pub(crate) raster: Raster,
    pub(crate) header: Header,
    done: usize,
    forced: bool,
    tally: Tally,
    kind: PhantomData<E>,
    ghost within: { done ≤ 64 },
    ghost few: { tally.held ≤ 4000 * done },
}

// An accepted finish: the parity of the frame and the number of its held pels.
#[derive(Drop)]
pub struct Finished<E> {
    pub end: Idle<E>,
    pub parity: u8,
    pub held: usize,
}

// A refused call: the state as it was, and why.
#[derive(Drop)]
pub struct Refused<S> {
    pub end: S,
    pub refusal: Refusal,
}

// Where a refusal ends the work, the state is let go.
impl<S: Drop> From<Refused<S>> for Refusal {
    ghost from_gives = { λ refused refusal. refusal ≡ refused.refusal };

    fn from(refused: Refused<S>) -> Refusal {
        refused.refusal
    }
}

// The parity that a new end holds for the frame before its first.
const NEW_PARITY: u8 = 0xff;
// Nothing has been counted of a frame that begins.
const NO_TALLY: Tally = Tally { planes: 0, held: 0 };
// Reset lines that open a frame.
const FIRST_RESET_LINES: usize = 7;
// Reset lines between the fields.
const BETWEEN_RESET_LINES: usize = 6;

impl Tally {
    ghost use Rattle.codec.specs.Decoder.{parity_of};

    // The parity of a frame: a plane's bit is 1 exactly when it holds an even number of ones.
    fn parity(self) -> u8
        ensures { result ≡ parity_of self }
    {
        0xff ^ self.planes
    }
}

impl<E> Idle<E> {
    ghost use Rattle.codec.specs.Decoder.{new_end, idle_of, frame_of, begun};

    // A new end.
    pub fn new(raster: Raster) -> Idle<E>
        ensures { idle_of result ≡ new_end raster }
    {
        Idle {
            raster,
            parity: NEW_PARITY,
            kind: PhantomData,
        }
    }

    pub fn raster(&self) -> Raster
        ensures { result ≡ self.now.raster }
    {
        self.raster
    }

    // A frame begins: 7 reset lines enter all memories.
    pub(crate) fn begin<M: EndMemories>(self, m: &mut M, header: Header) -> Open<E>
        ensures frame { frame_of result ≡ begun self.raster header }
        ensures memories { M.signal m.new ≡ resets (7 * width self.raster) (M.signal m.old) }
    {
        enter_resets(m, FIRST_RESET_LINES * self.raster.width());
        Open {
            raster: self.raster,
            header,
            done: 0,
            forced: false,
            tally: NO_TALLY,
            kind: PhantomData,
        }
    }
}

impl<E> Open<E> {
    ghost use Rattle.codec.specs.Decoder.{block_lines, frame_of, above_next, flushed, between_fields, finish_test, finish, finish_as};
    ghost use Rattle.codec.specs.Coder.{with_parity, finish_coded};

    // Whether a block-line is left to work.
    pub(crate) fn turn_left(&self) -> Result<(), Refusal>
        ensures test { result ≡ refuse_if (nat_le (block_lines self.now.raster) self.now.done) (Refusal.BlockLineCount self.now.done) }
        ensures turn { OnOk result (self.now.done < block_lines self.now.raster) }
    {
        if self.done >= 2 * self.raster.block_lines() {
            return Err(Refusal::BlockLineCount(self.done));
        }
        Ok(())
    }

    // Whether the frame may be finished.
    fn finish_test<M: EndMemories>(&self, m: &M) -> Result<(), Refusal>
        ensures { result ≡ finish_test (frame_of self.now) (M.signal m.now) }
    {
        reaches(m, self.raster)?;
        if self.done < 2 * self.raster.block_lines() {
            return Err(Refusal::BlockLineCount(self.done));
        }
        Ok(())
    }

    // What stands above line 1 of the next block-line: a reset line where a field begins.
    fn above_next(&self) -> Above
        ensures { result ≡ above_next (frame_of self.now) }
    {
        if self.done == 0 || self.done == self.raster.block_lines() {
            Above::Reset
        } else {
            Above::Pending {
                forced: self.forced,
            }
        }
    }

    // The pending line enters picture and background, with 0 below it.
    fn flush_pending<M: EndMemories>(&self, m: &mut M) -> Tally
        ensures does { course (M.signal m.new) result ≡ flushed (frame_of self.now) (course (M.signal m.old) self.now.tally) }
        ensures same { result.held ≡ self.now.tally.held }
    {
        FrameModes::of(self.raster, self.header).flush(m, self.forced, self.tally)
    }

    // Before the second field the pending line is flushed, and 6 reset lines follow it.
    pub(crate) fn between_fields<M: EndMemories>(&self, m: &mut M) -> Tally
        ensures does { course (M.signal m.new) result ≡ between_fields (frame_of self.now) (course (M.signal m.old) self.now.tally) }
        ensures same { result.held ≡ self.now.tally.held }
    {
        if self.done != self.raster.block_lines() {
            return self.tally;
        }
        let counted = self.flush_pending(m);
        enter_resets(m, BETWEEN_RESET_LINES * self.raster.width());
        counted
    }

    // The next block-line, of a record.
    pub(crate) fn next_over<'a, S: CharacteristicSet>(
        &self,
        set: &'a S,
        bytes: &[u8],
    ) -> BlockLine<'a, S>
        requires { is_whole self.now.raster bytes.now ≡ true }
        ensures over { IsOver bytes.now result }
        ensures set { result.set.now ≡ set.now }
        ensures raster { result.raster ≡ self.now.raster }
        ensures header { result.header ≡ self.now.header }
        ensures second { result.second ≡ nat_le self.now.raster.block_lines self.now.done }
        ensures above { result.above ≡ above_next (frame_of self.now) }
    {
        let second = self.done >= self.raster.block_lines();
        BlockLine::over(
            set,
            self.raster,
            self.header,
            second,
            self.above_next(),
            bytes,
        )
    }

    // A block-line of this head is done.
    pub(crate) fn onward(self, head: Head, tally: Tally) -> Open<E>
        requires turn { self.done < block_lines self.raster }
        requires few { tally.held ≤ self.tally.held + 4000 }
        ensures { frame_of result ≡ record { raster = self.raster; header = self.header; done = self.done + 1; forced = line_is_forced self.header head 8; tally = tally } }
    {
        Open {
            raster: self.raster,
            header: self.header,
            done: self.done + 1,
            forced: line_is_forced(self.header, head, BLOCK_LINE_LINES),
            tally,
            kind: PhantomData,
        }
    }

    // Ends the frame: the last line is flushed, and its parity and held pels are told.
    pub fn finish<M: EndMemories>(self, m: &mut M) -> Result<Finished<E>, Refused<Open<E>>>
        ensures does { (finish_as result, M.signal m.new) ≡ finish (frame_of self) (M.signal m.old) }
        ensures coded { (with_parity (finish_as result), M.signal m.new) ≡ finish_coded (frame_of self) (M.signal m.old) }
    {
        match self.finish_test(m) {
            Err(refusal) => Err(Refused { end: self, refusal }),
            Ok(()) => {
                let counted = self.flush_pending(m);
                let parity = counted.parity();
                let end = Idle {
                    raster: self.raster,
                    parity,
                    kind: PhantomData,
                };
                Ok(Finished {
                    end,
                    parity,
                    held: counted.held,
                })
            }
        }
    }
}
