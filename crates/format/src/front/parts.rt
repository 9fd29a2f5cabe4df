// The parts of a front: its head and its block words.
ghost use Rattle.std.specs.Prelude.{◌≡◌, ◌+◌, ◌*◌, ◌≤◌, true, length, slice_index};
ghost use Rattle.format.specs.Front.{front_length};
ghost use Rattle.format.specs.Raster.{word_bytes};
ghost use Rattle.format.specs.Record.{head_in, head_marked, words_in, word_of, word_in, has_word, word_at};
ghost use Rattle.format.specs.RecordOver.{front_bytes};

use crate::bits::{field, stream_bit, twos_complement};
use crate::front::Front;
use crate::raster::Raster;
use crate::raster::measures::{FIRST_BLOCK, WORD_BITS};
use crate::words::{BlockWord, Head, VX_HALF, VY_HALF, head_in};

// The fields of a block word: S in one bit, then vx and vy.
const VX_START: usize = 1;

const VX_BITS: usize = 5;

const VY_START: usize = VX_START + VX_BITS;

const VY_BITS: usize = 4;

// The last four bits of the head byte, all 1, and how many values they have.
const HEAD_MARK: u8 = 15;

const HEAD_MARKS: u8 = 16;

// The word whose ten bits begin at a bit of the words' bytes.
#[tactic(auto, unfolding(crate::specs::Record::word_of))]
fn word_from(words: &[u8], start: usize) -> BlockWord
    requires near { start ≤ 270 }
    requires within { start + 10 ≤ 8 * length words.now }
    ensures { result ≡ word_of words.now start }
{
    BlockWord {
        s: stream_bit(words, start),
        vx: twos_complement(VX_HALF, field(words, start + VX_START, VX_BITS)),
        vy: twos_complement(VY_HALF, field(words, start + VY_START, VY_BITS)),
    }
}

impl<'a> Front<'a> {
    // Over bytes that are long enough.
    pub fn over(raster: Raster, bytes: &'a [u8]) -> Front<'a>
        requires { front_length raster ≤ length bytes.now }
        ensures at { result.raster ≡ raster }
        ensures stands_over { front_bytes result ≡ bytes.now }
    {
        Front { raster, bytes }
    }

    pub fn raster(&self) -> Raster
        ensures { result ≡ self.now.raster }
    {
        self.raster
    }

    // The head as a byte.
    pub fn head_byte(&self) -> u8
        ensures { result ≡ slice_index (front_bytes self.now) 0 }
    {
        self.bytes[0]
    }

    pub fn head(&self) -> Head
        ensures { result ≡ head_in (front_bytes self.now) }
    {
        head_in(self.bytes)
    }

    // Whether the last four bits of the head are all 1.
    pub fn head_marked(&self) -> bool
        ensures { result ≡ head_marked (front_bytes self.now) }
    {
        self.bytes[0] % HEAD_MARKS == HEAD_MARK
    }

    // The bytes of the block words.
    pub(crate) fn words(&self) -> &'a [u8]
        ensures value { result.now ≡ words_in self.now.raster (front_bytes self.now) }
        ensures len { length result.now ≡ word_bytes self.now.raster }
    {
        &self.bytes[1..self.raster.front_length()]
    }

    // The word of a block that has one.
    #[tactic(auto, unfolding(crate::specs::Record::word_in))]
    pub(crate) fn word_of(&self, block: usize) -> BlockWord
        requires { has_word self.now.raster block ≡ true }
        ensures { result ≡ word_in self.now.raster (front_bytes self.now) block }
    {
        word_from(self.words(), WORD_BITS * (block - FIRST_BLOCK))
    }

    // The word of a block, 2 to K + 1.
    pub fn word(&self, block: usize) -> Option<BlockWord>
        ensures { result ≡ word_at self.now.raster (front_bytes self.now) block }
    {
        let blocks = FIRST_BLOCK..=self.raster.blocks() + 1;
        if blocks.contains(&block) {
            Some(self.word_of(block))
        } else {
            None
        }
    }
}
