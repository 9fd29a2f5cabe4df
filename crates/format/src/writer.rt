// The writer of a block-line's record.
ghost use Rattle.std.specs.Prelude.{◌≡◌, ◌-◌, ◌*◌, ◌≤◌, true, ◌∷◌, map, length, take, Ok};
ghost use Rattle.std.specs.List.{range_with_len};
ghost use Rattle.format.specs.Front.{front_length, still, stilled, front_written};
ghost use Rattle.format.specs.Packing.{twos_field};
ghost use Rattle.format.specs.Raster.{blocks, line_levels, record_length};
ghost use Rattle.format.specs.RecordOver.{front_bytes};
ghost use Rattle.format.specs.RecordWriting.{word_number, words_bit, words_byte, record_bytes, in_range, Ranged, count_test, range_test, writable, held_after};
ghost use Rattle.format.specs.Survival.{words_read, LevelBytes, Holds, RecordsReadBack, RecordBytesWrittenBack};
ghost use Rattle.format.specs.Usable.{in_order};
ghost use Rattle.std.specs.Result.{result_and};

use crate::bits::BYTE_BITS;
use crate::front::Front;
use crate::order::in_order;
use crate::packing::{byte_of, twos_field};
use crate::raster::Raster;
use crate::raster::measures::{
    BLOCK_LINE_LINES, FIRST_BLOCK, MOST_COLOUR_BLOCKS, MOST_LUMINANCE_BLOCKS, WORD_BITS,
};
use crate::refusal::Refusal;
use crate::words::{BlockWord, Head, VX_HALF, VY_HALF};
use std::array;

// How far vectors reach, to either side.
const MOST_VX: u8 = 15;

const MOST_VY: u8 = 7;

// What S and the lowest bit of vx count for in a word.
const S_PLACE: u16 = 512;

const VX_PLACE: u16 = 16;

const LAST_WORD_BIT: usize = WORD_BITS - 1;

// No front has more words.
const MOST_WORDS: usize = MOST_COLOUR_BLOCKS + MOST_LUMINANCE_BLOCKS;

// Whether a vector lies between −15 and 15, and −7 and 7.
fn in_range(word: BlockWord) -> bool
    ensures { result ≡ in_range word }
{
    word.vx.unsigned_abs() <= MOST_VX && word.vy.unsigned_abs() <= MOST_VY
}

// The ten bits of a word: S, vx in five bits and vy in four, in two's complement.
fn word_number(word: BlockWord) -> u16
    requires { in_range word ≡ true }
    ensures { result ≡ word_number word }
{
    let vx = u16::from(twos_field(VX_HALF, word.vx));
    let vy = u16::from(twos_field(VY_HALF, word.vy));
    S_PLACE * u16::from(word.s) + VX_PLACE * vx + vy
}

// Words whose vectors are in range.
#[derive(Clone, Copy)]
struct RangedWords<'a> {
    words: &'a [BlockWord],
    ghost ranged: { Ranged words.now },
}

impl<'a> RangedWords<'a> {
    // Bit k of the words one after another. After the last word it is 0.
    fn bit(&self, k: usize) -> bool
        ensures { result ≡ words_bit self.now.words.now k }
    {
        let place = LAST_WORD_BIT - k % WORD_BITS;
        self.words
            .get(k / WORD_BITS)
            .is_some_and(|word| (word_number(*word) >> place) % 2 == 1)
    }

    // Byte i of the words.
    fn byte(&self, i: usize) -> u8
        requires { i ≤ 35 }
        ensures { result ≡ words_byte self.now.words.now i }
    {
        byte_of(array::from_fn(|j| self.bit(BYTE_BITS * i + j)))
    }

    // Writes a front: the head byte, and the words with zero bits to the end of the last byte.
    fn write(&self, head: u8, front: &mut [u8])
        requires some { 1 ≤ length front.old }
        requires few { length front.old ≤ 36 }
        ensures { front.new ≡ head ∷ map (words_byte self.now.words.now) (range_with_len 0 (length front.old - 1)) }
    {
        front[0] = head;
        for (i, byte) in front[1..].iter_mut().enumerate() {
            *byte = self.byte(i);
        }
    }
}

// Writes each level as a byte in two's complement.
fn write_levels(levels: &[i8], bytes: &mut [u8])
    requires { length bytes.old ≡ length levels.now }
    ensures { bytes.new ≡ map (twos_field 128) levels.now }
{
    for (i, byte) in bytes.iter_mut().enumerate() {
        *byte = levels[i].cast_unsigned();
    }
}

// A front's words with every vector 0; S stays. After the last word they are 0.
fn still_words(front: Front<'_>) -> [BlockWord; MOST_WORDS]
    ensures { take (blocks front.entry.raster) result ≡ map still (words_read front.entry.raster (front_bytes front.entry)) }
{
    let mut words = [BlockWord::default(); MOST_WORDS];
    let count = front.raster().blocks();
    for (i, word) in words[..count].iter_mut().enumerate() {
        *word = BlockWord {
            vx: 0,
            vy: 0,
            ..front.word_of(FIRST_BLOCK + i)
        };
    }
    words
}

// Writes a front with every vector 0.
fn put_still(front: Front<'_>, buffer: &mut [u8])
    requires { length buffer.old ≡ front_length front.raster }
    ensures { buffer.new ≡ stilled front.entry.raster (front_bytes front.entry) }
{
    let words = still_words(front);
    let count = front.raster().blocks();
    let words = RangedWords {
        words: &words[..count],
    };
    words.write(front.head_byte(), buffer);
}

// Writes a front, under Stop with every vector 0.
fn put_front(raster: Raster, stop: bool, front: &[u8], buffer: &mut [u8])
    requires whole { length front.now ≡ front_length raster }
    requires room { length buffer.old ≡ front_length raster }
    ensures { buffer.new ≡ front_written raster stop front.now }
{
    if stop {
        put_still(Front::over(raster, front), buffer);
    } else {
        buffer.copy_from_slice(front);
    }
}

// Writes a front into a buffer of its length, under Stop with every vector 0. A refusal leaves the buffer
// as it was.
pub fn write_front(
    raster: Raster,
    stop: bool,
    front: &[u8],
    buffer: &mut [u8],
) -> Result<(), Refusal>
    ensures verdict { result ≡ result_and (count_test (front_length raster) (length front.now)) (count_test (front_length raster) (length buffer.old)) }
    ensures held { buffer.new ≡ held_after result (front_written raster stop front.now) buffer.old }
{
    count_fits(raster.front_length(), front.len())?;
    count_fits(raster.front_length(), buffer.len())?;
    put_front(raster, stop, front, buffer);
    Ok(())
}

// Refuses another count than the layout's.
pub fn count_fits(count: usize, given: usize) -> Result<(), Refusal>
    ensures { result ≡ count_test count given }
{
    if given == count {
        Ok(())
    } else {
        Err(Refusal::WrongLength(given))
    }
}

// Refuses the first block whose vector is out of range.
fn vectors_fit(words: &[BlockWord]) -> Result<(), Refusal>
    requires { length words.now ≤ 28 }
    ensures { result ≡ in_order (range_test words.now) 2 (length words.now) }
{
    in_order(FIRST_BLOCK, words.len(), |block| {
        if !in_range(words[block - FIRST_BLOCK]) {
            return Err(Refusal::VectorRange(block));
        }
        Ok(())
    })
}

// Writes a record: the head, the words and the levels.
fn put_record(raster: Raster, head: Head, words: RangedWords<'_>, levels: &[i8], buffer: &mut [u8])
    requires levels { length levels.now ≡ 8 * line_levels raster }
    requires room { length buffer.old ≡ record_length raster }
    ensures { buffer.new ≡ record_bytes raster head words.entry.words.now levels.now }
{
    let (front, behind) = buffer.split_at_mut(raster.front_length());
    words.write(u8::from(head), front);
    write_levels(levels, behind);
}

// Writes the record of a block-line into a buffer of its length. The words are those of the blocks 2 to
// K + 1, and the levels those of the eight lines, line after line. A refusal leaves the buffer as it was.
pub fn write_record(
    raster: Raster,
    head: Head,
    words: &[BlockWord],
    levels: &[i8],
    buffer: &mut [u8],
) -> Result<(), Refusal>
    ensures verdict { result ≡ writable raster words.now levels.now buffer.old }
    ensures read_back { result ≡ Ok tt → LevelBytes levels.now → Holds raster head words.now levels.now buffer.new }
    ensures held { buffer.new ≡ held_after result (record_bytes raster head words.now levels.now) buffer.old }
{
    count_fits(raster.blocks(), words.len())?;
    count_fits(BLOCK_LINE_LINES * raster.line_levels(), levels.len())?;
    count_fits(raster.record_length(), buffer.len())?;
    vectors_fit(words)?;
    put_record(raster, head, RangedWords { words }, levels, buffer);
    Ok(())
}

// Reading what was written gives what was given, and writing what was read the same bytes.
pub fn records_survive()
    ensures read_back { RecordsReadBack }
    ensures written_back { RecordBytesWrittenBack }
{}
