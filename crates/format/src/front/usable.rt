// Whether a front is usable: the tests of its head and its words.
ghost use Rattle.std.specs.Prelude.{◌≡◌, length};
ghost use Rattle.format.specs.Front.{front_length};
ghost use Rattle.format.specs.RecordOver.{front_bytes};
ghost use Rattle.format.specs.RecordWriting.{count_test};
ghost use Rattle.format.specs.Usable.{forced_repeat, stray_word, words_test, fill_test, bad_vector, vectors_test, front_usable};
ghost use Rattle.std.specs.Result.{result_and};

use crate::bits::{BYTE_BITS, field};
use crate::front::Front;
use crate::order::in_order;
use crate::raster::Raster;
use crate::raster::measures::{FIRST_BLOCK, WORD_BITS};
use crate::refusal::Refusal;
use crate::words::{BlockWord, Head, VX_HALF, VY_HALF};
use crate::writer::count_fits;

// The vectors that are out of range.
const BAD_VX: i8 = -(VX_HALF as i8);

const BAD_VY: i8 = -(VY_HALF as i8);

// Whether the head forces and repeats the block-line at once.
fn forced_repeat(head: Head) -> bool
    ensures { result ≡ forced_repeat head }
{
    !head.ifm && !head.frp
}

// Whether a word has S without SBC, or is not 0 in a repeated block-line.
fn stray_word(sbc: bool, head: Head, word: BlockWord) -> bool
    ensures { result ≡ stray_word sbc head word }
{
    (word.s && !sbc) || (!head.frp && word != BlockWord::default())
}

// Whether a vector is out of range.
fn bad_vector(word: BlockWord) -> bool
    ensures { result ≡ bad_vector word }
{
    word.vx == BAD_VX || word.vy == BAD_VY
}

impl<'a> Front<'a> {
    // Refuses the first block whose word is stray.
    pub(crate) fn words_fit(&self, sbc: bool) -> Result<(), Refusal>
        ensures { result ≡ words_test self.now.raster sbc (front_bytes self.now) }
    {
        let head = self.head();
        in_order(FIRST_BLOCK, self.raster.blocks(), |block| {
            if stray_word(sbc, head, self.word_of(block)) {
                return Err(Refusal::StrayWord(block));
            }
            Ok(())
        })
    }

    // Refuses a bit that is not 0 after the words, to the end of their last byte.
    pub(crate) fn fill_fits(&self) -> Result<(), Refusal>
        ensures { result ≡ fill_test self.now.raster (front_bytes self.now) }
    {
        let used = WORD_BITS * self.raster.blocks();
        let words = self.words();
        if field(words, used, BYTE_BITS * words.len() - used) != 0 {
            return Err(Refusal::StrayWord(0));
        }
        Ok(())
    }

    // Refuses the first block whose vector is out of range.
    pub(crate) fn vectors_fit(&self) -> Result<(), Refusal>
        ensures { result ≡ vectors_test self.now.raster (front_bytes self.now) }
    {
        in_order(FIRST_BLOCK, self.raster.blocks(), |block| {
            if bad_vector(self.word_of(block)) {
                return Err(Refusal::VectorRange(block));
            }
            Ok(())
        })
    }

    // Gives the first refusal that applies to the front, under a frame's SBC.
    pub fn usable(&self, sbc: bool) -> Result<(), Refusal>
        ensures { result ≡ front_usable self.now.raster sbc (front_bytes self.now) }
    {
        if !self.head_marked() {
            return Err(Refusal::FixedHeadBits);
        }
        if forced_repeat(self.head()) {
            return Err(Refusal::ForcedRepeat);
        }
        self.words_fit(sbc)?;
        self.fill_fits()?;
        self.vectors_fit()
    }
}

// Gives the first refusal that applies to a front alone, its length first.
pub fn usable_front(raster: Raster, sbc: bool, bytes: &[u8]) -> Result<(), Refusal>
    ensures { result ≡ result_and (count_test (front_length raster) (length bytes.now)) (front_usable raster sbc bytes.now) }
{
    count_fits(raster.front_length(), bytes.len())?;
    Front::over(raster, bytes).usable(sbc)
}
