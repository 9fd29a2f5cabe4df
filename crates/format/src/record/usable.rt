// Whether a record is usable: the tests of its front and its levels.
ghost use Rattle.std.specs.Prelude.{◌≡◌, ◌-◌, ◌≤◌, true, length, if◌then◌else◌, unsigned_abs, Ok};
ghost use Rattle.format.specs.Bits.{level_of};
ghost use Rattle.format.specs.Modes.{block_of};
ghost use Rattle.format.specs.Raster.{width};
ghost use Rattle.format.specs.Record.{has_line};
ghost use Rattle.format.specs.RecordOver.{bytes_of};
ghost use Rattle.format.specs.Usable.{thinned, Largest, AllWithin, line_test, levels_test, usable};
ghost use Rattle.format.specs.Sound.{Sound};

use crate::bits::signed;
use crate::modes::{block_of, omits, subsamples};
use crate::order::in_order;
use crate::raster::measures::{
    BLOCK_LINE_LINES, BLOCK_PELS, BURST_PELS, FIRST_PEL, MOST_COLOUR_BLOCKS, MOST_LUMINANCE_BLOCKS,
    UNCODED_PELS,
};
use crate::record::Record;
use crate::refusal::Refusal;

// No line has more levels.
const MOST_LEVELS: usize = BURST_PELS + BLOCK_PELS * (MOST_COLOUR_BLOCKS + MOST_LUMINANCE_BLOCKS)
    - UNCODED_PELS;

// A block begins at each pel whose number leaves this remainder by the pels of a block.
const BLOCK_START: usize = 8;

// How large the level in a byte is, below 0 or above.
fn level_size(byte: u8) -> u8
    ensures { result ≡ unsigned_abs (level_of byte) }
{
    signed(byte).unsigned_abs()
}

// How large a level may be: 0 on an omitted pel, otherwise the top.
fn largest_level(top: u8, omitted: bool) -> u8
    ensures { result ≡ (if omitted then 0 else top) }
{
    if omitted { 0 } else { top }
}

// Whether each level is at most as large as it may be.
fn all_within(levels: &[u8], largest: &[u8]) -> bool
    requires { length levels.now ≤ length largest.now }
    ensures so { result ≡ true → AllWithin levels.now largest.now }
    ensures otherwise { AllWithin levels.now largest.now → result ≡ true }
{
    levels.iter().zip(largest).fold(
        true,
        |within, (byte, most)| within & (level_size(*byte) <= *most),
    )
}

// The test of the levels of one line, under a frame's SBC and the top of its levels.
#[derive(Clone, Copy)]
struct LineTest<'a> {
    record: Record<'a>,
    sbc: bool,
    top: u8,
    line: usize,
    ghost has: { has_line line ≡ true },
}

impl<'a> LineTest<'a> {
    // Whether the block of a pel is subsampled, given whether that of the pel before is. A block's word is
    // read where the block begins.
    #[tactic(auto, using(crate::proofs::Verdicts::thinned_past_burst, crate::proofs::RasterLaws::width_is))]
    fn thinned_at(&self, before: bool, pel: usize) -> bool
        requires low { 4 ≤ pel }
        requires within { pel ≤ width self.now.record.raster }
        requires known { before ≡ thinned self.now.record.raster self.now.sbc (bytes_of self.now.record) (block_of (pel - 1)) }
        ensures { result ≡ thinned self.now.record.raster self.now.sbc (bytes_of self.now.record) (block_of pel) }
    {
        if pel % BLOCK_PELS == BLOCK_START {
            subsamples(
                self.sbc,
                self.record.head(),
                self.record.word_of(block_of(pel)),
            )
        } else {
            before
        }
    }

    // How large each level may be.
    fn largest_levels(&self) -> [u8; MOST_LEVELS]
        ensures { Largest self.now.record.raster self.now.sbc self.now.top (bytes_of self.now.record) self.now.line result }
    {
        let head = self.record.head();
        let count = self.record.raster.line_levels();
        let mut largest = [0; MOST_LEVELS];
        let mut thinned = false;
        for (i, size) in largest[..count].iter_mut().enumerate() {
            let pel = i + FIRST_PEL;
            thinned = self.thinned_at(thinned, pel);
            *size = largest_level(self.top, omits(head, thinned, self.line, pel));
        }
        largest
    }

    // Refuses the first level that is larger than it may be.
    fn first_fault(&self, largest: &[u8; MOST_LEVELS]) -> Result<(), Refusal>
        requires { Largest self.now.record.raster self.now.sbc self.now.top (bytes_of self.now.record) self.now.line largest.now }
        ensures { result ≡ line_test self.now.record.raster self.now.sbc self.now.top (bytes_of self.now.record) self.now.line }
    {
        let levels = self.record.line(self.line);
        let place = (self.line - 1) * self.record.raster.width();
        in_order(FIRST_PEL, levels.len(), |pel| {
            let i = pel - FIRST_PEL;
            if level_size(levels[i]) > largest[i] {
                return Err(Refusal::LevelValue(place + pel));
            }
            Ok(())
        })
    }

    // Tests the levels, given how large each may be. A fault is looked for where there is one.
    #[tactic(auto, using(crate::proofs::RasterLaws::width_is))]
    fn fits(&self, largest: &[u8; MOST_LEVELS]) -> Result<(), Refusal>
        requires { Largest self.now.record.raster self.now.sbc self.now.top (bytes_of self.now.record) self.now.line largest.now }
        ensures { result ≡ line_test self.now.record.raster self.now.sbc self.now.top (bytes_of self.now.record) self.now.line }
    {
        if all_within(self.record.line(self.line), largest) {
            Ok(())
        } else {
            self.first_fault(largest)
        }
    }
}

impl<'a> Record<'a> {
    // The test of a line that has levels.
    fn line_test(&self, sbc: bool, top: u8, line: usize) -> LineTest<'a>
        requires { has_line line ≡ true }
        ensures over { result.record ≡ self.now }
        ensures modes { (result.sbc ≡ sbc) × (result.top ≡ top) }
        ensures at { result.line ≡ line }
    {
        LineTest {
            record: *self,
            sbc,
            top,
            line,
        }
    }

    // Refuses the first level that does not fit, line by line. What is omitted is the same in all odd lines,
    // and in all even ones.
    fn levels_fit(&self, sbc: bool, top: u8) -> Result<(), Refusal>
        ensures { result ≡ levels_test self.now.raster sbc top (bytes_of self.now) }
    {
        let odd = self.line_test(sbc, top, 1).largest_levels();
        let even = self.line_test(sbc, top, 2).largest_levels();
        in_order(1, BLOCK_LINE_LINES, |line| {
            let largest = if line % 2 == 1 { &odd } else { &even };
            self.line_test(sbc, top, line).fits(largest)
        })
    }

    // Gives the first refusal that applies to the record, under a frame's SBC and the top of its levels.
    pub fn usable(&self, sbc: bool, top: u8) -> Result<(), Refusal>
        ensures verdict { result ≡ usable self.now.raster sbc top (bytes_of self.now) }
        ensures sound { result ≡ Ok tt → Sound self.now.raster sbc top (bytes_of self.now) }
    {
        self.front().usable(sbc)?;
        self.levels_fit(sbc, top)
    }
}
