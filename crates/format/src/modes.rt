// The modes: which pels are omitted, and which lines are forced.
ghost use Rattle.std.specs.Prelude.{◌≡◌};
ghost use Rattle.format.specs.Modes.{block_of, subsampled, off_quincunx, omits_pel, forced_pair, forced_line};

use crate::raster::measures::BLOCK_PELS;
use crate::words::{BlockWord, Head};

// How far the first pel of a line lies from the start of the block before the burst.
const BLOCK_LEAD: usize = 24;

// The block of a pel. The burst is block 1.
pub fn block_of(pel: usize) -> usize
    ensures { result ≡ block_of pel }
{
    pel / BLOCK_PELS + (pel % BLOCK_PELS + BLOCK_LEAD) / BLOCK_PELS
}

// Whether a block is subsampled: where SBC is 0 or S is 1, unless the block-line is repeated.
pub fn subsamples(sbc: bool, head: Head, word: BlockWord) -> bool
    ensures { result ≡ subsampled sbc head word }
{
    head.frp && (!sbc || word.s)
}

// Whether subsampling omits the pel: the numbers of pel and line are not both odd or both even.
pub fn off_quincunx(line: usize, pel: usize) -> bool
    ensures { result ≡ off_quincunx line pel }
{
    line % 2 != pel % 2
}

// Whether a pel is omitted, in a block that is subsampled or not: a repeated block-line omits all its pels.
pub fn omits(head: Head, thinned: bool, line: usize, pel: usize) -> bool
    ensures { result ≡ omits_pel head thinned line pel }
{
    !head.frp || (thinned && off_quincunx(line, pel))
}

// Which two lines are forced where DRM is 1: lines 1 and 2 are pair 1.
fn forced_pair(crm1: bool, crm2: bool) -> usize
    ensures { result ≡ forced_pair crm1 crm2 }
{
    match (crm1, crm2) {
        (false, false) => 1,
        (false, true) => 2,
        (true, false) => 3,
        (true, true) => 4,
    }
}

// Whether a line of the block-line is forced.
pub fn forced(drm: bool, crm1: bool, crm2: bool, head: Head, line: usize) -> bool
    ensures { result ≡ forced_line drm crm1 crm2 head line }
{
    !head.ifm && (!drm || line.div_ceil(2) == forced_pair(crm1, crm2))
}
