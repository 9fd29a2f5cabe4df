// The parts of a block-line's record: its head, its block words and the levels of a line.
ghost use Rattle.std.specs.Prelude.{◌≡◌};
ghost use Rattle.format.specs.Record.{head_of, head_in};
ghost use Rattle.format.specs.RecordWriting.{head_byte};

use crate::bits::bit_at;
use crate::packing::byte_of;

// The first byte of a record. FRP false repeats the block-line, IFM false forces it.
#[derive(Clone, Copy, PartialEq, Eq, Debug)]
pub struct Head {
    pub qc1: bool,
    pub qc2: bool,
    pub ifm: bool,
    pub frp: bool,
}

// The head in a byte, whatever its last four bits.
impl From<u8> for Head {
    ghost from_gives = { λ byte head. head ≡ head_of byte };

    fn from(byte: u8) -> Head {
        Head {
            qc1: bit_at(7, byte),
            qc2: bit_at(6, byte),
            ifm: bit_at(5, byte),
            frp: bit_at(4, byte),
        }
    }
}

// The head byte is QC1 QC2 IFM FRP 1 1 1 1.
impl From<Head> for u8 {
    ghost from_gives = { λ head byte. byte ≡ head_byte head };

    fn from(head: Head) -> u8 {
        byte_of([
            head.qc1, head.qc2, head.ifm, head.frp, true, true, true, true,
        ])
    }
}

// The head in the first byte. Without one it is that of a byte 0.
#[tactic(auto, unfolding(crate::specs::Record::head_in))]
pub fn head_in(bytes: &[u8]) -> Head
    ensures { result ≡ head_in bytes.now }
{
    Head::from(bytes.first().copied().unwrap_or(0))
}

// Half of the numbers of the fields of vx and vy. They are those below 0.
pub(crate) const VX_HALF: u8 = 16;

pub(crate) const VY_HALF: u8 = 8;

// What a record says of one block: whether it subsamples, and its vector.
#[derive(Clone, Copy, PartialEq, Eq, Debug, Default)]
pub struct BlockWord {
    pub s: bool,
    pub vx: i8,
    pub vy: i8,
}

// The level bytes of one line, 1 to 8 in the block-line. The first is that of pel 4.
#[derive(Clone, Copy, PartialEq, Eq, Debug)]
pub struct Levels<'a> {
    pub line: usize,
    pub bytes: &'a [u8],
}
