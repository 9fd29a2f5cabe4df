// A frame coded from bytes: its modes, then what is given for each block-line, then the finish. The
// header and the records go out.
ghost use Rattle.std.specs.Prelude.{◌≡◌, ◌≤◌, map, length, take};
ghost use Rattle.codec.specs.Decoder.{block_lines, idle_of, frame_of};
ghost use Rattle.format.specs.Bits.{level_of};
ghost use Rattle.framelines.specs.Frames.{frame_bytes, records_as};
ghost use Rattle.framelines.specs.CodedFrames.{input_length, input_bytes, opening_from, block_line_from, records_coded, code_frame, frame_coded_as};

use crate::frames::decode::{frame_bytes, piece};
use codec::coder::{Finished, Idle, Open};
use codec::memories::EndMemories;
use format::bits::signed;
use format::header::HEADER_BYTES;
use format::raster::Raster;
use format::raster::measures::{
    BLOCK_LINE_LINES, BLOCK_PELS, BURST_PELS, MOST_COLOUR_BLOCKS, MOST_LUMINANCE_BLOCKS,
};
use format::refusal::Refusal;
use format::writer::count_fits;
use quantizer::set::CharacteristicSet;

// The bytes of a frame's modes: FM1, BC, FM2 and FC.
const MODE_BYTES: usize = 4;
// The pels of a block-line of the largest raster.
const MOST_PELS: usize = BLOCK_LINE_LINES
    * (BURST_PELS + BLOCK_PELS * (MOST_COLOUR_BLOCKS + MOST_LUMINANCE_BLOCKS));

// The bytes given for a block-line: Stop, head and words, and its pels.
pub fn input_length(raster: Raster) -> usize
    ensures value { result ≡ input_length raster }
    ensures bound { result ≤ 3677 }
{
    1 + raster.front_length() + BLOCK_LINE_LINES * raster.width()
}

// The bytes given for a whole frame: its modes and its block-lines.
pub fn input_bytes(raster: Raster) -> usize
    ensures { result ≡ input_bytes raster }
{
    MODE_BYTES + 2 * raster.block_lines() * input_length(raster)
}

// The pels in bytes, each in two's complement. After the last pel they are 0.
fn pels_in(bytes: &[u8]) -> [i8; MOST_PELS]
    requires { length bytes.now ≤ 3640 }
    ensures { take (length bytes.now) result ≡ map level_of bytes.now }
{
    let mut pels = [0i8; MOST_PELS];
    for (i, byte) in bytes.iter().enumerate() {
        pels[i] = signed(*byte);
    }
    pels
}

// Opens a frame from its modes.
fn open_frame<M: EndMemories>(
    end: Idle,
    m: &mut M,
    modes: &[u8],
    buffer: &mut [u8],
) -> Result<Open, Refusal>
    ensures { (records_as result, buffer.new, M.signal m.new) ≡ opening_from (idle_of end) modes.now buffer.old (M.signal m.old) }
{
    let [fm1, bc, fm2, fc] = modes else {
        return Err(Refusal::WrongLength(modes.len()));
    };
    Ok(end.open(m, *fm1, *bc, *fm2, *fc, buffer)?)
}

// Codes a block-line from what is given for it, and writes its record.
#[tactic(auto, unfolding(crate::specs::CodedFrames::block_line_from))]
fn code_block_line<M: EndMemories, S: CharacteristicSet>(
    end: Open,
    m: &mut M,
    set: &S,
    raster: Raster,
    bytes: &[u8],
    buffer: &mut [u8],
) -> Result<Open, Refusal>
    ensures { (records_as result, buffer.new, M.signal m.new) ≡ block_line_from (S.tops set.now) (S.values set.now) (S.numbers set.now) raster (frame_of end) bytes.now buffer.old (M.signal m.old) }
{
    count_fits(input_length(raster), bytes.len())?;
    let first = 1 + raster.front_length();
    let count = BLOCK_LINE_LINES * raster.width();
    let pels = pels_in(&bytes[first..]);
    Ok(end.block_line(
        m,
        set,
        &bytes[1..first],
        bytes[0] != 0,
        &pels[0..count],
        buffer,
    )?)
}

// Codes the block-lines of a frame, one after another.
fn code_block_lines<M: EndMemories, S: CharacteristicSet>(
    end: Open,
    m: &mut M,
    set: &S,
    raster: Raster,
    bytes: &[u8],
    out: &mut [u8],
) -> Result<Open, Refusal>
    requires { length out.old ≡ frame_bytes raster }
    ensures { (records_as result, out.new, M.signal m.new) ≡ records_coded (S.tops set.now) (S.values set.now) (S.numbers set.now) raster bytes.now 4 5 (block_lines raster) (frame_of end) out.old (M.signal m.old) }
{
    let input = input_length(raster);
    let output = raster.record_length();
    let mut open = end;
    for i in 0..2 * raster.block_lines() {
        let given = piece(bytes, MODE_BYTES + i * input, input);
        let to = HEADER_BYTES + i * output;
        open = code_block_line(open, m, set, raster, given, &mut out[to..to + output])?;
    }
    Ok(open)
}

// Codes one frame from bytes into as many as go out for it. Bytes that stop inside the frame are refused
// by the length of the piece that they stop in.
pub fn code_frame<M: EndMemories, S: CharacteristicSet>(
    end: Idle,
    m: &mut M,
    set: &S,
    bytes: &[u8],
    out: &mut [u8],
) -> Result<Finished, Refusal>
    ensures { (frame_coded_as result, out.new, M.signal m.new) ≡ code_frame (S.tops set.now) (S.values set.now) (S.numbers set.now) bytes.now (idle_of end) out.old (M.signal m.old) }
{
    let raster = end.raster();
    count_fits(frame_bytes(raster), out.len())?;
    let modes = piece(bytes, 0, MODE_BYTES);
    let open = open_frame(end, m, modes, &mut out[0..HEADER_BYTES])?;
    let coded = code_block_lines(open, m, set, raster, bytes, out)?;
    Ok(coded.finish(m)?)
}
