// A frame out of bytes: a header, then a record for each block-line, then the finish.
ghost use Rattle.std.specs.Prelude.{◌≡◌, ◌*◌, ◌≤◌};
ghost use Rattle.codec.specs.Decoder.{block_lines, idle_of, frame_of};
ghost use Rattle.format.specs.Raster.{record_length};
ghost use Rattle.framelines.specs.Frames.{frame_bytes, piece, records, records_as, decode_frame, decoded_as, logged, logged_as};

use crate::entry::{Entry, Logged};
use crate::frames::Decoded;
use codec::decoder::{Idle, Open};
use codec::memories::EndMemories;
use format::header::HEADER_BYTES;
use format::raster::Raster;
use format::refusal::Refusal;
use quantizer::set::CharacteristicSet;

// The bytes of a whole frame: its header and the records of its block-lines.
pub fn frame_bytes(raster: Raster) -> usize
    ensures { result ≡ frame_bytes raster }
{
    HEADER_BYTES + 2 * raster.block_lines() * raster.record_length()
}

// A piece of the bytes, cut short where they stop inside it.
pub fn piece(bytes: &[u8], start: usize, length: usize) -> &[u8]
    ensures { result.now ≡ piece bytes.now start length }
{
    let rest = bytes.get(start..).unwrap_or(&[]);
    rest.get(..length).unwrap_or(rest)
}

// The records of a frame, one after another.
fn take_records<M: EndMemories, S: CharacteristicSet>(
    end: Open,
    m: &mut M,
    set: &S,
    raster: Raster,
    bytes: &[u8],
) -> Result<Open, Refusal>
    ensures { (records_as result, M.signal m.new) ≡ records (S.tops set.now) (S.values set.now) bytes.now (record_length raster) 5 (block_lines raster) (frame_of end) (M.signal m.old) }
{
    let length = raster.record_length();
    let mut open = end;
    for i in 0..2 * raster.block_lines() {
        let record = piece(bytes, HEADER_BYTES + i * length, length);
        open = open.block_line(m, set, record)?;
    }
    Ok(open)
}

// Decodes one frame. Bytes that stop inside it are refused by the length of the piece that they stop in.
pub fn decode_frame<M: EndMemories, S: CharacteristicSet>(
    end: Idle,
    m: &mut M,
    set: &S,
    bytes: &[u8],
) -> Result<Decoded, Refusal>
    ensures { (decoded_as result, M.signal m.new) ≡ decode_frame (S.tops set.now) (S.values set.now) bytes.now (idle_of end) (M.signal m.old) }
{
    let raster = end.raster();
    let opened = end.open(m, piece(bytes, 0, HEADER_BYTES))?;
    let planes = opened.planes;
    let open = take_records(opened.end, m, set, raster, bytes)?;
    let finished = open.finish(m)?;
    Ok(Decoded {
        end: finished.end,
        parity: finished.parity,
        planes,
        held: finished.held,
    })
}

// Decodes frame `number` of a log, and tells its line.
pub fn log_frame<M: EndMemories, S: CharacteristicSet>(
    end: Idle,
    m: &mut M,
    set: &S,
    number: usize,
    bytes: &[u8],
) -> Logged
    ensures { (logged_as result, M.signal m.new) ≡ logged number (decode_frame (S.tops set.now) (S.values set.now) bytes.now (idle_of end) (M.signal m.old)) }
{
    match decode_frame(end, m, set, bytes) {
        Ok(frame) => Logged {
            end: Some(frame.end),
            entry: Entry::Frame {
                number,
                parity: frame.parity,
                planes: frame.planes,
                held: frame.held,
            },
        },
        Err(refusal) => Logged {
            end: None,
            entry: Entry::Refused(refusal),
        },
    }
}
