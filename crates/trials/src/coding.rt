// A frame coded from bytes: what goes out for a picture of nothing, what a decoder makes of a busy one, and
// where bytes of a wrong count are refused.
use crate::streams::{FRAME, HEADER, PLAIN, RECORD, begin, restless, shown};
use codec::{coder, decoder};
use format::header::HEADER_BYTES;
use format::raster::Raster;
use format::refusal::Refusal;
use framelines::cells::Cells;
use framelines::frames::code::code_frame;
use framelines::frames::decode::decode_frame;
use quantizer::table::StandardSet;
use std::alloc::{AllocError, Global};
use std::test::Fail;

// What is given for a block-line, and for a frame.
const GIVEN_LINE: usize = 963;

const GIVEN: usize = 4 + 2 * GIVEN_LINE;
// What stands before the pels of a block-line: no Stop, the head and nine bytes of words with no vector.
const FRONT: [u8; 11] = [0, PLAIN, 0, 0, 0, 0, 0, 0, 0, 0, 0];

// A frame to code with no mode set, whose pels go up and down from a seed by so many steps.
fn given(seed: u8, steps: u8) -> [u8; GIVEN] {
    let mut bytes = restless::<GIVEN>(seed).map(|x| x & steps);
    let (modes, lines) = bytes.split_at_mut(4);
    begin(modes, &HEADER[1..]);
    for line in lines.chunks_exact_mut(GIVEN_LINE) {
        begin(line, &FRONT);
    }
    bytes
}

// The parity of a frame coded over cleared memories, or its refusal.
fn coded(heap: Global, bytes: &[u8], out: &mut [u8]) -> Result<Result<u8, Refusal>, AllocError> {
    let mut cells = Cells::cleared(heap, Raster::bench())?;
    let end = coder::Idle::new(Raster::bench());
    let answer = code_frame(end, &mut cells.rings(), &StandardSet, bytes, out);
    Ok(answer.map(|finished| finished.parity))
}

// Parity, planes and held pels of a frame decoded over cleared memories.
fn decoded(heap: Global, bytes: &[u8]) -> Result<(u8, u8, usize), Fail> {
    let mut cells = Cells::cleared(heap, Raster::bench())?;
    let end = decoder::Idle::new(Raster::bench());
    let frame = decode_frame(end, &mut cells.rings(), &StandardSet, bytes)?;
    Ok((frame.parity, frame.planes, frame.held))
}

#[test]
fn picture_of_nothing(rt: HostRuntime) -> Result<(), Fail> {
    let mut out = [1; FRAME];
    assert_eq!(rt; coded(rt.alloc(), &given(0, 0), &mut out)?, Ok(0xff));
    assert_eq!(rt; &out[..HEADER_BYTES], &HEADER[..]);
    assert_eq!(rt; out[HEADER_BYTES], PLAIN);
    assert_eq!(rt; out[HEADER_BYTES + RECORD], PLAIN);
    let ones = out[HEADER_BYTES + 1..]
        .iter()
        .filter(|byte| **byte != 0)
        .count();
    assert_eq!(rt; ones, 1, "nothing else goes out but the second head");
    Ok(())
}

#[test]
fn coded_then_decoded(rt: HostRuntime) -> Result<(), Fail> {
    let mut out = [0; FRAME];
    let parity = coded(rt.alloc(), &given(5, 0x7f), &mut out)??;
    assert_ne!(rt;
        out[HEADER_BYTES + RECORD - 1],
        0,
        "the last pel of a block-line has a level"
    );
    assert_eq!(rt; decoded(rt.alloc(), &out)?, (parity, 0, 0));
    Ok(())
}

#[test]
fn wrong_counts(rt: HostRuntime) -> Result<(), Fail> {
    let bytes = given(5, 0x7f);
    let mut out = [0; FRAME];
    for (count, refusal) in [
        (3, (4, 3)),
        (4, (4, 0)),
        (5, (4, 1)),
        (4 + GIVEN_LINE, (4, 0)),
        (GIVEN - 1, (4, 962)),
    ] {
        let answer = coded(rt.alloc(), &bytes[..count], &mut out)?;
        assert_eq!(rt; answer.map_err(shown), Err(refusal), "of {count} bytes");
    }
    let answer = coded(rt.alloc(), &bytes, &mut out[1..])?;
    assert_eq!(rt; answer.map_err(shown), Err((4, 1880)));
    Ok(())
}
