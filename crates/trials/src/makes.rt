// A ring and banks with the same contents answer alike, and so do decoders over them.
use crate::streams::{LINE, MARKS, PICTURE, busy_frame};
use codec::decoder::Idle;
use codec::memories::{EndMemories, Memories};
use delay::banks::Banks;
use delay::ring::Ring;
use format::raster::Raster;
use format::refusal::Refusal;
use framelines::cells::Cells;
use framelines::frames::decode::decode_frame;
use prediction::marks::NO_MARKS;
use quantizer::table::StandardSet;
use std::alloc::Global;
use std::test::Fail;

// A quarter of a picture memory, rounded up.
const QUARTER: usize = 1075;

// Two frames, each as its parity and its held pels.
type TwoFrames = [(u8, usize); 2];

fn two_frames<M: EndMemories>(m: &mut M) -> Result<TwoFrames, Refusal> {
    let first = decode_frame(Idle::new(Raster::bench()), m, &StandardSet, &busy_frame(3))?;
    let second = decode_frame(first.end, m, &StandardSet, &busy_frame(8))?;
    Ok([(first.parity, first.held), (second.parity, second.held)])
}

fn over_rings(heap: Global, level: i8) -> Result<TwoFrames, Fail> {
    let mut cells = Cells::cleared(heap, Raster::bench())?;
    cells.picture.fill(level);
    cells.background.fill(level);
    Ok(two_frames(&mut cells.rings())?)
}

// Banks of different lengths for the line memory, and a ring for the background that is only lent.
fn over_banks(level: i8) -> Result<TwoFrames, Fail> {
    let mut a = [level; QUARTER];
    let mut b = [level; QUARTER];
    let mut c = [level; QUARTER];
    let mut d = [level; QUARTER];
    let mut background = [level; PICTURE];
    let mut p = [0; 60];
    let mut q = [0; 70];
    let mut r = [0; 61];
    let mut s = [0; 60];
    let mut marks = [NO_MARKS; MARKS];
    let mut memories = Memories {
        picture: Banks::open(&mut a, &mut b, &mut c, &mut d),
        background: &mut Ring::open(&mut background),
        line: Banks::open(&mut p, &mut q, &mut r, &mut s),
        marks: Ring::open(&mut marks),
    };
    Ok(two_frames(&mut memories)?)
}

#[test]
fn cleared_cells(rt: HostRuntime) -> Result<(), Fail> {
    let mut cells = Cells::cleared(rt.alloc(), Raster::bench())?;
    assert_eq!(rt; cells.picture.len(), PICTURE);
    assert_eq!(rt; cells.background.len(), PICTURE);
    assert_eq!(rt; cells.line.len(), LINE);
    assert_eq!(rt; cells.marks.len(), MARKS);
    assert_eq!(rt; cells.rings().picture_back(PICTURE), 0);
    Ok(())
}

#[test]
fn rings_and_banks(rt: HostRuntime) -> Result<(), Fail> {
    let still = over_rings(rt.alloc(), 0)?;
    let dark = over_rings(rt.alloc(), -90)?;
    assert_eq!(rt; still, over_banks(0)?);
    assert_eq!(rt; dark, over_banks(-90)?);
    assert_ne!(rt; still, dark, "what the memories held counts");
    Ok(())
}
