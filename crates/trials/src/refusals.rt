// The refusals of the calls, and that a refused call leaves all as it was.
use crate::streams::{HEADER, blank_record, shown};
use codec::decoder::{Idle, Open};
use codec::end::Refused;
use codec::memories::EndMemories;
use delay::memory::DelayMemory;
use format::raster::Raster;
use format::refusal::Refusal;
use framelines::cells::{Cells, Rings};
use quantizer::table::StandardSet;
use std::alloc::{AllocError, Global};
use std::process::Abort;
use std::test::Fail;

// What opening answers where the memories from one on, by its place, are an element short.
fn opening(heap: Global, from: usize) -> Result<Result<(), Refusal>, AllocError> {
    let mut cells = Cells::cleared(heap, Raster::bench())?;
    if from <= 1 {
        cells.picture.pop();
    }
    if from <= 2 {
        cells.background.pop();
    }
    if from <= 3 {
        cells.line.pop();
    }
    if from <= 4 {
        cells.marks.pop();
    }
    let opened = Idle::new(Raster::bench()).open(&mut cells.rings(), &HEADER);
    Ok(opened.map(|_| ()).map_err(Refusal::from))
}

#[test]
fn reaches(rt: HostRuntime) -> Result<(), Fail> {
    for place in 1..5usize {
        assert_eq!(rt;
            opening(rt.alloc(), place)?.map_err(shown),
            Err((2, place)),
            "the first that is short counts"
        );
    }
    assert_eq!(rt; opening(rt.alloc(), 5)?, Ok(()));
    Ok(())
}

// The end that a call leaves which has to be refused so.
fn refused<T: Drop, S>(
    rt: &impl Abort,
    call: Result<T, Refused<S>>,
    why: (u8, usize),
) -> Result<S, Fail> {
    match call {
        Ok(_) => Err(Fail::new("the call is not refused")),
        Err(refused) => {
            assert_eq!(rt; shown(refused.refusal), why);
            Ok(refused.end)
        }
    }
}

// What a call answers that has to be taken.
fn taken<T, S: Drop>(call: Result<T, Refused<S>>) -> Result<T, Fail> {
    Ok(call.map_err(Refusal::from)?)
}

// A frame with refused calls at every step: its parity and its held pels.
fn refused_on_the_way(rt: &impl Abort, m: &mut Rings<'_>) -> Result<(u8, usize), Fail> {
    let newest = m.picture.back(1);
    let end = Idle::new(Raster::bench());
    let wrong_bit = end.open(m, &[0xff, 0xf9, 0x00, 0xff, 0x00]);
    let end = refused(rt, wrong_bit, (5, 1))?;
    assert_eq!(rt; m.picture.back(1), newest);
    let opened = taken(end.open(m, &HEADER))?;
    assert_eq!(rt; opened.planes, 0);
    let open = refused(rt, opened.end.finish(m), (3, 0))?;
    last_lines(rt, open, m)
}

fn last_lines<M: EndMemories>(rt: &impl Abort, open: Open, m: &mut M) -> Result<(u8, usize), Fail> {
    let short = open.block_line(m, &StandardSet, &blank_record()[1..]);
    let open = refused(rt, short, (4, 937))?;
    let mut marked = blank_record();
    marked[10] = 1;
    let open = taken(open.block_line(m, &StandardSet, &marked))?;
    let open = taken(open.block_line(m, &StandardSet, &blank_record()))?;
    let third = open.block_line(m, &StandardSet, &blank_record());
    let open = refused(rt, third, (3, 2))?;
    let finished = taken(open.finish(m))?;
    Ok((finished.parity, finished.held))
}

#[test]
fn refused_calls_count_for_nothing(rt: HostRuntime) -> Result<(), Fail> {
    let mut cells = Cells::cleared(rt.alloc(), Raster::bench())?;
    assert_eq!(rt; refused_on_the_way(&rt, &mut cells.rings())?, (0xfe, 0));
    Ok(())
}
