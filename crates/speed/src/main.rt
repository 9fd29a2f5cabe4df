// speed: decodes the standard-raster frames of standard input as often as its argument says, each time
// from cleared memories. The lines of the frames go to standard output, the speed to standard error.
#![tactic(auto)]

use codec::decoder::Idle;
use format::raster::Raster;
use framelines::cells::{Cells, Rings};
use framelines::frames::decode::{frame_bytes, log_frame};
use quantizer::table::StandardSet;
use std::io::Read;
use std::time::{Duration, Instant};
use timing::{Measured, passes};

// No more frames of a stream are looked at.
const MOST_FRAMES: usize = 100_000;

// Decodes the frames of a stream, prints their lines if asked, and answers how many were decoded.
fn decode(
    rt: &HostRuntime,
    memories: &mut Rings<'_>,
    raster: Raster,
    stream: &[u8],
    show: bool,
) -> anyhow::Result<usize> {
    let mut end = Idle::new(raster);
    let mut decoded = 0;
    for (number, bytes) in (1..=MOST_FRAMES).zip(stream.chunks(frame_bytes(raster))) {
        let logged = log_frame(end, memories, &StandardSet, number, bytes);
        if show {
            rt.println(logged.entry)?;
        }
        let Some(next) = logged.end else {
            break;
        };
        end = next;
        decoded = number;
    }
    Ok(decoded)
}

// One pass over cleared memories: the frames decoded and the time they took.
fn pass(
    rt: &HostRuntime,
    raster: Raster,
    stream: &[u8],
    show: bool,
) -> anyhow::Result<(usize, Duration)> {
    let mut cells = Cells::cleared(rt.alloc(), raster)?;
    let mut memories = cells.rings();
    let start = Instant::now(rt)?;
    let frames = decode(rt, &mut memories, raster, stream, show)?;
    Ok((frames, start.elapsed(rt)?))
}

fn run(rt: &HostRuntime) -> anyhow::Result<()> {
    let raster = Raster::standard();
    let mut input = Vec::new(rt.alloc());
    rt.stdin().read_to_end(&mut input)?;
    let mut measured = Measured::none_of(raster.frame());
    for turn in 0..passes(rt)? {
        let (frames, time) = pass(rt, raster, &input, turn == 0)?;
        measured = measured.more(frames, time);
    }
    let bytes = 2 * raster.picture_reach() + raster.line_reach() + 3 * raster.mark_reach();
    eprintln!(rt; "proved: {measured}, {bytes} bytes of memories")?;
    Ok(())
}

fn main(rt: HostRuntime) -> anyhow::Result<()> {
    run(&rt)
}
