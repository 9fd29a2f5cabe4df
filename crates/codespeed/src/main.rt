// codespeed: codes six frames of the standard raster as often as its argument says, each time from
// cleared memories. The lines of the frames go to standard output, the speed to standard error.
#![tactic(auto)]

use anyhow::ensure;
use codec::coder::{Idle, Open};
use format::raster::Raster;
use format::refusal::Refusal;
use framelines::cells::{Cells, Rings};
use given::{BlockLine, FRAMES, Frame, frames};
use quantizer::table::StandardSet;
use std::time::{Duration, Instant};
use timing::{Measured, passes};

mod given;

// Where a hash begins, and by what each byte multiplies it.
const HASH_START: u32 = 2_166_136_261;

const HASH_FACTOR: u32 = 16_777_619;

// Codes the block-lines of a frame.
fn code_lines(
    end: Open,
    memories: &mut Rings<'_>,
    lines: &mut [BlockLine],
) -> Result<Open, Refusal> {
    let mut open = end;
    for line in lines {
        open = open.block_line(
            memories,
            &StandardSet,
            &line.front,
            false,
            &line.picture,
            &mut line.record,
        )?;
    }
    Ok(open)
}

// Codes one frame, and keeps its parity.
fn code_frame(end: Idle, memories: &mut Rings<'_>, frame: &mut Frame) -> Result<Idle, Refusal> {
    let open = end.open(memories, frame.fm1, 0, frame.fm2, 0, &mut frame.header)?;
    let finished = code_lines(open, memories, &mut frame.lines)?.finish(memories)?;
    frame.parity = finished.parity;
    Ok(finished.end)
}

// Codes the frames one after another.
fn code(memories: &mut Rings<'_>, raster: Raster, all: &mut [Frame]) -> Result<(), Refusal> {
    let mut end = Idle::new(raster);
    for frame in all {
        end = code_frame(end, memories, frame)?;
    }
    Ok(())
}

// One pass over cleared memories, and the time that the coding took.
fn pass(rt: &HostRuntime, raster: Raster, all: &mut [Frame]) -> anyhow::Result<Duration> {
    let mut cells = Cells::cleared(rt.alloc(), raster)?;
    let mut memories = cells.rings();
    let start = Instant::now(rt)?;
    ensure!(
        code(&mut memories, raster, all).is_ok(),
        "a frame is refused"
    );
    Ok(start.elapsed(rt)?)
}

// The hash of some bytes more.
fn hashed(start: u32, bytes: &[u8]) -> u32 {
    bytes.iter().fold(start, |sum, byte| {
        (sum ^ u32::from(*byte)).wrapping_mul(HASH_FACTOR)
    })
}

// The hash of a frame as it goes out: its header, then its records.
fn frame_hash(frame: &Frame) -> u32 {
    let header = hashed(HASH_START, &frame.header);
    frame
        .lines
        .iter()
        .fold(header, |sum, line| hashed(sum, &line.record))
}

// A line for each frame.
fn show(rt: &HostRuntime, all: &[Frame]) -> anyhow::Result<()> {
    for (number, frame) in (1..=FRAMES).zip(all) {
        println!(rt;
            "FRAME {number} PARITY {:02X} SUM {:08X}",
            frame.parity,
            frame_hash(frame)
        )?;
    }
    Ok(())
}

fn run(rt: &HostRuntime) -> anyhow::Result<()> {
    let raster = Raster::standard();
    let mut all = frames(rt.alloc(), raster)?;
    let mut measured = Measured::none_of(raster.frame());
    for turn in 0..passes(rt)? {
        let time = pass(rt, raster, &mut all)?;
        measured = measured.more(all.len(), time);
        if turn == 0 {
            show(rt, &all)?;
        }
    }
    eprintln!(rt; "proved: {measured}")?;
    Ok(())
}

fn main(rt: HostRuntime) -> anyhow::Result<()> {
    run(&rt)
}
