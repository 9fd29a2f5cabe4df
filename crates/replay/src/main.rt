// replay: decodes many streams of frames from standard input, each over cleared memories, and prints the
// lines that framelog prints for each. A stream comes after its raster in three bytes (colour blocks,
// luminance blocks, block-lines in a field) and its length in four, the most significant first.
#![tactic(auto)]

use codec::decoder::Idle;
use format::raster::Raster;
use framelines::cells::Cells;
use framelines::entry::Entry;
use framelines::frames::decode::{frame_bytes, log_frame};
use quantizer::table::StandardSet;
use std::io::Read;

// No more frames of a stream are looked at.
const MOST_FRAMES: usize = 1000;
// No more streams are looked at.
const MOST_STREAMS: usize = 1_000_000;

// The lines of one stream, over cleared memories.
fn replay(rt: &HostRuntime, raster: Raster, stream: &[u8]) -> anyhow::Result<()> {
    let mut cells = Cells::cleared(rt.alloc(), raster)?;
    let mut memories = cells.rings();
    let mut end = Idle::new(raster);
    for (number, bytes) in (1..=MOST_FRAMES).zip(stream.chunks(frame_bytes(raster))) {
        let logged = log_frame(end, &mut memories, &StandardSet, number, bytes);
        rt.println(logged.entry)?;
        let Some(next) = logged.end else {
            break;
        };
        end = next;
    }
    Ok(())
}

// One stream, whose raster may be refused.
fn replay_on(rt: &HostRuntime, sizes: [u8; 3], stream: &[u8]) -> anyhow::Result<()> {
    let [colour, luminance, block_lines] = sizes.map(usize::from);
    match Raster::new(colour, luminance, block_lines) {
        Ok(raster) => replay(rt, raster, stream),
        Err(refusal) => {
            rt.println(Entry::Refused(refusal))?;
            Ok(())
        }
    }
}

fn run(rt: &HostRuntime) -> anyhow::Result<()> {
    let mut input = Vec::new(rt.alloc());
    rt.stdin().read_to_end(&mut input)?;
    let mut rest = input.as_slice();
    for number in 1..=MOST_STREAMS {
        let [colour, luminance, block_lines, a, b, c, d, streams @ ..] = rest else {
            break;
        };
        let length = u32::from_be_bytes([*a, *b, *c, *d]) as usize;
        let (stream, others) = streams.split_at(length.min(streams.len()));
        println!(rt; "STREAM {number}")?;
        replay_on(rt, [*colour, *luminance, *block_lines], stream)?;
        rest = others;
    }
    Ok(())
}

fn main(rt: HostRuntime) -> anyhow::Result<()> {
    run(&rt)
}
