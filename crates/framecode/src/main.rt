// framecode: codes frames of the bench raster from standard input and writes them to standard output, as
// framelog reads them. A refusal ends it, and is told on standard error.
#![tactic(auto)]

use codec::coder::Idle;
use format::raster::Raster;
use framelines::cells::Cells;
use framelines::entry::Entry;
use framelines::frames::code::{code_frame, input_bytes};
use framelines::frames::decode::frame_bytes;
use framelines::input::read_frame;
use quantizer::table::StandardSet;
use std::io::Write;

// No more frames are looked at.
const MOST_FRAMES: usize = 1000;

// Codes frame after frame over cleared memories, and writes them.
fn run(rt: &HostRuntime) -> anyhow::Result<()> {
    let raster = Raster::bench();
    let mut cells = Cells::cleared(rt.alloc(), raster)?;
    let mut memories = cells.rings();
    let mut buffer = vec![in rt.alloc(); 0u8; input_bytes(raster)]?;
    let mut out = vec![in rt.alloc(); 0u8; frame_bytes(raster)]?;
    let mut input = rt.stdin();
    let mut output = rt.stdout();
    let mut end = Idle::new(raster);
    for _ in 0..MOST_FRAMES {
        let came = read_frame(&mut input, &mut buffer)?;
        if came == 0 {
            break;
        }
        match code_frame(end, &mut memories, &StandardSet, &buffer[..came], &mut out) {
            Ok(finished) => end = finished.end,
            Err(refusal) => {
                rt.eprintln(Entry::Refused(refusal))?;
                break;
            }
        }
        output.write_all(&out)?;
    }
    Ok(())
}

fn main(rt: HostRuntime) -> anyhow::Result<()> {
    run(&rt)
}
