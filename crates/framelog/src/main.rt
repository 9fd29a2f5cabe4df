// framelog: decodes frames of the bench raster from standard input and prints a line for each.
#![tactic(auto)]

use codec::decoder::Idle;
use format::raster::Raster;
use framelines::cells::Cells;
use framelines::frames::decode::{frame_bytes, log_frame};
use framelines::input::read_frame;
use quantizer::table::StandardSet;

// No more frames are looked at.
const MOST_FRAMES: usize = 1000;

// Decodes frame after frame over cleared memories, and prints their lines.
fn run(rt: &HostRuntime) -> anyhow::Result<()> {
    let raster = Raster::bench();
    let mut cells = Cells::cleared(rt.alloc(), raster)?;
    let mut memories = cells.rings();
    let mut buffer = vec![in rt.alloc(); 0u8; frame_bytes(raster)]?;
    let mut input = rt.stdin();
    let mut end = Idle::new(raster);
    for number in 1..=MOST_FRAMES {
        let came = read_frame(&mut input, &mut buffer)?;
        if came == 0 {
            break;
        }
        let logged = log_frame(end, &mut memories, &StandardSet, number, &buffer[..came]);
        rt.println(logged.entry)?;
        let Some(next) = logged.end else {
            break;
        };
        end = next;
    }
    Ok(())
}

fn main(rt: HostRuntime) -> anyhow::Result<()> {
    run(&rt)
}
