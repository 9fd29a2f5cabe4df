// rooms: a meeting of two rooms. A coder and a decoder stand back to back on the bench raster, the coder
// over rings and the decoder over banks, and go through a script: moving pictures in all modes, records
// damaged on the way, and a wholly refreshed frame that heals. A line a frame tells what both ends hold.
#![tactic(auto)]

mod memories;
mod picture;
mod script;
mod transit;

use anyhow::Context;
use codec::{coder, decoder};
use format::header::HEADER_BYTES;
use format::raster::Raster;
use format::refusal::Refusal;
use framelines::cells::Cells;
use law::compare::differing_pels;
use law::law_of_runs;
use memories::{ReceiverCells, Rooms};
use script::{Field, SCRIPT, Scene};
use transit::Frames;

// Both ends between two frames.
#[derive(Drop)]
struct Ends {
    coder: coder::Idle,
    decoder: decoder::Idle,
}

// What a frame came to at both ends.
#[derive(Drop)]
struct Outcome {
    ends: Ends,
    sent: u8,
    found: u8,
    planes: u8,
    held: usize,
    refused: Option<Refusal>,
}

impl Rooms<'_> {
    // One frame of the script, coded and decoded.
    fn meet(&mut self, ends: Ends, scene: &Scene, number: u8) -> anyhow::Result<Outcome> {
        let mut header = [0; HEADER_BYTES];
        let coder = ends
            .coder
            .open(&mut self.sender, scene.fm1, 0, scene.fm2, 0, &mut header)
            .ok()
            .context("the coder refused a header of the script")?;
        let opened = ends
            .decoder
            .open(&mut self.receiver, &header)
            .ok()
            .context("the decoder refused a header as it was written")?;
        let planes = opened.planes;
        let mut frames = Frames {
            coder,
            decoder: opened.end,
        };
        let mut refused = None;
        for field in [Field::First, Field::Second] {
            let passed = self.pass(frames, scene, number, field)?;
            frames = passed.frames;
            refused = refused.or(passed.refused);
        }
        let coded = frames
            .coder
            .finish(&mut self.sender)
            .ok()
            .context("the coder did not finish a whole frame")?;
        let decoded = frames
            .decoder
            .finish(&mut self.receiver)
            .ok()
            .context("the decoder did not finish a whole frame")?;
        Ok(Outcome {
            ends: Ends {
                coder: coded.end,
                decoder: decoded.end,
            },
            sent: coded.parity,
            found: decoded.parity,
            planes,
            held: decoded.held,
            refused,
        })
    }

    // In how many pels of the picture both rooms differ.
    fn differing(&self) -> usize {
        differing_pels(
            &self.sender.picture,
            &self.receiver.picture,
            self.raster.frame(),
        )
    }
}

// The lines of a frame: a record that was refused and sent again, and what both ends came to.
fn tell(
    rt: &HostRuntime,
    number: u8,
    out: &Outcome,
    differ: usize,
    says: &str,
) -> anyhow::Result<()> {
    if let Some(refusal) = out.refused {
        println!(rt; "REFUSED {refusal}, and sent again")?;
    }
    println!(rt;
        "FRAME {number} CODER {:02X} DECODER {:02X} PLANES {:02X} HELD {} DIFFER {differ}: {says}",
        out.sent, out.found, out.planes, out.held
    )?;
    Ok(())
}

// The whole script, over cleared memories in each room.
fn run(rt: &HostRuntime) -> anyhow::Result<()> {
    law_of_runs();
    let raster = Raster::bench();
    let mut near = Cells::cleared(rt.alloc(), raster)?;
    let mut far = ReceiverCells::cleared(rt.alloc(), raster)?;
    let mut rooms = Rooms {
        raster,
        sender: near.rings(),
        receiver: far.memories(),
    };
    let mut ends = Ends {
        coder: coder::Idle::new(raster),
        decoder: decoder::Idle::new(raster),
    };
    for (number, scene) in (1..=u8::MAX).zip(&SCRIPT) {
        let outcome = rooms.meet(ends, scene, number)?;
        tell(rt, number, &outcome, rooms.differing(), scene.says)?;
        ends = outcome.ends;
    }
    Ok(())
}

fn main(rt: HostRuntime) -> anyhow::Result<()> {
    run(&rt)
}
