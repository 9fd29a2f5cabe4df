// The way of a block-line from one room to the other.
use crate::memories::{Receiver, Rooms};
use crate::picture::{BLOCK_LINE_PELS, paint};
use crate::script::{Accident, FRONT_BYTES, Field, RECORD_BYTES, Scene, write_front};
use anyhow::Context;
use codec::{coder, decoder};
use format::refusal::Refusal;
use quantizer::table::StandardSet;

// The level that accidents alter: that of pel 60 in line 3.
const STRUCK: usize = 298;

// A level that no characteristic of the standard set has, and two that all have.
const BEYOND_TOP: u8 = 100;

const ONE_LEVEL: u8 = 5;

const ANOTHER_LEVEL: u8 = 2;

// The frame in hand at both ends.
#[derive(Drop)]
pub struct Frames {
    pub coder: coder::Open,
    pub decoder: decoder::Open,
}

// A block-line that both ends have worked, and the refusal of a record that had to be sent again.
#[derive(Drop)]
pub struct Passed {
    pub frames: Frames,
    pub refused: Option<Refusal>,
}

fn strike(accident: Accident, record: &mut [u8; RECORD_BYTES]) {
    match accident {
        Accident::Nothing => {}
        Accident::Unusable => record[STRUCK] = BEYOND_TOP,
        Accident::Altered => {
            record[STRUCK] = if record[STRUCK] == ONE_LEVEL {
                ANOTHER_LEVEL
            } else {
                ONE_LEVEL
            }
        }
    }
}

// Hands a record to the decoder as it arrives; one that is refused is sent again.
fn deliver(
    frame: decoder::Open,
    receiver: &mut Receiver<'_>,
    accident: Accident,
    record: [u8; RECORD_BYTES],
) -> anyhow::Result<(decoder::Open, Option<Refusal>)> {
    let mut arrived = record;
    strike(accident, &mut arrived);
    match frame.block_line(receiver, &StandardSet, &arrived) {
        Ok(next) => Ok((next, None)),
        Err(first) => {
            let next = first
                .end
                .block_line(receiver, &StandardSet, &record)
                .ok()
                .context("the decoder refused a record as it was written")?;
            Ok((next, Some(first.refusal)))
        }
    }
}

impl Rooms<'_> {
    // Codes the block-line of a field and decodes what arrives of it.
    pub fn pass(
        &mut self,
        frames: Frames,
        scene: &Scene,
        number: u8,
        field: Field,
    ) -> anyhow::Result<Passed> {
        let mut blank = [0; RECORD_BYTES];
        write_front(self.raster, scene, field, &mut blank)
            .ok()
            .context("the script has no such front")?;
        let mut picture = [0; BLOCK_LINE_PELS];
        paint(number, field, &mut picture);
        let mut record = [0; RECORD_BYTES];
        let coder = frames
            .coder
            .block_line(
                &mut self.sender,
                &StandardSet,
                &blank[..FRONT_BYTES],
                scene.stop,
                &picture,
                &mut record,
            )
            .ok()
            .context("the coder refused the script")?;
        let accident = match field {
            Field::First => scene.accident,
            Field::Second => Accident::Nothing,
        };
        let (decoder, refused) = deliver(frames.decoder, &mut self.receiver, accident, record)?;
        Ok(Passed {
            frames: Frames { coder, decoder },
            refused,
        })
    }
}
