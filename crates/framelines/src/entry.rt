// A line of the log.
ghost use Rattle.std.specs.Prelude.{Some};
ghost use Rattle.framelines.specs.Text.{entry_text};

use codec::decoder::Idle;
use format::refusal::Refusal;
use std::fmt;

// A decoded frame: its number in the stream, its parity, the planes that its opening named and the
// number of its held pels. Or the refusal that ends the log.
#[derive(Clone, Copy)]
pub enum Entry {
    Frame {
        number: usize,
        parity: u8,
        planes: u8,
        held: usize,
    },
    Refused(Refusal),
}

impl fmt::Display for Entry {
    ghost output = { λ e. Some (entry_text e) };

    fn fmt<W: fmt::Write>(&self, f: &mut fmt::Formatter<W>) -> fmt::Result {
        match *self {
            Entry::Frame {
                number,
                parity,
                planes,
                held,
            } => write!(
                f,
                "FRAME {number} PARITY {parity:02X} PLANES {planes:02X} HELD {held}"
            ),
            Entry::Refused(refusal) => write!(f, "REFUSED {refusal}"),
        }
    }
}

// The line of a frame, and the end as the frame left it; after a refusal there is no end to go on with.
#[derive(Drop)]
pub struct Logged {
    pub end: Option<Idle>,
    pub entry: Entry,
}
