// Frames out of bytes, decoded or coded.
use codec::decoder::Idle;

pub mod code;
pub mod decode;

// A decoded frame: its parity, the planes that its opening named, the number of its held pels, and the
// end as the frame left it.
#[derive(Drop)]
pub struct Decoded {
    pub end: Idle,
    pub parity: u8,
    pub planes: u8,
    pub held: usize,
}
