// Small frames of the bench raster for the trials.
ghost use Rattle.std.specs.Prelude.{◌≤◌, length};

use format::header::HEADER_BYTES;
use format::refusal::Refusal;

pub(crate) const PICTURE: usize = 4299;

pub(crate) const LINE: usize = 238;

pub(crate) const MARKS: usize = 120;

pub(crate) const RECORD: usize = 938;

pub(crate) const FRAME: usize = HEADER_BYTES + 2 * RECORD;
// A header with no mode set, and a parity that is right at a new end.
pub(crate) const HEADER: [u8; HEADER_BYTES] = [0xff, 0xf8, 0x00, 0xff, 0x00];
// The head of a record with no mode set, of characteristic 0.
pub(crate) const PLAIN: u8 = 0x3f;

// The front of a record with no mode set: its head, and nine bytes of words with no vector.
const FRONT: [u8; 10] = [PLAIN, 0, 0, 0, 0, 0, 0, 0, 0, 0];

// The number and the place of a refusal.
pub(crate) fn shown(refusal: Refusal) -> (u8, usize) {
    (refusal.number(), refusal.place())
}

// A record with no vector and no level.
pub(crate) fn blank_record() -> [u8; RECORD] {
    let mut bytes = [0; RECORD];
    bytes[0] = PLAIN;
    bytes
}

// Bytes that go up and down, from a seed.
pub(crate) fn restless<const N: usize>(seed: u8) -> [u8; N] {
    let mut bytes = [0; N];
    let mut x = seed;
    for byte in &mut bytes {
        x = x.wrapping_mul(77).wrapping_add(29);
        *byte = x;
    }
    bytes
}

// Writes a front over the first bytes.
pub(crate) fn begin(bytes: &mut [u8], front: &[u8])
    requires { length front.now ≤ length bytes.now }
{
    bytes[..front.len()].copy_from_slice(front);
}

// A frame whose levels go up and down, from a seed, within the top number 28.
pub(crate) fn busy_frame(seed: u8) -> [u8; FRAME] {
    let mut bytes = restless::<FRAME>(seed).map(|x| x % 29);
    let (header, records) = bytes.split_at_mut(HEADER.len());
    begin(header, &HEADER);
    for record in records.chunks_exact_mut(RECORD) {
        begin(record, &FRONT);
    }
    bytes
}
