// Bits of a byte, and numbers in two's complement.
ghost use Rattle.std.specs.Prelude.{◌≡◌, ◌+◌, ◌*◌, ◌^◌, ◌<◌, ◌≤◌, length, slice_index};
ghost use Rattle.format.specs.Bits.{bit_at, stream_bit, field_of, twos_complement, level_of};

pub(crate) const BYTE_BITS: usize = 8;

const LAST_BIT: usize = BYTE_BITS - 1;

// The bits of two bytes.
const PAIR_BITS: usize = 2 * BYTE_BITS;

// Bit k of a byte, the least significant at 0.
pub(crate) fn bit_at(k: u32, byte: u8) -> bool
    requires { k < 8 }
    ensures { result ≡ bit_at k byte }
{
    (byte >> k) % 2 == 1
}

// Bit k of a stream of bytes, each with its most significant bit first.
pub(crate) fn stream_bit(bytes: &[u8], k: usize) -> bool
    requires { k < 8 * length bytes.now }
    ensures { result ≡ stream_bit bytes.now k }
{
    bit_at((LAST_BIT - k % BYTE_BITS) as u32, bytes[k / BYTE_BITS])
}

// A byte of a stream, or 0 beyond its end.
fn byte_at(bytes: &[u8], i: usize) -> u8
    ensures { result ≡ slice_index bytes.now i }
{
    bytes.get(i).copied().unwrap_or(0)
}

// The number that some bits of a stream make, the most significant first. They lie in two bytes.
pub(crate) fn field(bytes: &[u8], start: usize, count: usize) -> u8
    requires { count ≤ 8 }
    ensures value { result ≡ field_of bytes.now start count }
    ensures bound { result < 2 ^ count }
{
    let first = start / BYTE_BITS;
    let pair = u32::from(u16::from_be_bytes([byte_at(bytes, first), byte_at(bytes, first + 1)]));
    let after = PAIR_BITS - start % BYTE_BITS - count;
    ((pair >> after) % (1 << count)) as u8
}

// The number that a field stands for in two's complement. Half of the field's numbers are below 0.
pub(crate) fn twos_complement(half: u8, field: u8) -> i8
    requires half_bound { half ≤ 128 }
    requires field_bound { field < 2 * half }
    ensures { result ≡ twos_complement half field }
{
    if field < half {
        field as i8
    } else {
        (i16::from(field) - 2 * i16::from(half)) as i8
    }
}

// The level number that a byte stands for.
pub fn signed(byte: u8) -> i8
    ensures { result ≡ level_of byte }
{
    byte.cast_signed()
}
