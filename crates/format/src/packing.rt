// Bits packed into bytes, the most significant first.
ghost use Rattle.std.specs.Prelude.{◌≡◌, ◌*◌, ◌≤◌, unsigned_abs};
ghost use Rattle.format.specs.Packing.{byte_of, twos_field};

// The byte that eight bits make.
pub(crate) fn byte_of(bits: [bool; 8]) -> u8
    ensures { result ≡ byte_of bits }
{
    bits.iter()
        .fold(0, |byte, bit| (byte << 1) | u8::from(*bit))
}

// The field that stands for a number in two's complement. Half of the field's numbers are below 0.
pub(crate) fn twos_field(half: u8, value: i8) -> u8
    requires half_bound { half ≤ 128 }
    requires value_bound { unsigned_abs value ≤ 2 * half }
    ensures { result ≡ twos_field half value }
{
    if value < 0 {
        (2 * i16::from(half) + i16::from(value)) as u8
    } else {
        value as u8
    }
}
