// The value that stands for an error.
ghost use Rattle.std.specs.Prelude.{◌≡◌};
ghost use Rattle.quantizer.specs.Lawful.{within, largest_error};

use crate::characteristic::Characteristic;
use crate::set::CharacteristicSet;

// The value of the number of an error from -255 to 255. No other error has one.
pub fn quantized<S: CharacteristicSet>(set: &S, q: Characteristic, error: i16) -> Option<i8>
    ensures { result ≡ within largest_error (λ e. S.values set.now q (S.numbers set.now q e)) error }
{
    let number = set.number(q, error)?;
    set.value(q, number)
}
