// What a set of quantizing characteristics is.
ghost use Rattle.std.specs.Prelude.{◌≡◌, ℕ, ◌≤◌, ℤ};
ghost use Rattle.quantizer.specs.Lawful.{Lawful, within, largest_error};
ghost use Rattle.quantizer.specs.declared.characteristic.Characteristic.{Characteristic};

use crate::characteristic::Characteristic;

// Errors run from -255 to 255.
pub const LARGEST_ERROR: u16 = 255;

// Four characteristics, each of which gives an error a level number and a level number a value.
//
// `Lawful` has the rules that hold of each characteristic. A set may hold data of its own: what it
// means is asked of the set at hand, and the constants are those of its kind.
pub trait CharacteristicSet {
    // The largest top number of a set of this kind.
    const LARGEST_TOP: u8;
    // The largest shortfall of a set of this kind.
    const LARGEST_SHORTFALL: u8;

    ghost LARGEST_TOP: { ℕ };

    ghost LARGEST_SHORTFALL: { ℕ };

    ghost tops: { Self → Characteristic → ℕ };

    ghost shortfalls: { Self → Characteristic → ℕ };

    ghost numbers: { Self → Characteristic → ℤ → ℤ };

    ghost values: { Self → Characteristic → ℤ → ℤ };

    // The top number: level numbers run from its opposite up to it.
    fn top(&self, q: Characteristic) -> u8
        ensures { result ≡ tops self.now q };

    // How far a value may fall short of the error it stands for.
    fn shortfall(&self, q: Characteristic) -> u8
        ensures { result ≡ shortfalls self.now q };

    // The level number of an error from -255 to 255. No other error has one.
    fn number(&self, q: Characteristic, error: i16) -> Option<i8>
        ensures { result ≡ within largest_error (numbers self.now q) error };

    // The value of a level number from -top to top. No other number has one.
    fn value(&self, q: Characteristic, number: i8) -> Option<i8>
        ensures { result ≡ within (tops self.now q) (values self.now q) number };

    // The constant `LARGEST_TOP`, which no set of this kind exceeds.
    fn top_limit() -> u8
        ensures { result ≡ LARGEST_TOP }
    {
        Self::LARGEST_TOP
    }

    // The constant `LARGEST_SHORTFALL`, which no set of this kind exceeds.
    fn shortfall_limit() -> u8
        ensures { result ≡ LARGEST_SHORTFALL }
    {
        Self::LARGEST_SHORTFALL
    }

    ghost lawful: { (s : Self) (q : Characteristic) → Lawful (tops s q) (shortfalls s q) (numbers s q) (values s q) };

    // The largest top number of a set is that of its kind, and so is the largest shortfall.
    ghost top_bounded: { (s : Self) (q : Characteristic) → tops s q ≤ LARGEST_TOP };

    ghost top_reached: { (s : Self) → (q : Characteristic) × (tops s q ≡ LARGEST_TOP) };

    ghost shortfall_bounded: { (s : Self) (q : Characteristic) → shortfalls s q ≤ LARGEST_SHORTFALL };

    ghost shortfall_reached: { (s : Self) → (q : Characteristic) × (shortfalls s q ≡ LARGEST_SHORTFALL) };
}
