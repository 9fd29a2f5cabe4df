// The line-up characteristics, for tests of circuits.
ghost use Rattle.std.specs.Prelude.{◌≡◌};
ghost use Rattle.quantizer.specs.LineUp.{line_up_top, line_up_shortfall, line_up_number, line_up_value};
ghost use Rattle.std.proofs.Common.{rules};

use crate::characteristic::Characteristic;
use crate::set::{CharacteristicSet, LARGEST_ERROR};

// All four characteristics are alike: each number is its own value, and an error is its own number,
// held to -127 .. 127.
#[derive(Clone, Copy, PartialEq, Eq, Hash, Debug, Default)]
pub struct LineUpSet;

impl CharacteristicSet for LineUpSet {
    const LARGEST_TOP: u8 = 127;

    const LARGEST_SHORTFALL: u8 = 3;

    ghost tops = { λ _ _. line_up_top };

    ghost shortfalls = { λ _ _. line_up_shortfall };

    ghost numbers = { λ _ _. line_up_number };

    ghost values = { λ _ _. line_up_value };

    ghost LARGEST_TOP = { line_up_top };

    ghost LARGEST_SHORTFALL = { line_up_shortfall };

    ghost lawful = { Prim.search rules };

    ghost top_bounded = { Prim.search rules };

    ghost top_reached = { Prim.search rules };

    ghost shortfall_bounded = { Prim.search rules };

    ghost shortfall_reached = { Prim.search rules };

    fn top(&self, _q: Characteristic) -> u8 {
        Self::LARGEST_TOP
    }

    fn shortfall(&self, _q: Characteristic) -> u8 {
        Self::LARGEST_SHORTFALL
    }

    fn number(&self, _q: Characteristic, error: i16) -> Option<i8> {
        let top = i16::from(Self::LARGEST_TOP);
        (error.unsigned_abs() <= LARGEST_ERROR).then_some(error.clamp(-top, top) as i8)
    }

    fn value(&self, _q: Characteristic, number: i8) -> Option<i8> {
        (number.unsigned_abs() <= Self::LARGEST_TOP).then_some(number)
    }
}
