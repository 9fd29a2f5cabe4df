// The codec's table of quantizing characteristics.
ghost use Rattle.std.specs.Prelude.{◌≡◌, ◌≤◌, length};
ghost use Rattle.quantizer.specs.Table.{row_of, step_of, top_of, shortfall_of, number_of, value_of, largest_top, largest_shortfall};
ghost use Rattle.quantizer.specs.Rows.{table_lawful};
ghost use Rattle.std.proofs.Common.{rules};

use crate::characteristic::Characteristic;
use crate::set::CharacteristicSet;
use crate::sign::with_sign;

// One step: the largest size of error that falls in it, and the output value.
#[derive(Clone, Copy)]
struct Step(u8, u8);

const Q0_STEPS: [Step; 29] = [
    Step(1, 0),
    Step(2, 1),
    Step(3, 2),
    Step(5, 3),
    Step(7, 5),
    Step(9, 7),
    Step(11, 10),
    Step(14, 13),
    Step(17, 16),
    Step(20, 19),
    Step(23, 22),
    Step(26, 25),
    Step(29, 28),
    Step(32, 31),
    Step(37, 35),
    Step(42, 40),
    Step(48, 45),
    Step(54, 51),
    Step(60, 57),
    Step(67, 64),
    Step(74, 71),
    Step(81, 78),
    Step(88, 85),
    Step(95, 92),
    Step(102, 99),
    Step(109, 106),
    Step(116, 113),
    Step(123, 120),
    Step(255, 127),
];

const Q1_STEPS: [Step; 29] = [
    Step(3, 0),
    Step(6, 3),
    Step(8, 6),
    Step(10, 9),
    Step(13, 12),
    Step(16, 15),
    Step(19, 18),
    Step(22, 21),
    Step(26, 24),
    Step(30, 28),
    Step(34, 32),
    Step(39, 37),
    Step(44, 42),
    Step(49, 47),
    Step(54, 52),
    Step(59, 57),
    Step(64, 62),
    Step(69, 67),
    Step(74, 72),
    Step(79, 77),
    Step(84, 82),
    Step(89, 87),
    Step(94, 92),
    Step(99, 97),
    Step(104, 102),
    Step(109, 107),
    Step(116, 113),
    Step(123, 120),
    Step(255, 127),
];

const Q2_STEPS: [Step; 26] = [
    Step(4, 0),
    Step(8, 5),
    Step(12, 10),
    Step(17, 15),
    Step(22, 20),
    Step(27, 25),
    Step(32, 30),
    Step(37, 35),
    Step(42, 40),
    Step(47, 45),
    Step(52, 50),
    Step(57, 55),
    Step(62, 60),
    Step(67, 65),
    Step(72, 70),
    Step(77, 75),
    Step(82, 80),
    Step(87, 85),
    Step(92, 90),
    Step(97, 95),
    Step(102, 100),
    Step(107, 105),
    Step(112, 110),
    Step(118, 115),
    Step(124, 121),
    Step(255, 127),
];

const Q3_STEPS: [Step; 19] = [
    Step(6, 0),
    Step(11, 7),
    Step(17, 14),
    Step(24, 21),
    Step(31, 28),
    Step(38, 35),
    Step(45, 42),
    Step(52, 49),
    Step(59, 56),
    Step(66, 63),
    Step(73, 70),
    Step(80, 77),
    Step(87, 84),
    Step(94, 91),
    Step(101, 98),
    Step(108, 105),
    Step(115, 112),
    Step(123, 119),
    Step(255, 127),
];

// The steps of a characteristic, from the step of number 0 to that of the top number.
fn row(q: Characteristic) -> &'static [Step]
    ensures { result.now ≡ row_of q }
{
    match q {
        Characteristic::Q0 => &Q0_STEPS,
        Characteristic::Q1 => &Q1_STEPS,
        Characteristic::Q2 => &Q2_STEPS,
        Characteristic::Q3 => &Q3_STEPS,
    }
}

// How many steps end below an error of this size: the number of the step it falls in.
fn step_of(row: &[Step], size: u8) -> u8
    requires { length row.now ≤ 255 }
    ensures { result ≡ step_of row.now size }
{
    row.iter().map(|Step(end, _)| u8::from(*end < size)).sum()
}

// The codec's table of quantizing characteristics: four rows of steps, the same for either sign.
#[derive(Clone, Copy, PartialEq, Eq, Hash, Debug, Default)]
pub struct StandardSet;

impl CharacteristicSet for StandardSet {
    const LARGEST_TOP: u8 = 28;

    const LARGEST_SHORTFALL: u8 = 6;

    ghost tops = { λ _ q. top_of q };

    ghost shortfalls = { λ _ q. shortfall_of q };

    ghost numbers = { λ _ q. number_of q };

    ghost values = { λ _ q. value_of q };

    ghost LARGEST_TOP = { largest_top };

    ghost LARGEST_SHORTFALL = { largest_shortfall };

    ghost lawful = { λ s q. table_lawful q };

    ghost top_bounded = { Prim.search rules };

    ghost top_reached = { Prim.search rules };

    ghost shortfall_bounded = { Prim.search rules };

    ghost shortfall_reached = { Prim.search rules };

    fn top(&self, q: Characteristic) -> u8 {
        row(q).len() as u8 - 1
    }

    fn shortfall(&self, q: Characteristic) -> u8 {
        match q {
            Characteristic::Q0 | Characteristic::Q1 => 3,
            Characteristic::Q2 => 4,
            Characteristic::Q3 => 6,
        }
    }

    fn number(&self, q: Characteristic, error: i16) -> Option<i8> {
        // the largest error has the largest size that a byte holds
        let size = u8::try_from(error.unsigned_abs()).ok()?;
        Some(with_sign(error < 0, step_of(row(q), size)))
    }

    fn value(&self, q: Characteristic, number: i8) -> Option<i8> {
        let Step(_, output) = row(q).get(usize::from(number.unsigned_abs()))?;
        Some(with_sign(number < 0, *output))
    }
}
