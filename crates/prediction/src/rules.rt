// The rules of one pel, each from the values that it reads to its result. No memory is in sight here.
ghost use Rattle.std.specs.Prelude.{◌≡◌};
ghost use Rattle.prediction.specs.Rules.{mean, luminance, interpolation, repetition, intraframe, s1, x1, s2, prediction, nearer, sum};
ghost use Rattle.prediction.specs.Rules.{adaptive, forced, burst, uncoded, skipped, towards, new_background, byte};

use crate::marks::{Around, BackgroundControl, Marks, MarksAround, NO_MARKS, Sum, Worked};
use std::cmp::Ordering;

// Half the sum, rounded up: (a + b + 1) / 2, rounded down, also below zero.
pub fn mean(a: i8, b: i8) -> i8
    ensures { result ≡ mean a b }
{
    ((i16::from(a) + i16::from(b) + 1) >> 1) as i8
}

// An omitted luminance pel: the mean of two means, each rounded by itself.
pub fn luminance(left: i8, right: i8, above: i8, below: i8) -> i8
    ensures { result ≡ luminance left right above below }
{
    mean(mean(left, right), mean(above, below))
}

// An omitted pel: luminance from its four neighbours, colour from its neighbours on the line.
pub fn interpolation(is_luminance: bool, left: i8, right: i8, above: i8, below: i8) -> i8
    ensures { result ≡ interpolation is_luminance left right above below }
{
    if is_luminance {
        luminance(left, right, above, below)
    } else {
        mean(left, right)
    }
}

// A repeated pel, from the near and the far line of the field before.
pub fn repetition(is_luminance: bool, second_field: bool, near: i8, far: i8) -> i8
    ensures { result ≡ repetition is_luminance second_field near far }
{
    if is_luminance {
        mean(near, far)
    } else if second_field {
        near
    } else {
        far
    }
}

// I: the pel before, or the one before that where the pel before is omitted.
pub fn intraframe(before: i8, second: i8, marks: Marks) -> i8
    ensures { result ≡ intraframe before second marks }
{
    if marks.omitted { second } else { before }
}

// S1: at least two of the three R1 marks of the line above are set.
pub fn s1(m: MarksAround) -> bool
    ensures { result ≡ s1 m }
{
    let right = m.right.r1;
    let above = m.above.r1;
    let left = m.left.r1;
    (right & above) | (above & left) | (right & left)
}

// X1: the background where S1 is set, otherwise the moved picture.
pub fn x1(a: Around) -> i8
    ensures { result ≡ x1 a }
{
    if s1(a.marks) { a.background } else { a.moved }
}

// S2: R2 is set at the pel before and at the pel above, each by its stand-in where it is omitted.
pub fn s2(m: MarksAround) -> bool
    ensures { result ≡ s2 m }
{
    let before = if m.before.omitted {
        m.second.r2
    } else {
        m.before.r2
    };
    let above = if m.above.omitted {
        m.right.r2 & m.left.r2
    } else {
        m.above.r2
    };
    before & above
}

// The prediction: I where S2 is set, otherwise X1.
pub fn prediction(a: Around) -> i8
    ensures { result ≡ prediction a }
{
    if s2(a.marks) { a.intraframe } else { x1(a) }
}

// Whether a lies nearer to y than b does.
pub fn nearer(y: i8, a: i8, b: i8) -> bool
    ensures { result ≡ nearer y a b }
{
    y.abs_diff(a) < y.abs_diff(b)
}

// The sum of prediction and level value, held to a pel's range, and whether that altered it.
pub fn sum(prediction: i8, value: i8) -> Sum
    ensures { result ≡ sum prediction value }
{
    Sum {
        pel: prediction.saturating_add(value),
        held: prediction.checked_add(value).is_none(),
    }
}

// A coded pel outside forced lines and the burst.
pub fn adaptive(a: Around, value: i8) -> Worked
    ensures { result ≡ adaptive a value }
{
    let sum = sum(prediction(a), value);
    sum.with_marks(Marks {
        r1: nearer(sum.pel, a.background, a.moved),
        r2: nearer(sum.pel, a.intraframe, x1(a)),
        ..NO_MARKS
    })
}

// A coded pel of a forced line, predicted by I: R1 is 0 and R2 is 1.
pub fn forced(i: i8, value: i8) -> Worked
    ensures { result ≡ forced i value }
{
    sum(i, value).with_marks(Marks {
        r2: true,
        ..NO_MARKS
    })
}

// A burst pel outside forced lines, predicted by Y a frame before: both marks are 0.
pub fn burst(y: i8, value: i8) -> Worked
    ensures { result ≡ burst y value }
{
    sum(y, value).with_marks(NO_MARKS)
}

// A pel that is not coded and not omitted by subsampling: clamped, repeated or of a reset line.
pub fn uncoded(x: i8) -> Worked
    ensures { result ≡ uncoded x }
{
    Worked {
        x,
        marks: NO_MARKS,
        held: false,
    }
}

// A pel that subsampling omits: the line memory takes 0, and the mark memory that it was omitted.
pub fn skipped() -> Worked
    ensures { result ≡ skipped }
{
    Worked {
        x: 0,
        marks: Marks {
            omitted: true,
            ..NO_MARKS
        },
        held: false,
    }
}

// One level from b towards y.
pub fn towards(y: i8, b: i8) -> i8
    ensures { result ≡ towards y b }
{
    match b.cmp(&y) {
        Ordering::Less => b + 1,
        Ordering::Equal => b,
        Ordering::Greater => b - 1,
    }
}

// What the background becomes where Y enters the picture, with Y a frame before and the background so far.
pub fn new_background(is_forced: bool, control: BackgroundControl, y: i8, before: i8, b: i8) -> i8
    ensures { result ≡ new_background is_forced control y before b }
{
    if is_forced || !control.brc {
        y
    } else if !control.buc && y.abs_diff(before) <= 1 {
        towards(y, b)
    } else {
        b
    }
}

// A pel as a two's complement byte.
pub fn byte(y: i8) -> u8
    ensures { result ≡ byte y }
{
    y.cast_unsigned()
}
