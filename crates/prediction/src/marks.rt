// The marks that a pel leaves for the pels after it.
ghost use Rattle.std.specs.Prelude.{◌≡◌};

// R1: the background was nearer than the moved picture. R2: the pel before was nearer than the
// interframe value. `omitted`: subsampling omitted the pel.
#[derive(Clone, Copy, PartialEq, Eq, Hash, Debug, Default)]
pub struct Marks {
    pub r1: bool,
    pub r2: bool,
    pub omitted: bool,
}

// The marks of a pel that leaves none.
pub const NO_MARKS: Marks = Marks {
    r1: false,
    r2: false,
    omitted: false,
};

// The marks that a pel reads: of the pel before and the one before that, and of the line above the
// pel to the right, the pel itself and the pel to the left, at delays 1, 2, w − 1, w and w + 1.
#[derive(Clone, Copy, PartialEq, Eq, Hash, Debug, Default)]
pub struct MarksAround {
    pub before: Marks,
    pub second: Marks,
    pub right: Marks,
    pub above: Marks,
    pub left: Marks,
}

// The values that a coded pel reads: I, the intraframe value, M, the picture moved by the block's
// vector, B, the background a frame before, and the marks around it.
#[derive(Clone, Copy, PartialEq, Eq, Hash, Debug)]
pub struct Around {
    pub intraframe: i8,
    pub moved: i8,
    pub background: i8,
    pub marks: MarksAround,
}

// The sum of prediction and level value as a pel, and whether it had to be held to a pel's range.
#[derive(Clone, Copy, PartialEq, Eq, Hash, Debug)]
pub struct Sum {
    pub pel: i8,
    pub held: bool,
}

impl Sum {
    // The pel as it is worked, with the marks that follow from it.
    pub(crate) fn with_marks(self, marks: Marks) -> Worked
        ensures { result ≡ record { x = self.pel; marks = marks; held = self.held } }
    {
        Worked {
            x: self.pel,
            marks,
            held: self.held,
        }
    }
}

// A pel as it is worked: what the line memory and the mark memory take, and whether its sum was held.
#[derive(Clone, Copy, PartialEq, Eq, Hash, Debug)]
pub struct Worked {
    pub x: i8,
    pub marks: Marks,
    pub held: bool,
}

// What a frame's header says of the background: BRC and BUC, both active at 0.
#[derive(Clone, Copy, PartialEq, Eq, Hash, Debug)]
pub struct BackgroundControl {
    pub brc: bool,
    pub buc: bool,
}
