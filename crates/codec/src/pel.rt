// One pel: where it looks, what follows, what enters the memories.
ghost use Rattle.std.specs.Prelude.{◌≡◌, ◌+◌, ◌-◌, ◌^◌, ◌<◌, ◌≤◌};
ghost use Rattle.codec.specs.Modes.{pel_mode, pel_is_luminance, lag};
ghost use Rattle.prediction.specs.Rules.{intraframe, repetition, new_background};
ghost use Rattle.codec.specs.Signal.{pel_at};
ghost use Rattle.codec.specs.Step.{marks_around, intraframe_at, around, reading_as, worked_from, worked, settled, enter_y, settle_above, enter_worked, enter_pel, step, course};

use crate::memories::EndMemories;
use crate::modes::{Above, BlockModes, FrameModes, LineModes, LineWork, PelMode, Reading, Tally};
use format::modes::off_quincunx;
use format::raster::measures::{BURST_PELS, UNCODED_PELS};
use prediction::marks::{Around, Marks, MarksAround, Worked};
use prediction::rules::{
    adaptive, burst, byte, forced, interpolation, new_background, repetition, skipped, uncoded,
};

impl LineModes {
    // How a pel of the line is worked, in a block that is subsampled or not.
    pub(crate) fn pel_mode(self, subsampled: bool, pel: usize) -> PelMode
        ensures { result ≡ pel_mode self subsampled pel }
    {
        if pel <= UNCODED_PELS {
            PelMode::Clamped
        } else if self.repeated {
            PelMode::Repeated
        } else if subsampled && off_quincunx(self.number, pel) {
            PelMode::Subsampled
        } else if self.forced {
            PelMode::Forced
        } else if pel <= BURST_PELS {
            PelMode::Burst
        } else {
            PelMode::Adaptive
        }
    }
}

// I at the pel in work, by the marks of the pel before.
fn intraframe_by<M: EndMemories>(m: &M, before: Marks) -> i8
    ensures { result ≡ intraframe (pel_at (M.signal m.now).line 1) (pel_at (M.signal m.now).line 2) before }
{
    m.line_back(if before.omitted { 2 } else { 1 })
}

// I at the pel in work.
fn intraframe_at<M: EndMemories>(m: &M) -> i8
    ensures { result ≡ intraframe_at (M.signal m.now) }
{
    intraframe_by(m, m.marks_back(1))
}

// A pel as it is worked, from what it reads and the value of its level.
pub(crate) fn worked_from(reading: Reading, value: i8) -> Worked
    ensures { result ≡ worked_from reading value }
{
    match reading {
        Reading::Uncoded(y) => uncoded(y),
        Reading::Omitted => skipped(),
        Reading::Intraframe(i) => forced(i, value),
        Reading::FrameBefore(y) => burst(y, value),
        Reading::Surroundings(a) => adaptive(a, value),
    }
}

// A worked pel enters the line memory and its marks the mark memory; a held pel is counted.
fn enter_worked<M: EndMemories>(m: &mut M, pel: Worked, tally: Tally) -> Tally
    requires few_held { tally.held < 2 ^ 63 }
    ensures { course (M.signal m.new) result ≡ enter_worked pel (course (M.signal m.old) tally) }
{
    m.enter_worked(pel.x, pel.marks);
    Tally {
        held: tally.held + usize::from(pel.held),
        ..tally
    }
}

impl FrameModes {
    // Luminance follows burst and colour.
    pub(crate) fn is_luminance(self, pel: usize) -> bool
        ensures { result ≡ pel_is_luminance self.g pel }
    {
        pel > self.g.colour
    }

    // How far picture and background lag behind the pel in work: by a line; but in the first line of a
    // field, where nothing enters them, by the pels of that line that were worked so far.
    fn lag(self, above: Above, pel: usize) -> usize
        ensures { result ≡ lag self.g above pel }
    {
        match above {
            Above::Reset => pel.saturating_sub(1),
            Above::Pending { forced: _ } => self.g.width,
        }
    }

    // The marks that the pel in work reads.
    fn marks_around<M: EndMemories>(self, m: &M) -> MarksAround
        ensures { result ≡ marks_around self.g.width (M.signal m.now).marks }
    {
        MarksAround {
            before: m.marks_back(1),
            second: m.marks_back(2),
            right: m.marks_back(self.g.width.saturating_sub(1)),
            above: m.marks_back(self.g.width),
            left: m.marks_back(self.g.width + 1),
        }
    }

    // Y of a pel that lies d back in the line memory, with what stands below it.
    pub(crate) fn settled<M: EndMemories>(
        self,
        m: &M,
        is_luminance: bool,
        d: usize,
        below: i8,
    ) -> i8
        requires near { d ≤ 1000 }
        ensures { result ≡ settled self.g is_luminance d below (M.signal m.now).line (M.signal m.now).marks }
    {
        if m.marks_back(d).omitted {
            let left = m.line_back(d + 1);
            let right = m.line_back(d.saturating_sub(1));
            let above = m.line_back(d + self.g.width);
            interpolation(is_luminance, left, right, above, below)
        } else {
            m.line_back(d)
        }
    }

    // What the background becomes where Y enters the picture. Of Y and the background a frame before it reads
    // what counts: neither in a forced line or where BRC is 0, and Y only where BUC is 0.
    fn background_after<M: EndMemories>(self, m: &M, is_forced: bool, y: i8) -> i8
        ensures { result ≡ new_background is_forced self.control y (pel_at (M.signal m.now).picture self.g.frame) (pel_at (M.signal m.now).background self.g.frame) }
    {
        if is_forced || !self.control.brc {
            return new_background(is_forced, self.control, y, 0, 0);
        }
        let b = m.background_back(self.g.frame);
        if self.control.buc {
            return new_background(is_forced, self.control, y, 0, b);
        }
        new_background(is_forced, self.control, y, m.picture_back(self.g.frame), b)
    }

    // Y enters the picture and the new background the background; Y is counted.
    pub(crate) fn enter_y<M: EndMemories>(
        self,
        m: &mut M,
        is_forced: bool,
        y: i8,
        tally: Tally,
    ) -> Tally
        ensures { course (M.signal m.new) result ≡ enter_y self.g self.control is_forced y (course (M.signal m.old) tally) }
    {
        let b = self.background_after(m, is_forced, y);
        m.enter_settled(y, b);
        Tally {
            planes: tally.planes ^ byte(y),
            ..tally
        }
    }

    // The pel above the one in work enters picture and background, with the pel in work below it.
    fn settle_above<M: EndMemories>(
        self,
        m: &mut M,
        above: Above,
        pel: usize,
        below: i8,
        tally: Tally,
    ) -> Tally
        ensures { course (M.signal m.new) result ≡ settle_above self.g self.control above pel below (course (M.signal m.old) tally) }
    {
        match above {
            Above::Reset => tally,
            Above::Pending { forced } => {
                let y = self.settled(m, self.is_luminance(pel), self.g.width, below);
                self.enter_y(m, forced, y, tally)
            }
        }
    }
}

impl LineWork {
    // The values that a coded pel reads.
    fn around<M: EndMemories>(self, m: &M, block: BlockModes, pel: usize) -> Around
        ensures { result ≡ around self.frame.g self.modes.above block pel (M.signal m.now) }
    {
        let lag = self.frame.lag(self.modes.above, pel);
        let marks = self.frame.marks_around(m);
        Around {
            intraframe: intraframe_by(m, marks.before),
            moved: m.picture_back(block.delay.saturating_sub(lag)),
            background: m.background_back(self.frame.g.frame.saturating_sub(lag)),
            marks,
        }
    }

    // Y of a repeated pel.
    fn repetition_at<M: EndMemories>(self, m: &M, pel: usize) -> i8
        ensures { result ≡ repetition (pel_is_luminance self.frame.g pel) self.modes.second (pel_at (M.signal m.now).picture (self.frame.g.near - lag self.frame.g self.modes.above pel)) (pel_at (M.signal m.now).picture (self.frame.g.far - lag self.frame.g self.modes.above pel)) }
    {
        let lag = self.frame.lag(self.modes.above, pel);
        let near = m.picture_back(self.frame.g.near.saturating_sub(lag));
        let far = m.picture_back(self.frame.g.far.saturating_sub(lag));
        repetition(self.frame.is_luminance(pel), self.modes.second, near, far)
    }

    // What a pel reads: where it looks depends on how it is worked.
    pub(crate) fn reading<M: EndMemories>(
        self,
        m: &M,
        mode: PelMode,
        block: BlockModes,
        pel: usize,
    ) -> Reading
        ensures { result ≡ reading_as mode self.frame.g self.modes block pel (M.signal m.now) }
    {
        match mode {
            PelMode::Clamped => Reading::Uncoded(0),
            PelMode::Repeated => Reading::Uncoded(self.repetition_at(m, pel)),
            PelMode::Subsampled => Reading::Omitted,
            PelMode::Forced => Reading::Intraframe(intraframe_at(m)),
            PelMode::Burst => {
                let lag = self.frame.lag(self.modes.above, pel);
                Reading::FrameBefore(m.picture_back(self.frame.g.frame.saturating_sub(lag)))
            }
            PelMode::Adaptive => Reading::Surroundings(self.around(m, block, pel)),
        }
    }

    // A pel of the line, in a block, with the value of its level.
    fn worked<M: EndMemories>(self, m: &M, block: BlockModes, pel: usize, value: i8) -> Worked
        ensures { result ≡ worked self.frame.g self.modes block pel value (M.signal m.now) }
    {
        let mode = self.modes.pel_mode(block.subsampled, pel);
        worked_from(self.reading(m, mode, block, pel), value)
    }

    // A worked pel enters, after the pel above it was settled.
    pub(crate) fn enter_pel<M: EndMemories>(
        self,
        m: &mut M,
        pel: usize,
        x: Worked,
        tally: Tally,
    ) -> Tally
        requires few_held { tally.held < 2 ^ 63 }
        ensures does { course (M.signal m.new) result ≡ enter_pel self.frame.g self.frame.control self.modes pel x (course (M.signal m.old) tally) }
        ensures few { result.held ≤ tally.held + 1 }
    {
        let counted = self
            .frame
            .settle_above(m, self.modes.above, pel, x.x, tally);
        enter_worked(m, x, counted)
    }

    // One pel of the line, with the value of its level.
    pub(crate) fn step<M: EndMemories>(
        self,
        m: &mut M,
        block: BlockModes,
        pel: usize,
        value: i8,
        tally: Tally,
    ) -> Tally
        requires few_held { tally.held < 2 ^ 63 }
        ensures does { course (M.signal m.new) result ≡ step self.frame.g self.frame.control self.modes block pel value (course (M.signal m.old) tally) }
        ensures few { result.held ≤ tally.held + 1 }
    {
        let x = self.worked(m, block, pel, value);
        self.enter_pel(m, pel, x, tally)
    }
}
