// The four memories of an end, and the signal that they hold together.
ghost use Rattle.std.specs.Prelude.{◌≡◌, nat_lt};
ghost use Rattle.codec.specs.Decoder.{reach_test};
ghost use Rattle.codec.specs.Signal.{Signal, pel_at, marks_at, signal, reach_of, with_settled, with_worked, with_reset};
ghost use Rattle.format.specs.Usable.{refuse_if};

use delay::memory::DelayMemory;
use format::raster::Raster;
use format::refusal::{MemoryName, Refusal};
use prediction::marks::{Marks, NO_MARKS};

// What an end works on: picture and background, which hold the frames, the line memory of pels as they are
// worked, and the memory of their marks. Together they mean a signal.
pub trait EndMemories {
    ghost signal: { Self → Signal };

    // How many elements one of the memories holds.
    fn reach(&self, memory: MemoryName) -> usize
        ensures { result ≡ reach_of memory (signal self.now) };

    // The pel of the picture n places back, 0 where the memory does not reach.
    fn picture_back(&self, n: usize) -> i8
        ensures { result ≡ pel_at (signal self.now).picture n };

    // The pel of the background n places back, 0 where the memory does not reach.
    fn background_back(&self, n: usize) -> i8
        ensures { result ≡ pel_at (signal self.now).background n };

    // The pel of the line memory n places back, 0 where the memory does not reach.
    fn line_back(&self, n: usize) -> i8
        ensures { result ≡ pel_at (signal self.now).line n };

    // The marks n places back, none where the memory does not reach.
    fn marks_back(&self, n: usize) -> Marks
        ensures { result ≡ marks_at (signal self.now).marks n };

    // A pel enters the picture and another the background.
    fn enter_settled(&mut self, y: i8, b: i8)
        ensures { signal self.new ≡ with_settled y b (signal self.old) };

    // A pel enters the line memory and its marks the mark memory.
    fn enter_worked(&mut self, x: i8, marks: Marks)
        ensures { signal self.new ≡ with_worked x marks (signal self.old) };
}

// Four delay memories, of any make each.
#[derive(Drop)]
pub struct Memories<P, B, L, K> {
    pub picture: P,
    pub background: B,
    pub line: L,
    pub marks: K,
}

impl<P, B, L, K> EndMemories for Memories<P, B, L, K>
where
    P: DelayMemory<Element = i8>,
    B: DelayMemory<Element = i8>,
    L: DelayMemory<Element = i8>,
    K: DelayMemory<Element = Marks>,
{
    ghost signal = { signal P.DelayMemory.held B.DelayMemory.held L.DelayMemory.held K.DelayMemory.held };

    fn reach(&self, memory: MemoryName) -> usize {
        match memory {
            MemoryName::Picture => self.picture.reach(),
            MemoryName::Background => self.background.reach(),
            MemoryName::Line => self.line.reach(),
            MemoryName::Marks => self.marks.reach(),
        }
    }

    fn picture_back(&self, n: usize) -> i8 {
        self.picture.back_or(n, 0)
    }

    fn background_back(&self, n: usize) -> i8 {
        self.background.back_or(n, 0)
    }

    fn line_back(&self, n: usize) -> i8 {
        self.line.back_or(n, 0)
    }

    fn marks_back(&self, n: usize) -> Marks {
        self.marks.back_or(n, NO_MARKS)
    }

    fn enter_settled(&mut self, y: i8, b: i8) {
        self.picture.enter(y);
        self.background.enter(b);
    }

    fn enter_worked(&mut self, x: i8, marks: Marks) {
        self.line.enter(x);
        self.marks.enter(marks);
    }
}

// The pel n places back, 0 where the memory does not reach.
pub fn pel_back<M: DelayMemory<Element = i8>>(memory: &M, n: usize) -> i8
    ensures { result ≡ pel_at (M.DelayMemory.held memory.now) n }
{
    memory.back_or(n, 0)
}

// The marks n places back, none where the memory does not reach.
pub fn marks_back<M: DelayMemory<Element = Marks>>(memory: &M, n: usize) -> Marks
    ensures { result ≡ marks_at (M.DelayMemory.held memory.now) n }
{
    memory.back_or(n, NO_MARKS)
}

// A reset pel: 0 in picture, background and line memory, and no mark.
pub fn enter_reset<M: EndMemories>(m: &mut M)
    ensures { M.signal m.new ≡ with_reset (M.signal m.old) }
{
    m.enter_settled(0, 0);
    m.enter_worked(0, NO_MARKS);
}

// Refuses a memory that holds fewer elements than it has to.
fn holds<M: EndMemories>(m: &M, memory: MemoryName, count: usize) -> Result<(), Refusal>
    ensures { result ≡ refuse_if (nat_lt (reach_of memory (M.signal m.now)) count) (Refusal.MemoryReach memory) }
{
    if m.reach(memory) < count {
        return Err(Refusal::MemoryReach(memory));
    }
    Ok(())
}

// Whether each memory reaches as far as the raster asks.
pub(crate) fn reaches<M: EndMemories>(m: &M, raster: Raster) -> Result<(), Refusal>
    ensures { result ≡ reach_test raster (M.signal m.now) }
{
    holds(m, MemoryName::Picture, raster.picture_reach())?;
    holds(m, MemoryName::Background, raster.picture_reach())?;
    holds(m, MemoryName::Line, raster.line_reach())?;
    holds(m, MemoryName::Marks, raster.mark_reach())
}
