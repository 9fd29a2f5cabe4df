// Memories that are lent are memories: what holds them by `&mut` may do all that their owner may.
use crate::memories::EndMemories;
use format::refusal::MemoryName;
use prediction::marks::Marks;

impl<M: EndMemories> EndMemories for &mut M {
    ghost signal = { λ m. M.signal m.now };

    fn reach(&self, memory: MemoryName) -> usize {
        (**self).reach(memory)
    }

    fn picture_back(&self, n: usize) -> i8 {
        (**self).picture_back(n)
    }

    fn background_back(&self, n: usize) -> i8 {
        (**self).background_back(n)
    }

    fn line_back(&self, n: usize) -> i8 {
        (**self).line_back(n)
    }

    fn marks_back(&self, n: usize) -> Marks {
        (**self).marks_back(n)
    }

    fn enter_settled(&mut self, y: i8, b: i8) {
        (**self).enter_settled(y, b)
    }

    fn enter_worked(&mut self, x: i8, marks: Marks) {
        (**self).enter_worked(x, marks)
    }
}
