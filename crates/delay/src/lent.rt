// A memory that is lent is a memory: what holds it by `&mut` may do all that its owner may.
use crate::memory::DelayMemory;

impl<M: DelayMemory> DelayMemory for &mut M {
    type Element = M::Element;

    ghost held = { λ m. M.DelayMemory.held m.now };

    fn reach(&self) -> usize {
        (**self).reach()
    }

    fn back(&self, n: usize) -> Option<M::Element> {
        (**self).back(n)
    }

    fn back_or(&self, n: usize, none: M::Element) -> M::Element {
        (**self).back_or(n, none)
    }

    fn enter(&mut self, x: M::Element) {
        (**self).enter(x)
    }
}
