// How far two memories are from holding the same.
ghost use Rattle.std.specs.Prelude.{◌≡◌};
ghost use Rattle.law.specs.Compare.{differing_pels};

use delay::memory::DelayMemory;

// How many of the newest pels of two memories differ, in their order.
pub fn differing_pels<M, N>(a: &M, b: &N, count: usize) -> usize
where
    M: DelayMemory<Element = i8>,
    N: DelayMemory<Element = i8>,
    ensures { result ≡ differing_pels (M.DelayMemory.held a.now) (N.DelayMemory.held b.now) count }
{
    (0..count)
        .map(|newer| usize::from(a.back_or(newer + 1, 0) != b.back_or(newer + 1, 0)))
        .sum()
}
