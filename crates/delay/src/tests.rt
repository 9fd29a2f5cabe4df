// The two makes behind one trait, to the ends of their reach and past them.
ghost use Rattle.std.specs.Prelude.{◌≡◌, reverse};
ghost use Rattle.delay.specs.Delay.{look, entered};
ghost use Rattle.delay.specs.Woven.{woven, most_rows};

use crate::banks::Banks;
use crate::memory::DelayMemory;
use crate::ring::Ring;

// from none back to some beyond the reach
const PROBES: usize = 11;

// Enters a pel and looks n back: code that does not know the make.
fn enter_and_look<M: DelayMemory<Element = i8>>(memory: &mut M, x: i8, n: usize) -> Option<i8>
    ensures { result ≡ look (entered x (M.held memory.old)) n }
{
    memory.enter(x);
    memory.back(n)
}

// What such code answers over a slice, by the slice alone.
fn through_ring(cells: &mut [i8], x: i8, n: usize) -> Option<i8>
    ensures { result ≡ look (entered x (reverse cells.old)) n }
{
    let mut ring = Ring::open(cells);
    enter_and_look(&mut ring, x, n)
}

fn through_banks(
    first: &mut [i8],
    second: &mut [i8],
    third: &mut [i8],
    fourth: &mut [i8],
    x: i8,
    n: usize,
) -> Option<i8>
    ensures { result ≡ look (entered x (reverse (woven most_rows first.old second.old third.old fourth.old))) n }
{
    let mut banks = Banks::open(first, second, third, fourth);
    enter_and_look(&mut banks, x, n)
}

// Whether two memories answer the same at each probe.
fn alike<A: DelayMemory<Element = i8>, B: DelayMemory<Element = i8>>(a: &A, b: &B) -> bool {
    a.reach() == b.reach() && (0..PROBES).all(|n| a.back(n) == b.back(n))
}

// The longer banks are used no further than the shortest, so that both hold the same eight pels.
#[test]
fn ring_and_banks_answer_alike(rt: HostRuntime) {
    let mut cells = [1, 2, 3, 4, 5, 6, 7, 8];
    let mut first = [1, 5];
    let mut second = [2, 6, 99];
    let mut third = [3, 7];
    let mut fourth = [4, 8, 99, 99];
    let mut ring = Ring::open(&mut cells);
    let mut banks = Banks::open(&mut first, &mut second, &mut third, &mut fourth);
    assert!(rt; alike(&ring, &banks));
    for x in -20..0 {
        ring.enter(x);
        banks.enter(x);
        assert!(rt; alike(&ring, &banks));
    }
    assert_eq!(rt; banks.back(1), Some(-1));
}

#[test]
fn cells_beyond_the_shortest_bank_are_kept(rt: HostRuntime) {
    let mut first = [1, 5];
    let mut second = [2, 6, 99];
    let mut third = [3];
    let mut fourth = [4, 8, 99, 99];
    {
        let mut banks = Banks::open(&mut first, &mut second, &mut third, &mut fourth);
        assert_eq!(rt; banks.reach(), 4);
        for x in 10..16 {
            banks.enter(x);
        }
    }
    assert_eq!(rt; first, [14, 5]);
    assert_eq!(rt; second, [15, 6, 99]);
    assert_eq!(rt; third, [12]);
    assert_eq!(rt; fourth, [13, 8, 99, 99]);
}

#[derive(Clone, Copy, PartialEq, Eq, Debug)]
struct Mark {
    moving: bool,
    age: u8,
}

fn aged(age: u8) -> Mark {
    Mark {
        moving: age > 1,
        age,
    }
}

#[test]
fn nothing_is_0_back_or_beyond_the_reach(rt: HostRuntime) {
    let mut cells = [aged(1), aged(2), aged(3)];
    let mut ring = Ring::open(&mut cells);
    ring.enter(aged(4));
    assert_eq!(rt; ring.back(0), None);
    assert_eq!(rt; ring.back(1), Some(aged(4)));
    assert_eq!(rt; ring.back(3), Some(aged(2)));
    assert_eq!(rt; ring.back(4), None);
    assert_eq!(rt; ring.back(usize::MAX), None);
}

#[test]
fn a_memory_of_no_reach_holds_nothing(rt: HostRuntime) {
    let mut none: [i8; 0] = [];
    let mut first = [1];
    let mut second = [2];
    let mut fourth = [4];
    assert_eq!(rt; through_ring(&mut none, 7, 1), None);
    assert_eq!(rt;
        through_banks(&mut first, &mut second, &mut none, &mut fourth, 7, 1),
        None
    );
    assert_eq!(rt; first, [1]);
}
