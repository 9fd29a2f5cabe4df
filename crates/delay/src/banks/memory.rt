// How banks are opened, looked into and written.
ghost use Rattle.std.specs.Prelude.{◌≡◌, ◌*◌, ◌<◌, reverse, pos, slice_index_or, slice_set};
ghost use Rattle.delay.specs.Delay.{entered};
ghost use Rattle.delay.specs.Makes.{pels, in_banks, SameBeyond};
ghost use Rattle.delay.specs.Woven.{woven, most_rows};

use super::Banks;
use crate::memory::DelayMemory;
use crate::places::{place_back, place_oldest};

const BANKS: usize = 4;

// No bank is used to more cells than these.
const MOST_ROWS: usize = 1 << 24;

impl<'a> Banks<'a> {
    // Opens over the contents as found, the oldest first.
    pub fn open(
        first: &'a mut [i8],
        second: &'a mut [i8],
        third: &'a mut [i8],
        fourth: &'a mut [i8],
    ) -> Banks<'a>
        ensures { in_banks result ≡ reverse (woven most_rows first.old second.old third.old fourth.old) }
    {
        let rows = MOST_ROWS
            .min(first.len())
            .min(second.len())
            .min(third.len())
            .min(fourth.len());
        Banks {
            first,
            second,
            third,
            fourth,
            rows,
            next: 0,
        }
    }

    // The pel at a place.
    fn at(&self, place: usize) -> i8
        requires { place < self.now.rows * 4 }
        ensures { result ≡ slice_index_or (pels self.now) place (pos 0) }
    {
        let row = place / BANKS;
        match place % BANKS {
            0 => self.first[row],
            1 => self.second[row],
            2 => self.third[row],
            _ => self.fourth[row],
        }
    }

    // Writes a pel at a place, and nothing beyond the cells that are used.
    fn put(&mut self, place: usize, x: i8)
        requires { place < self.old.rows * 4 }
        ensures written { pels self.new ≡ slice_set (pels self.old) place x }
        ensures rest { SameBeyond self.old self.new }
    {
        let row = place / BANKS;
        match place % BANKS {
            0 => self.first[row] = x,
            1 => self.second[row] = x,
            2 => self.third[row] = x,
            _ => self.fourth[row] = x,
        }
    }
}

impl<'a> DelayMemory for Banks<'a> {
    type Element = i8;

    ghost held = { in_banks };

    fn reach(&self) -> usize {
        self.rows * BANKS
    }

    fn back(&self, n: usize) -> Option<i8> {
        let place = place_back(self.next, self.rows * BANKS, n)?;
        Some(self.at(place))
    }

    // The oldest gives its cell to the pel. Cells that are not used stay as they are.
    fn enter(&mut self, x: i8)
        ensures held { in_banks self.new ≡ entered x (in_banks self.old) }
        ensures rest { SameBeyond self.old self.new }
    {
        let len = self.rows * BANKS;
        if let Some(place) = place_oldest(self.next, len) {
            self.put(place, x);
            self.next = place + 1;
        }
    }
}
