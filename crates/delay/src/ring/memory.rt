// How a ring is opened, looked into and written.
ghost use Rattle.std.specs.Prelude.{◌≡◌, reverse};
ghost use Rattle.delay.specs.Makes.{in_ring};

use super::Ring;
use crate::memory::DelayMemory;
use crate::places::{place_back, place_oldest};

impl<'a, T> Ring<'a, T> {
    // Opens over the contents as found, the oldest first.
    pub fn open(cells: &'a mut [T]) -> Ring<'a, T>
        ensures { in_ring result ≡ reverse cells.old }
    {
        Ring { cells, next: 0 }
    }
}

impl<'a, T: Copy> DelayMemory for Ring<'a, T> {
    type Element = T;

    ghost held = { in_ring };

    fn reach(&self) -> usize {
        self.cells.len()
    }

    fn back(&self, n: usize) -> Option<T> {
        let place = place_back(self.next, self.cells.len(), n)?;
        Some(self.cells[place])
    }

    // Looked up for each pel, so without an `Option` of the element between.
    fn back_or(&self, n: usize, none: T) -> T {
        match place_back(self.next, self.cells.len(), n) {
            Some(place) => self.cells[place],
            None => none,
        }
    }

    // The oldest gives its cell to the element.
    fn enter(&mut self, x: T) {
        let len = self.cells.len();
        if let Some(place) = place_oldest(self.next, len) {
            self.cells[place] = x;
            self.next = place + 1;
        }
    }
}
