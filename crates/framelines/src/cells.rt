// The cells of an end's four memories, on the heap.
ghost use Rattle.std.specs.Prelude.{◌≡◌, IfOk};
ghost use Rattle.codec.specs.Signal.{signal};
ghost use Rattle.delay.specs.Makes.{in_ring};
ghost use Rattle.framelines.specs.Cells.{held_in, cleared};

use codec::memories::Memories;
use delay::ring::Ring;
use format::raster::Raster;
use prediction::marks::{Marks, NO_MARKS};
use std::alloc::{AllocError, Global};

// Memories over one slice each.
pub type Rings<'a> = Memories<Ring<'a, i8>, Ring<'a, i8>, Ring<'a, i8>, Ring<'a, Marks>>;

// The cells of each memory, the oldest element first.
#[derive(Drop)]
pub struct Cells {
    pub picture: Vec<i8>,
    pub background: Vec<i8>,
    pub line: Vec<i8>,
    pub marks: Vec<Marks>,
}

impl Cells {
    // Cells with nothing in them, as many as the memories of a raster have to reach.
    pub fn cleared(heap: Global, raster: Raster) -> Result<Cells, AllocError>
        ensures { IfOk result (λ cells. held_in cells ≡ cleared raster) }
    {
        Ok(Cells {
            picture: vec![in heap; 0; raster.picture_reach()]?,
            background: vec![in heap; 0; raster.picture_reach()]?,
            line: vec![in heap; 0; raster.line_reach()]?,
            marks: vec![in heap; NO_MARKS; raster.mark_reach()]?,
        })
    }

    // Memories that hold what the cells hold.
    pub fn rings(&mut self) -> Rings<'_>
        ensures { signal in_ring in_ring in_ring in_ring result ≡ held_in self.old }
    {
        Memories {
            picture: Ring::open(self.picture.as_mut_slice()),
            background: Ring::open(self.background.as_mut_slice()),
            line: Ring::open(self.line.as_mut_slice()),
            marks: Ring::open(self.marks.as_mut_slice()),
        }
    }
}
