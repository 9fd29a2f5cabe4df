// The memories of the two rooms: rings for the coder, banks for the pictures of the decoder.
use codec::memories::Memories;
use delay::banks::Banks;
use delay::ring::Ring;
use format::raster::Raster;
use framelines::cells::Rings;
use prediction::marks::{Marks, NO_MARKS};
use std::alloc::{AllocError, Global};

// The decoder's memories.
pub type Receiver<'a> = Memories<Banks<'a>, Banks<'a>, Ring<'a, i8>, Ring<'a, Marks>>;

// The memories of both rooms, for one raster.
#[derive(Drop)]
pub struct Rooms<'a> {
    pub raster: Raster,
    pub sender: Rings<'a>,
    pub receiver: Receiver<'a>,
}

// Banks of a memory of banks.
const BANKS: usize = 4;

// The cells of four banks.
#[derive(Drop)]
struct BankCells {
    first: Vec<i8>,
    second: Vec<i8>,
    third: Vec<i8>,
    fourth: Vec<i8>,
}

impl BankCells {
    // Enough cells for a reach, all 0.
    fn cleared(heap: Global, reach: usize) -> Result<BankCells, AllocError> {
        let rows = reach / BANKS + 1;
        Ok(BankCells {
            first: vec![in heap; 0; rows]?,
            second: vec![in heap; 0; rows]?,
            third: vec![in heap; 0; rows]?,
            fourth: vec![in heap; 0; rows]?,
        })
    }

    fn banks(&mut self) -> Banks<'_> {
        Banks::open(
            self.first.as_mut_slice(),
            self.second.as_mut_slice(),
            self.third.as_mut_slice(),
            self.fourth.as_mut_slice(),
        )
    }
}

// The cells of the decoder's memories.
#[derive(Drop)]
pub struct ReceiverCells {
    picture: BankCells,
    background: BankCells,
    line: Vec<i8>,
    marks: Vec<Marks>,
}

impl ReceiverCells {
    pub fn cleared(heap: Global, raster: Raster) -> Result<ReceiverCells, AllocError> {
        Ok(ReceiverCells {
            picture: BankCells::cleared(heap, raster.picture_reach())?,
            background: BankCells::cleared(heap, raster.picture_reach())?,
            line: vec![in heap; 0; raster.line_reach()]?,
            marks: vec![in heap; NO_MARKS; raster.mark_reach()]?,
        })
    }

    pub fn memories(&mut self) -> Receiver<'_> {
        Memories {
            picture: self.picture.banks(),
            background: self.background.banks(),
            line: Ring::open(self.line.as_mut_slice()),
            marks: Ring::open(self.marks.as_mut_slice()),
        }
    }
}
