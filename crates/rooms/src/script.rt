// The script of the meeting: for each frame what its header and its records say, what befalls a record on
// its way, and what there is to see.
use crate::picture::WIDTH;
use format::raster::Raster;
use format::raster::measures::{BLOCK_LINE_LINES, UNCODED_PELS};
use format::refusal::Refusal;
use format::words::{BlockWord, Head};
use format::writer::write_record;
use std::array;

// The bench raster: seven blocks, ten bytes of head and words, and 116 levels in each of eight lines.
pub const BLOCKS: usize = 7;

pub const FRONT_BYTES: usize = 10;

pub const LEVELS: usize = BLOCK_LINE_LINES * (WIDTH - UNCODED_PELS);

pub const RECORD_BYTES: usize = FRONT_BYTES + LEVELS;

// The two fields of a frame. On the bench raster each is one block-line.
#[derive(Clone, Copy, PartialEq, Eq)]
pub enum Field {
    First,
    Second,
}

// What befalls the first record of a frame.
#[derive(Clone, Copy, PartialEq, Eq)]
pub enum Accident {
    Nothing,
    // a level beyond the top number, which the decoder refuses
    Unusable,
    // another level, which the decoder cannot tell from a true one
    Altered,
}

// One frame. `thinned` subsamples every third block, and all blocks have the same vector.
#[derive(Clone, Copy)]
pub struct Scene {
    pub fm1: u8,
    pub fm2: u8,
    pub first: Head,
    pub second: Head,
    pub thinned: bool,
    pub vx: i8,
    pub vy: i8,
    pub stop: bool,
    pub accident: Accident,
    pub says: &'static str,
}

// Heads: Q0, and the same forced and repeated, and Q3.
const PLAIN: Head = Head {
    qc1: false,
    qc2: false,
    ifm: true,
    frp: true,
};

const FORCED: Head = Head {
    ifm: false,
    ..PLAIN
};

const REPEATED: Head = Head {
    frp: false,
    ..PLAIN
};

const COARSE: Head = Head {
    qc1: true,
    qc2: true,
    ..PLAIN
};

// FM1 is SBC BRC BUC DRM 1000: nothing active; all lines of forced block-lines forced; the background
// follows; every block subsampled.
const FM1: u8 = 0xf8;

const FM1_ALL_LINES: u8 = 0xe8;

const FM1_FOLLOWING: u8 = 0xd8;

const FM1_THINNED: u8 = 0x78;

// FM2 with CRM 00 and with CRM 01, which forces lines 3 and 4.
const FM2: u8 = 0xa7;

const FM2_SECOND_PAIR: u8 = 0xaf;

// A frame with nothing special, over which the pictures move.
const STILL: Scene = Scene {
    fm1: FM1,
    fm2: FM2,
    first: PLAIN,
    second: PLAIN,
    thinned: false,
    vx: 0,
    vy: 0,
    stop: false,
    accident: Accident::Nothing,
    says: "no vectors",
};

const REFRESH: Scene = Scene {
    fm1: FM1_ALL_LINES,
    first: FORCED,
    second: FORCED,
    says: "wholly refreshed",
    ..STILL
};

// The pictures move two pels to the right from frame to frame.
const MOVING: Scene = Scene {
    vx: 2,
    says: "vectors follow the movement",
    ..STILL
};

// The frames of the meeting.
pub static SCRIPT: [Scene; 18] = [
    REFRESH,
    STILL,
    MOVING,
    Scene {
        fm1: FM1_FOLLOWING,
        says: "the background follows",
        ..MOVING
    },
    Scene {
        thinned: true,
        says: "some blocks subsampled",
        ..MOVING
    },
    Scene {
        fm1: FM1_THINNED,
        says: "all blocks subsampled",
        ..MOVING
    },
    Scene {
        second: REPEATED,
        says: "the second field repeated",
        ..MOVING
    },
    Scene {
        fm2: FM2_SECOND_PAIR,
        first: FORCED,
        second: FORCED,
        says: "lines 3 and 4 forced",
        ..MOVING
    },
    Scene {
        first: COARSE,
        second: COARSE,
        says: "the coarsest characteristic",
        ..MOVING
    },
    Scene {
        stop: true,
        says: "coding stopped",
        ..MOVING
    },
    Scene {
        accident: Accident::Unusable,
        says: "a record made unusable on its way",
        ..MOVING
    },
    MOVING,
    Scene {
        fm2: FM2_SECOND_PAIR,
        first: FORCED,
        second: FORCED,
        accident: Accident::Altered,
        says: "a level of a forced line altered on its way",
        ..MOVING
    },
    Scene {
        says: "planes betray it, vectors carry it on",
        ..MOVING
    },
    Scene {
        says: "and on",
        ..MOVING
    },
    REFRESH,
    Scene {
        says: "both rooms agree again",
        ..MOVING
    },
    MOVING,
];

// The head and words of a block-line, at the front of a record without levels.
pub fn write_front(
    raster: Raster,
    scene: &Scene,
    field: Field,
    record: &mut [u8],
) -> Result<(), Refusal> {
    let head = match field {
        Field::First => scene.first,
        Field::Second => scene.second,
    };
    let words = if head.frp {
        array::from_fn(|block| BlockWord {
            s: scene.thinned && block % 3 == 0,
            vx: scene.vx,
            vy: scene.vy,
        })
    } else {
        [BlockWord::default(); BLOCKS]
    };
    write_record(raster, head, &words, &[0; LEVELS], record)
}
