// The layouts, the refusals and their order, on the bench raster.
use crate::header::Header;
use crate::raster::Raster;
use crate::reader::RecordReader;
use crate::refusal::Refusal;
use crate::words::{BlockWord, Head};
use crate::writer::write_record;
use std::alloc::AllocError;

const BENCH_LENGTH: usize = 938;

const TOP: u8 = 7;

// A head that neither forces nor repeats, and one that repeats.
const PLAIN: u8 = 0xff;

const REPEATED: u8 = 0xef;

fn verdict(raster: Raster, bytes: &[u8], sbc: bool) -> Result<(), Refusal> {
    RecordReader::over(raster, bytes).usable(sbc, TOP)
}

// The number and the place of a refusal.
fn shown<T: Drop>(answer: Result<T, Refusal>) -> Option<(u8, usize)> {
    answer
        .err()
        .map(|refusal| (refusal.number(), refusal.place()))
}

// What is answered to a bench record that is 0 but for its head and one byte.
fn trial(head: u8, at: usize, byte: u8, sbc: bool) -> Option<(u8, usize)> {
    let mut bytes = [0u8; BENCH_LENGTH];
    if at < bytes.len() {
        bytes[at] = byte;
    }
    bytes[0] = head;
    shown(verdict(Raster::bench(), &bytes, sbc))
}

#[test]
fn measures(rt: HostRuntime) {
    let bench = Raster::bench();
    assert_eq!(rt; (bench.width(), bench.frame()), (119, 3451));
    assert_eq!(rt; bench.record_length(), BENCH_LENGTH);
    let standard = Raster::standard();
    assert_eq!(rt; (standard.width(), standard.frame()), (455, 238875));
}

#[test]
fn raster_limits(rt: HostRuntime) {
    assert!(rt; Raster::new(4, 24, 32).is_ok());
    assert!(rt; Raster::new(0, 24, 32).is_err());
    assert!(rt; Raster::new(4, 25, 32).is_err());
    assert_eq!(rt; shown(Raster::new(4, 24, 33)), Some((1, 0)));
}

#[test]
fn headers(rt: HostRuntime) {
    assert_eq!(rt; shown(Header::read(&[1, 0x08, 2, 0xa7, 3])), None);
    assert_eq!(rt; shown(Header::read(&[1, 0x08, 2, 0xa7])), Some((4, 4)));
    assert_eq!(rt; shown(Header::read(&[1, 0x09, 2, 0xa6, 3])), Some((5, 1)));
    assert_eq!(rt; shown(Header::read(&[1, 0x08, 2, 0xa6, 3])), Some((5, 2)));
}

// A head, a byte and its place in the record, SBC, and what is answered.
const TRIALS: [(u8, usize, u8, bool, Option<(u8, usize)>); 14] = [
    (PLAIN, 0, 0, true, None),
    // One record with several faults, each answered only where those before it are mended.
    (0xcd, 1, 0xc0, false, Some((6, 0))),
    (0xcf, 1, 0xc0, false, Some((7, 0))),
    (PLAIN, 1, 0xc0, false, Some((8, 2))),
    (PLAIN, 1, 0xc0, true, Some((9, 2))),
    // A vertical vector, a word that is not 0 in a repeated block-line, and the fill.
    (PLAIN, 1, 0x02, true, Some((9, 2))),
    (REPEATED, 2, 0x10, true, Some((8, 3))),
    (PLAIN, 9, 0x01, true, Some((8, 0))),
    // Levels at the top and beyond it, and on pels that are omitted or not; the burst is not subsampled.
    (PLAIN, 126, 0xf9, true, None),
    (PLAIN, 126, 0xf8, true, Some((10, 123))),
    (REPEATED, 10, 1, true, Some((10, 4))),
    (PLAIN, 10, 1, false, None),
    (PLAIN, 14, 1, false, Some((10, 8))),
    (PLAIN, 15, 1, false, None),
];

#[test]
fn records(rt: HostRuntime) {
    for (head, at, byte, sbc, answer) in TRIALS {
        assert_eq!(rt; trial(head, at, byte, sbc), answer);
    }
}

#[test]
fn lengths(rt: HostRuntime) {
    assert_eq!(rt;
        shown(verdict(Raster::bench(), &[0; 937], true)),
        Some((4, 937))
    );
}

#[test]
fn refusals_printed(rt: HostRuntime) -> Result<(), AllocError> {
    let text = format!(in rt.alloc(); "{}", Refusal::StrayWord(12))?;
    assert_eq!(rt; text.as_str(), "8 12");
    Ok(())
}

#[test]
fn headers_written(rt: HostRuntime) {
    let bytes = [1u8, 0x98, 2, 0xf7, 3];
    assert_eq!(rt;
        Header::read(&bytes).map(|header| header.write()),
        Ok(bytes)
    );
}

// A bench record whose words are all alike but for the vector of the last, and whose levels are all −2.
fn written(vx: i8, buffer: &mut [u8; BENCH_LENGTH]) -> Option<(u8, usize)> {
    let head = Head {
        qc1: true,
        qc2: false,
        ifm: true,
        frp: true,
    };
    let mut words = [BlockWord {
        s: true,
        vx: -1,
        vy: 1,
    }; 7];
    words[6].vx = vx;
    let levels = [-2i8; 928];
    shown(write_record(Raster::bench(), head, &words, &levels, buffer))
}

#[test]
fn records_written(rt: HostRuntime) {
    let mut buffer = [0u8; BENCH_LENGTH];
    assert_eq!(rt; written(-16, &mut buffer), Some((9, 8)));
    assert_eq!(rt; (buffer[0], buffer[1]), (0, 0));
    assert_eq!(rt; written(-15, &mut buffer), None);
    assert_eq!(rt; (buffer[0], buffer[1], buffer[2]), (0xbf, 0xfc, 0x7f));
    assert_eq!(rt; (buffer[8], buffer[9]), (0x1c, 0x44));
    assert_eq!(rt; (buffer[10], buffer[937]), (0xfe, 0xfe));
}
