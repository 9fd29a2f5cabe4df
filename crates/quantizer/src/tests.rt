// What the two sets answer, on examples.
use crate::characteristic::Characteristic;
use crate::lineup::LineUpSet;
use crate::quantize::quantized;
use crate::set::CharacteristicSet;
use crate::table::StandardSet;

const ALL: [Characteristic; 4] = [
    Characteristic::Q0,
    Characteristic::Q1,
    Characteristic::Q2,
    Characteristic::Q3,
];

#[test]
fn figures(rt: HostRuntime) {
    let q3 = Characteristic::from_bits(true, true);
    let q2 = Characteristic::from_bits(true, false);
    assert_eq!(rt; quantized(&StandardSet, q3, -6), Some(0));
    assert_eq!(rt; quantized(&StandardSet, q3, -7), Some(-7));
    assert_eq!(rt; quantized(&StandardSet, q2, 125), Some(127));
}

#[test]
fn edges_have_answers(rt: HostRuntime) {
    for q in ALL {
        let top = StandardSet.top(q);
        assert!(rt; top <= 127);
        assert_eq!(rt; StandardSet.number(q, 255), Some(top as i8));
        assert_eq!(rt; StandardSet.number(q, -255), Some(-(top as i8)));
        assert_eq!(rt; StandardSet.value(q, top as i8), Some(127));
        assert_eq!(rt; StandardSet.value(q, -(top as i8)), Some(-127));
    }
}

#[test]
fn outside_has_none(rt: HostRuntime) {
    for q in ALL {
        let top = StandardSet.top(q);
        assert!(rt; top <= 126);
        for error in [256, -256, i16::MAX, i16::MIN] {
            assert_eq!(rt; StandardSet.number(q, error), None);
            assert_eq!(rt; LineUpSet.number(q, error), None);
        }
        for number in [top as i8 + 1, -(top as i8) - 1, i8::MAX, i8::MIN] {
            assert_eq!(rt; StandardSet.value(q, number), None);
        }
        assert_eq!(rt; LineUpSet.value(q, i8::MIN), None);
    }
}

#[test]
fn line_up_holds(rt: HostRuntime) {
    for q in ALL {
        assert_eq!(rt; quantized(&LineUpSet, q, 255), Some(127));
        assert_eq!(rt; quantized(&LineUpSet, q, -255), Some(-127));
        assert_eq!(rt; quantized(&LineUpSet, q, -64), Some(-64));
    }
}
