// Figures worked by hand.
use prediction::marks::BackgroundControl;
use prediction::rules::{luminance, mean, new_background};
use quantizer::characteristic::Characteristic;
use quantizer::quantize::quantized;
use quantizer::table::StandardSet;

#[test]
fn means(rt: HostRuntime) {
    assert_eq!(rt; mean(0, 1), 1);
    assert_eq!(rt; mean(-1, 0), 0);
    assert_eq!(rt; mean(-4, 0), -2, "rounded down below zero too");
    assert_eq!(rt; luminance(0, 1, 0, 0), 1, "each mean is rounded by itself");
}

#[test]
fn background(rt: HostRuntime) {
    let update = BackgroundControl {
        brc: true,
        buc: false,
    };
    assert_eq!(rt; new_background(false, update, 9, 10, 5), 6);
    assert_eq!(rt; new_background(false, update, 9, 11, 5), 5);
    let keep = BackgroundControl {
        brc: true,
        buc: true,
    };
    assert_eq!(rt; new_background(true, keep, 9, 11, 5), 9, "a forced line");
}

#[test]
fn characteristics(rt: HostRuntime) {
    assert_eq!(rt; quantized(&StandardSet, Characteristic::Q3, -6), Some(0));
    assert_eq!(rt; quantized(&StandardSet, Characteristic::Q3, -7), Some(-7));
    assert_eq!(rt; quantized(&StandardSet, Characteristic::Q2, 125), Some(127));
    assert_eq!(rt; quantized(&StandardSet, Characteristic::Q0, 124), Some(127));
}
