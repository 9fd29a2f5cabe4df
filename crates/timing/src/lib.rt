// What the benchmarks share: how many passes to make, and what is told of them.
#![tactic(auto)]

ghost use Rattle.std.specs.Prelude.{◌≡◌, ◌+◌, ◌-◌, ◌^◌, min};
ghost use Rattle.std.specs.Duration.{as_nanos, max_nanos};

use std::time::Duration;
use std::{env, fmt};

const NANOS_A_SECOND: u64 = 1_000_000_000;

// Frames of so many pels each, and the time that all of them took.
#[derive(Clone, Copy)]
pub struct Measured {
    pub frames: u64,
    pub pels: u64,
    pub time: Duration,
}

impl Measured {
    // None yet, of frames of so many pels.
    pub fn none_of(pels: usize) -> Measured
        ensures frames { result.frames ≡ 0 }
        ensures pels { result.pels ≡ pels }
        ensures time { as_nanos result.time ≡ 0 }
    {
        Measured {
            frames: 0,
            pels: pels as u64,
            time: Duration::ZERO,
        }
    }

    // Some more frames, which took a time. Frames and time are added up to what their types hold.
    pub fn more(self, frames: usize, time: Duration) -> Measured
        ensures frames { result.frames ≡ min (self.frames + frames) (2 ^ 64 - 1) }
        ensures pels { result.pels ≡ self.pels }
        ensures time { as_nanos result.time ≡ min (as_nanos self.time + as_nanos time) max_nanos }
    {
        Measured {
            frames: self.frames.saturating_add(frames as u64),
            time: self.time.saturating_add(time),
            ..self
        }
    }
}

impl fmt::Display for Measured {
    fn fmt<W: fmt::Write>(&self, f: &mut fmt::Formatter<W>) -> fmt::Result {
        let frames = self.frames;
        let nanos = u64::try_from(self.time.as_nanos()).unwrap_or(u64::MAX);
        let rate = Tenths::quotient(frames.saturating_mul(NANOS_A_SECOND), nanos);
        let each = Tenths::quotient(nanos, frames.saturating_mul(self.pels));
        write!(
            f,
            "{frames} frames, {rate} frames a second, {each} ns a pel"
        )
    }
}

// A number in tenths.
#[derive(Clone, Copy)]
struct Tenths(u64);

impl Tenths {
    // A quotient; 0 where there is no divisor.
    fn quotient(dividend: u64, divisor: u64) -> Tenths {
        let tenths = dividend.saturating_mul(10).checked_div(divisor);
        Tenths(tenths.unwrap_or(0))
    }
}

impl fmt::Display for Tenths {
    fn fmt<W: fmt::Write>(&self, f: &mut fmt::Formatter<W>) -> fmt::Result {
        write!(f, "{}.{}", self.0 / 10, self.0 % 10)
    }
}

// The number in the first argument, 1 without one.
pub fn passes(rt: &HostRuntime) -> anyhow::Result<u32> {
    match env::args(rt)?.nth(1) {
        Some(word) => Ok(word.as_str().parse::<u32>()?),
        None => Ok(1),
    }
}
