// Tests in order: the first refusal counts.
ghost use Rattle.std.specs.Prelude.{◌≡◌, ℕ, ◌+◌, ◌<◌, ◌≤◌, ◌^◌};
ghost use Rattle.format.specs.Usable.{Verdict, in_order, AnswersAs};

use crate::refusal::Refusal;

// Makes a test at each of count places from start on.
pub(crate) fn in_order<F: Fn(usize) -> Result<(), Refusal>>(
    start: usize,
    count: usize,
    test: F,
) -> Result<(), Refusal>
    requires fits { start + count < 2 ^ 64 }
    requires callable { (place : ℕ) → start ≤ place → place < start + count → F.pre test place }
    ensures { (answer : ℕ → Verdict) → AnswersAs (F.post test) start count answer → result ≡ in_order answer start count }
{
    for place in start..start + count {
        test(place)?;
    }
    Ok(())
}
