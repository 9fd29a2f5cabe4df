// Where the elements lie in cells that are written round and round.
ghost use Rattle.std.specs.Prelude.{◌≡◌, ◌<◌, ◌≤◌, IfSome};
ghost use Rattle.std.specs.List.{range_with_len};
ghost use Rattle.delay.specs.Delay.{look};
ghost use Rattle.delay.specs.Rotated.{rotated};

// The place of the element n back, among `len` cells of which the one at `next` is the oldest.
pub(crate) fn place_back(next: usize, len: usize, n: usize) -> Option<usize>
    requires { next ≤ len }
    ensures found { result ≡ look (rotated next (range_with_len 0 len)) n }
    ensures inside { IfSome result (λ place. place < len) }
{
    if n == 0 || n > len {
        None
    } else if n <= next {
        Some(next - n)
    } else {
        Some(len - (n - next))
    }
}

// The place of the oldest element, which the next one takes.
pub(crate) fn place_oldest(next: usize, len: usize) -> Option<usize>
    requires { next ≤ len }
    ensures found { result ≡ look (rotated next (range_with_len 0 len)) len }
    ensures inside { IfSome result (λ place. place < len) }
{
    if len == 0 {
        None
    } else if next < len {
        Some(next)
    } else {
        Some(0)
    }
}
