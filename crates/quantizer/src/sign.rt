// A number from its size and its sign.
ghost use Rattle.std.specs.Prelude.{◌≡◌, ◌≤◌};
ghost use Rattle.quantizer.specs.Symmetry.{with_sign};

// The number of this size, negative or not.
pub(crate) fn with_sign(negative: bool, size: u8) -> i8
    requires { size ≤ 127 }
    ensures { result ≡ with_sign negative size }
{
    let positive = size as i8;
    if negative { -positive } else { positive }
}
