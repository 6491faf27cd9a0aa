// Numbers modulo 2^width.
ghost use Rattle.std.specs.Prelude.{◌≡◌, ◌≤◌, ◌%◌, ◌^◌};

/// The lowest `width` digits.
pub fn masked(width: u32, n: u64) -> u64
    requires { width ≤ 64 }
    ensures { result ≡ n % 2 ^ width }
{
    if width == 64 { n } else { n % (1u64 << width) }
}

/// The inverse of an odd number modulo 2^64, by Newton's steps, each of which doubles the digits that are right; an odd
/// number times itself is 1 modulo 8. No contract rests on it: the caller looks at the product.
pub fn inverse_of(odd: u64) -> u64 {
    let mut inverse = odd;
    for _ in 0..5 {
        inverse = inverse.wrapping_mul(2u64.wrapping_sub(odd.wrapping_mul(inverse)));
    }
    inverse
}
