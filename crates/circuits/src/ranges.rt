// Ranges of numbers, and how a sum modulo 2^width moves them.
ghost use Rattle.std.specs.Prelude.{◌≡◌, ℕ, ◌+◌, ◌%◌, ◌^◌, ◌≤◌, ◌<◌, IfSome};
ghost use Rattle.circuits.specs.Ranges.{IsWithin, IsMoved, Wraps};

use polynomials::masked;

/// The numbers from `least` to `most`: none where `least` is more.
#[derive(Clone, Copy)]
pub struct Range {
    pub least: u64,
    pub most: u64,
}

/// All numbers below 2^width.
pub fn all_below(width: u32) -> Range
    requires { width ≤ 64 }
    ensures from { result.least ≡ 0 }
    ensures to { result.most + 1 ≡ 2 ^ width }
{
    let most = if width == 64 {
        u64::MAX
    } else {
        (1 << width) - 1
    };
    Range { least: 0, most }
}

/// A number alone.
pub fn only(number: u64) -> Range
    ensures { IsWithin result number }
{
    Range {
        least: number,
        most: number,
    }
}

/// The numbers of both ranges.
pub fn both(a: Range, b: Range) -> Range
    ensures { (n : ℕ) → IsWithin a n → IsWithin b n → IsWithin result n }
{
    Range {
        least: a.least.max(b.least),
        most: a.most.min(b.most),
    }
}

/// Whether all sums of a number of the range and another reach 2^width, or none does.
pub fn wraps(width: u32, range: Range, by: u64) -> Option<bool>
    requires narrow { width ≤ 64 }
    requires small { by < 2 ^ width }
    ensures { IfSome result (λ r. Wraps width range by r) }
{
    let room = all_below(width).most - by;
    if range.most <= room {
        return Some(false);
    }
    if range.least > room {
        return Some(true);
    }
    None
}

/// Where the sums of a number of the range and another are, modulo 2^width.
pub fn moved(width: u32, range: Range, by: u64) -> Range
    requires narrow { width ≤ 64 }
    requires small { by < 2 ^ width }
    ensures { IsMoved width range by result }
{
    let all = all_below(width);
    let room = all.most - by;
    if range.least > range.most {
        return all;
    }
    if range.most <= room {
        return Range {
            least: range.least + by,
            most: range.most + by,
        };
    }
    if range.least > room {
        return Range {
            least: range.least - room - 1,
            most: range.most - room - 1,
        };
    }
    all
}
