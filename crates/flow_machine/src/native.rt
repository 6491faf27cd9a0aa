// Operators that are done often, as the processor does them; where a result isn't one of the type, and for the other
// operators, there is none.
ghost use Rattle.std.specs.Prelude.{◌≡◌, pos, IfSome};
ghost use Rattle.c_core.specs.Operators.{apply_of};
ghost use Rattle.c_core.specs.declared.number.DataModel.TheVariants.{Lp64};
ghost use Rattle.c_core.specs.declared.number.Done.TheVariants.{Value};
ghost use Rattle.c_core.specs.declared.number.IntType.TheVariants.{Int, UInt, LongLong, ULongLong};

use c_core::BinOp;

// A result that the type has.
macro_rules! kept {
    ($outcome:expr) => {
        match $outcome {
            Some(r) => Some(i128::from(r)),
            None => None,
        }
    };
}

// A result that an unsigned type always has, as it wraps.
macro_rules! wrapped {
    ($outcome:expr) => {{
        let (r, _over) = $outcome;
        Some(i128::from(r))
    }};
}

// Operators at one native type, with its sums, differences and products.
macro_rules! operators {
    ($op:ident, $a:ident, $b:ident, $sum:expr, $difference:expr, $product:expr) => {
        match $op {
            BinOp::Add => $sum,
            BinOp::Sub => $difference,
            BinOp::Mul => $product,
            BinOp::Div => kept!($a.checked_div($b)),
            BinOp::Rem => kept!($a.checked_rem($b)),
            BinOp::And => Some(i128::from($a & $b)),
            BinOp::Xor => Some(i128::from($a ^ $b)),
            BinOp::Or => Some(i128::from($a | $b)),
            BinOp::Lt => Some(i128::from($a < $b)),
            BinOp::Le => Some(i128::from($a <= $b)),
            BinOp::Gt => Some(i128::from($a > $b)),
            BinOp::Ge => Some(i128::from($a >= $b)),
            BinOp::Eq => Some(i128::from($a == $b)),
            BinOp::Ne => Some(i128::from($a != $b)),
            _ => None,
        }
    };
}

// At a signed type, which may not have a sum, difference or product.
macro_rules! signed {
    ($op:ident, $a:ident, $b:ident) => {
        operators!(
            $op,
            $a,
            $b,
            kept!($a.checked_add($b)),
            kept!($a.checked_sub($b)),
            kept!($a.checked_mul($b))
        )
    };
}

// At an unsigned type.
macro_rules! unsigned {
    ($op:ident, $a:ident, $b:ident) => {
        operators!(
            $op,
            $a,
            $b,
            wrapped!($a.overflowing_add($b)),
            wrapped!($a.overflowing_sub($b)),
            wrapped!($a.overflowing_mul($b))
        )
    };
}

/// At a signed type of 32 bits.
#[inline(always)]
pub fn signed_32(op: BinOp, a: i32, b: i32) -> Option<i128>
    ensures { IfSome result (λ r. apply_of Lp64 op Int a b ≡ Value r) }
{
    signed!(op, a, b)
}

/// At an unsigned type of 32 bits.
#[inline(always)]
pub fn unsigned_32(op: BinOp, a: u32, b: u32) -> Option<i128>
    ensures { IfSome result (λ r. apply_of Lp64 op UInt (pos a) (pos b) ≡ Value r) }
{
    unsigned!(op, a, b)
}

/// At a signed type of 64 bits.
#[inline(always)]
pub fn signed_64(op: BinOp, a: i64, b: i64) -> Option<i128>
    ensures { IfSome result (λ r. apply_of Lp64 op LongLong a b ≡ Value r) }
{
    signed!(op, a, b)
}

/// At an unsigned type of 64 bits.
#[inline(always)]
pub fn unsigned_64(op: BinOp, a: u64, b: u64) -> Option<i128>
    ensures { IfSome result (λ r. apply_of Lp64 op ULongLong (pos a) (pos b) ≡ Value r) }
{
    unsigned!(op, a, b)
}
