// Products of unknowns.
ghost use Rattle.std.specs.Prelude.{◌≡◌, ℕ, ◌+◌, ◌<◌, ◌∷◌, [], MatchOption, IfSome, MatchBool};
ghost use Rattle.polynomials.specs.Values.{degree, AreFactorsBelow};
ghost use Rattle.polynomials.specs.Calls.{IsProduct, IsQuotient, IsTooHigh};

/// The most factors of a product.
pub const MOST_FACTORS: usize = 6;

/// Numbers of unknowns, 0 for none. The calls of this crate keep them in descending order, and odd ones once.
pub type Factors = [u32; 6];

/// The product. A factor that is 0 or 1 is its own square.
pub fn times(a: Factors, b: Factors) -> Option<Factors>
    ensures { MatchOption result (IsTooHigh a b) (λ r. IsProduct a b r) }
{
    let mut product = a;
    for i in 0..MOST_FACTORS {
        let Some(next) = with_factor(product, b[i]) else {
            return None;
        };
        product = next;
    }
    Some(product)
}

// one factor more: it takes the place of the first lesser one, which moves on
fn with_factor(factors: Factors, x: u32) -> Option<Factors>
    ensures { MatchOption result (IsTooHigh factors (x ∷ [])) (λ r. IsProduct factors (x ∷ []) r) }
{
    let mut product = factors;
    let mut carried = x;
    for i in 0..MOST_FACTORS {
        let held = product[i];
        if held == carried && held % 2 == 1 {
            carried = 0;
        } else if held < carried {
            product[i] = carried;
            carried = held;
        }
    }
    if carried == 0 { Some(product) } else { None }
}

/// The factors that `b` lacks to be `a`, if it divides `a`.
pub fn over(a: Factors, b: Factors) -> Option<Factors>
    ensures { IfSome result (λ r. IsQuotient a b r) }
{
    let rest = lacking(a, b);
    match times(rest, b) {
        Some(product) if product == a => Some(rest),
        _ => None,
    }
}

// the factors of `a` without those of `b`, both in descending order
fn lacking(a: Factors, b: Factors) -> Factors
    ensures { (n : ℕ) → AreFactorsBelow n a → AreFactorsBelow n result }
{
    let mut rest = [0; 6];
    let mut passed = 0;
    let mut kept = 0;
    for i in 0..MOST_FACTORS {
        if passed < MOST_FACTORS && a[i] == b[passed] {
            passed += 1;
        } else if kept < MOST_FACTORS {
            rest[kept] = a[i];
            kept += 1;
        }
    }
    rest
}

/// Whether `a` comes after `b` in the lists of factors that are read from the first on.
pub fn exceeds(a: Factors, b: Factors) -> bool {
    for i in 0..MOST_FACTORS {
        if a[i] != b[i] {
            return a[i] > b[i];
        }
    }
    false
}

/// Whether there is no unknown among the factors.
pub fn is_one(factors: Factors) -> bool
    ensures { MatchBool result (degree factors ≡ 0) (0 < degree factors) }
{
    for i in 0..MOST_FACTORS {
        if factors[i] != 0 {
            return false;
        }
    }
    true
}
