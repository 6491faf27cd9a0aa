// Whether numbers are those of a clause.
ghost use Rattle.std.specs.Prelude.{◌↔◌, ℤ, neg_ℤ, IsTrue};
ghost use Rattle.std.specs.List.{All, Contains};
ghost use Rattle.clauses.specs.Clause.{Rises, IsNumber, IsConsistent, IsClause};

// whether each number is above the one before it.
fn rises(numbers: &[i32]) -> bool
    ensures { IsTrue result ↔ Rises numbers.now }
{
    for i in 1..numbers.len() {
        if numbers[i] <= numbers[i - 1] {
            return false;
        }
    }
    true
}

// whether numbers are nonzero and above -2^31.
fn are_real(numbers: &[i32]) -> bool
    ensures { IsTrue result ↔ All IsNumber numbers.now }
{
    for x in numbers {
        let size = x.unsigned_abs();
        if size == 0 || size >= 1 << 31 {
            return false;
        }
    }
    true
}

// whether rising numbers hold none with its opposite: from both ends inwards.
fn is_consistent(numbers: &[i32]) -> bool
    requires rising { Rises numbers.now }
    requires real { All IsNumber numbers.now }
    ensures { IsTrue result ↔ IsConsistent numbers.now }
{
    let mut low = 0;
    let mut high = numbers.len();
    while low < high {
        let opposite = -numbers[high - 1];
        if numbers[low] == opposite {
            return false;
        }
        if numbers[low] < opposite {
            low += 1;
        } else {
            high -= 1;
        }
    }
    true
}

/// Whether numbers are those of a clause.
pub fn are_clause(numbers: &[i32]) -> bool
    ensures { IsTrue result ↔ IsClause numbers.now }
{
    if !rises(numbers) {
        return false;
    }
    if !are_real(numbers) {
        return false;
    }
    is_consistent(numbers)
}
