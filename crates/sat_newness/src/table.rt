// Tables of weights by literal.
ghost use Rattle.std.specs.Prelude.{◌≡◌, IsTrue, neg_ℤ, slice_index};
ghost use Rattle.clauses.specs.Clause.{IsNumber};
ghost use Rattle.sat_newness.specs.Weights.{code as code_of, IsTable};

/// The weight at a code, 0 beyond the end.
#[inline(always)]
pub fn at(table: &[u8], code: u32) -> u8
    ensures { result ≡ slice_index table.now code }
{
    let place = code as usize;
    if place < table.len() { table[place] } else { 0 }
}

/// Where tables keep a number.
pub fn code(number: i32) -> u32
    requires { IsNumber number }
    ensures { result ≡ code_of number }
{
    let variable = number.unsigned_abs();
    if number < 0 {
        2 * variable + 1
    } else {
        2 * variable
    }
}

/// Where tables keep the opposite of a number.
pub fn opposite_code(number: i32) -> u32
    requires { IsNumber number }
    ensures { result ≡ code_of (neg_ℤ number) }
{
    let variable = number.unsigned_abs();
    if number < 0 {
        2 * variable
    } else {
        2 * variable + 1
    }
}

/// Whether no number and its opposite weigh more than 2 together.
pub fn is_table(table: &[u8]) -> bool
    ensures { IsTrue result → IsTable table.now }
{
    if table.len() % 2 != 0 || at(table, 0) != 0 {
        return false;
    }
    for variable in 0..table.len() / 2 {
        if table[2 * variable] as u32 + table[2 * variable + 1] as u32 > 2 {
            return false;
        }
    }
    true
}
