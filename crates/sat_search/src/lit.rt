// Literals: a variable or its opposite, as one number.
/// Variable v is 2v, and its opposite 2v + 1.
#[derive(Clone, Copy)]
pub struct Lit {
    pub code: u32,
}

impl Lit {
    /// The literal of a number of DIMACS.
    pub fn of_number(number: i32) -> Lit {
        let code = number.unsigned_abs().wrapping_mul(2);
        Lit {
            code: if number < 0 { code | 1 } else { code },
        }
    }

    /// The literal as a clause has it: a variable's number from 1, negative where it is negated.
    pub fn number(self) -> i32 {
        let variable = (self.code / 2) as i32;
        if self.is_negative() {
            -variable
        } else {
            variable
        }
    }

    /// A variable, or its opposite.
    pub fn of_variable(variable: u32, value: bool) -> Lit {
        let code = variable.wrapping_mul(2);
        Lit {
            code: if value { code } else { code | 1 },
        }
    }

    /// The negated literal.
    #[inline(always)]
    pub fn opposite(self) -> Lit {
        Lit {
            code: self.code ^ 1,
        }
    }

    /// The variable's number from 0.
    #[inline(always)]
    pub fn variable(self) -> usize {
        (self.code / 2) as usize
    }

    /// Whether the variable is negated.
    pub fn is_negative(self) -> bool {
        self.code & 1 == 1
    }

    /// Where tables by literal keep it.
    #[inline(always)]
    pub fn index(self) -> usize {
        self.code as usize
    }
}
