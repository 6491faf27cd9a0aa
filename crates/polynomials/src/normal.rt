// Polynomials up to odd multiples.
ghost use Rattle.std.specs.Prelude.{◌≤◌};
ghost use Rattle.polynomials.specs.Calls.{HasSameZeros};

use crate::Polynomial;
use crate::modular::{inverse_of, masked};

impl Polynomial {
    /// Multiplies by a number that has an inverse, so that the first coefficient with the fewest factors 2 becomes a
    /// power of 2: odd multiples of a polynomial, its opposite among them, get the same terms.
    pub fn normalise(&mut self, width: u32)
        requires { width ≤ 64 }
        ensures { HasSameZeros width self.old self.new }
    {
        let odd = self.odd_part();
        let inverse = inverse_of(odd);
        if masked(width, odd.wrapping_mul(inverse)) != 1 {
            return;
        }
        self.scale(width, inverse);
    }

    // the odd part of the first coefficient with the fewest factors 2
    fn odd_part(&self) -> u64 {
        let terms = self.terms();
        let mut odd = 1;
        let mut fewest = 64;
        for i in 0..terms.len() {
            let twos = terms[i].coefficient.trailing_zeros();
            if twos < fewest {
                odd = terms[i].coefficient >> twos;
                fewest = twos;
            }
        }
        odd
    }
}
