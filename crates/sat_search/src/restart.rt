// When the search starts again: after 100 conflicts times a term of Luby's sequence 1 1 2 1 1 2 4 ..

/// When the search goes back to its first level.
#[derive(Clone, Copy)]
pub struct Restart {
    /// the sequence by Knuth's two counters
    turn: u64,
    term: u64,
    left: u64,
}

const UNIT: u64 = 100;

impl Restart {
    /// Before the first conflict.
    pub fn new() -> Restart {
        Restart {
            turn: 1,
            term: 1,
            left: UNIT,
        }
    }

    // the next term: it doubles until it is the lowest bit of the turn
    fn advance(&mut self) {
        let turn = self.turn;
        if turn & turn.wrapping_neg() == self.term {
            self.turn = turn.wrapping_add(1);
            self.term = 1;
        } else {
            self.term = self.term.wrapping_mul(2);
        }
        self.left = self.term.wrapping_mul(UNIT);
    }

    /// Tells of a conflict: whether to start again.
    pub fn is_due(&mut self) -> bool {
        if self.left > 1 {
            self.left -= 1;
            return false;
        }
        self.advance();
        true
    }
}
