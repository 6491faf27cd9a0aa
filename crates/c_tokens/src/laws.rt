ghost use Rattle.std.specs.Prelude.{◌≡◌, ℕ, List};
ghost use Rattle.c_tokens.specs.declared.token.Token.{Token};
ghost use Rattle.c_tokens.specs.Reading.{Ending, Tokens};

/// Each text has an outcome: its tokens and where it stops being tokens.
pub fn some_outcome()
    ensures { (text : List ℕ) → (ts : List Token) × ((end : Ending) × Tokens text ts end) }
{}

/// A text has one outcome.
pub fn one_outcome()
    ensures { (text : List ℕ) (ts us : List Token) (end other : Ending) → Tokens text ts end → Tokens text us other
        → (ts ≡ us) × (end ≡ other) }
{}
