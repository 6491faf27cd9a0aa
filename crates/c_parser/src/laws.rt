// Laws of the grammar, each the contract of a function without a body.
ghost use Rattle.std.specs.Prelude.{◌≡◌, ◌<◌, ◌≤◌, ◌^◌, ◌⊎◌, ℕ, true, List, [], Option, length};
ghost use Rattle.c_core.specs.TextOrder.{rises};
ghost use Rattle.c_core.specs.declared.number.Spot.{Spot};
ghost use Rattle.c_tokens.specs.Reading.{Ending, Tokens};
ghost use Rattle.c_tokens.specs.declared.token.Token.{Token};
ghost use Rattle.c_parser.specs.Tree.{Exp, Item};
ghost use Rattle.c_parser.specs.Expressions.{Spells};
ghost use Rattle.c_parser.specs.Sources.{Takes, IsSource, IsSyntax, max_height, max_brackets};
ghost use Rattle.c_parser.specs.TextOrder.{spots_of_items, tokens_rise};
ghost use Rattle.c_parser.specs.Formed.{AreOrderly, IsFormed};

/// Each list of tokens spells a source, or has a first item that fits no form.
pub fn some_outcome()
    ensures { (ts : List Token) → ((xs : List Item) × IsSource ts xs) ⊎ ((p : Spot) × IsSyntax ts p) }
{}

/// Tokens spell at most one source.
pub fn one_source()
    ensures { (ts : List Token) (xs ys : List Item) → IsSource ts xs → IsSource ts ys → xs ≡ ys }
{}

/// Tokens that spell a source have no first item that fits no form.
pub fn source_or_syntax()
    ensures { (ts : List Token) (xs : List Item) (p : Spot) → IsSource ts xs → IsSyntax ts p → ⊥ }
{}

/// The first item that fits no form begins at one place.
pub fn one_syntax()
    ensures { (ts : List Token) (p q : Spot) → IsSyntax ts p → IsSyntax ts q → p ≡ q }
{}

/// One item is taken from the front of tokens: what the first form that spells a front of them within the limits gives.
pub fn one_item()
    ensures { (ts : List Token) (x y : Option Item) (r s : List Token) → Takes max_height max_brackets ts x r
        → Takes max_height max_brackets ts y s → (x ≡ y) × (r ≡ s) }
{}

/// Tokens spell at most one expression, whichever strength it has to have (1 is a whole expression, 15 a unary one).
pub fn one_expression()
    ensures { (brackets strength : ℕ) (ts : List Token) (e u : Exp) → 1 ≤ strength → strength ≤ 15
        → Spells brackets strength ts e [] → Spells brackets strength ts u [] → e ≡ u }
{}

/// The places of the parts of a source rise, as those of its tokens do: names, statements, expressions, the marks of
/// choices and the closing parentheses of calls follow the order of the text.
pub fn text_order()
    ensures { (ts : List Token) (xs : List Item) → IsSource ts xs → tokens_rise ts ≡ true → rises (spots_of_items xs)
        ≡ true }
{}

/// What orderly tokens spell meets the invariant of a source.
pub fn sources_are_formed()
    ensures { (ts : List Token) (xs : List Item) → AreOrderly ts → IsSource ts xs → IsFormed xs }
{}

/// The tokens of a text are orderly.
pub fn tokens_are_orderly()
    ensures { (text : List ℕ) (ts : List Token) (end : Ending) → length text < 2 ^ 30 → Tokens text ts end
        → AreOrderly ts }
{}
