// Laws, each the contract of a function without a body.
ghost use Rattle.std.specs.Prelude.{◌*◌, ◌<◌, ◌≤◌, ℕ, List, None, length};
ghost use Rattle.c_calls.specs.Calling.{IsFirstRecursion};
ghost use Rattle.c_core.specs.Tree.{Program};
ghost use Rattle.c_core.specs.declared.number.DataModel.{DataModel};
ghost use Rattle.c_core.specs.declared.number.Property.{Property};
ghost use Rattle.c_parser.specs.Sources.{IsSource};
ghost use Rattle.c_parser.specs.Tree.{Item};
ghost use Rattle.c_room.specs.Room.{HasRoom, most_functions};
ghost use Rattle.c_tokens.specs.Reading.{Ending, Tokens};
ghost use Rattle.c_tokens.specs.declared.token.Token.{Token};
ghost use Rattle.check_rules.specs.Parts.{bodies_of};
ghost use Rattle.source_room.specs.Texts.{IsTextOf, most_bytes};

use c_parser::{sources_are_formed, tokens_are_orderly};
use c_room::runs_have_room;
use check_wellformed::checked_programs_fit;

/// A text has at most as many tokens as bytes.
pub fn tokens_are_few()
    ensures { (text : List ℕ) (ts : List Token) (end : Ending) → Tokens text ts end → length ts ≤ length text }
{}

/// A function with a body takes six tokens at least, as `int f() {}` does.
pub fn functions_take_tokens()
    ensures { (ts : List Token) (items : List Item) → IsSource ts items → 6 * length (bodies_of items) ≤ length ts }
{}

/// So the program of a text of at most 1,048,576 bytes, the longest that is read, has fewer than 800,000 functions.
pub fn functions_are_few()
    ensures { (m : DataModel) (property : Property) (text : List ℕ) (p : Program) → IsTextOf m property text p
        → length text ≤ most_bytes → length p.functions < most_functions }
{}

/// So no run of such a program is deep where main reaches no cycle of calls.
pub fn runs_of_sources_have_room()
    ensures { (m : DataModel) (property : Property) (text : List ℕ) (p : Program) → IsTextOf m property text p
        → length text ≤ most_bytes → IsFirstRecursion p None → HasRoom p }
{
    tokens_are_orderly();
    sources_are_formed();
    checked_programs_fit();
    runs_have_room();
}
