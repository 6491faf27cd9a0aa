// Laws, each the contract of a function that says nothing else.
ghost use Rattle.std.specs.Prelude.{◌≤◌, ℕ, List, Result};
ghost use Rattle.c_parser.specs.Parsing.{Answers, IsFound};
ghost use Rattle.c_parser.specs.Sources.{IsSource};
ghost use Rattle.c_parser.specs.declared.fault.ParseFault.{ParseFault};
ghost use Rattle.c_parser.specs.declared.item.Source.{Source};
ghost use Rattle.c_tokens.specs.Reading.{Tokens, Whole};
ghost use Rattle.wv_author.specs.Demo.{AreWithin, demo_of};
ghost use Rattle.wv_author.specs.Programs.{correct_program, faulty_program};
ghost use Rattle.wv_author.specs.Sequence.{bounds, loop_count};
ghost use Rattle.demo_laws.specs.Bounds.{AreBounds};
ghost use Rattle.demo_laws.specs.DemoLines.{correct_pieces, faulty_pieces};
ghost use Rattle.demo_laws.specs.Lines.{tokens_from};
ghost use Rattle.demo_laws.specs.Source.{correct_items, faulty_items};

use c_parser::{one_source, source_or_syntax};

/// The loops of a number have bounds from 1 to 100.
pub fn demos_have_bounds()
    ensures { (n : ℕ) → AreBounds (bounds n loop_count) }
{}

/// The programs of a number are the tokens of their lines.
pub fn demos_are_tokens()
    ensures correct { (n : ℕ) → AreWithin (demo_of n)
        → Tokens (correct_program n) (tokens_from 1 (correct_pieces (bounds n loop_count))) Whole }
    ensures faulty { (n : ℕ) → n ≤ 999999 → AreWithin (demo_of n)
        → Tokens (faulty_program n) (tokens_from 1 (faulty_pieces n (bounds n loop_count))) Whole }
{}

/// The tokens of their lines spell these sources, whatever the bounds of the loops are.
pub fn demos_are_sources()
    ensures correct { (bs : List ℕ) → IsSource (tokens_from 1 (correct_pieces bs)) (correct_items bs) }
    ensures faulty { (n : ℕ) (bs : List ℕ) → IsSource (tokens_from 1 (faulty_pieces n bs)) (faulty_items n bs) }
{}

/// So no answer to these tokens is a refusal, and each that isn't out of memory has these items.
pub fn demos_are_parsed()
    ensures correct { (bs : List ℕ) (answer : Result Source ParseFault)
        → Answers (tokens_from 1 (correct_pieces bs)) answer → IsFound answer (correct_items bs) }
    ensures faulty { (n : ℕ) (bs : List ℕ) (answer : Result Source ParseFault)
        → Answers (tokens_from 1 (faulty_pieces n bs)) answer → IsFound answer (faulty_items n bs) }
{
    one_source();
    source_or_syntax();
}
