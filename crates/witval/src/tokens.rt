ghost use Rattle.std.specs.Prelude.{◌≤◌, length, IfOk};
ghost use Rattle.c_parser.specs.Formed.{AreOrderly};
ghost use Rattle.c_tokens.specs.Reading.{Answers};

use c_tokens::{Token, TokenFault, tokens};
use std::alloc::Global;
use wv_base::Seq;

/// The tokens of a program of allowed length, one after the other.
pub fn program_tokens(alloc: Global, program: &[u8]) -> Result<Seq<Token>, TokenFault>
    requires { length program.now ≤ 1048576 }
    ensures found { Answers program.now result }
    ensures orderly { IfOk result AreOrderly }
{
    match tokens(alloc, program) {
        Ok(found) => Ok(found),
        Err(fault) => Err(fault),
    }
}
