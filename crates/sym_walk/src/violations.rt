// Violations: which duty they fail, and in which runs.
ghost use Rattle.std.specs.Prelude.{◌≡◌, ◌+◌, ◌<◌, ◌^◌, IfOk, Some, length};
ghost use Rattle.c_core.specs.Operators.{type_for};
ghost use Rattle.c_core.specs.Parts.{spot_of};
ghost use Rattle.c_core.specs.Types.{promote_of};
ghost use Rattle.c_core.specs.View.{expr_view};
ghost use Rattle.c_meaning.specs.Meaning.{Site};
ghost use Rattle.circuits.specs.Numbers.{AreTyped};
ghost use Rattle.circuits.specs.Outcome.{binary_type, one_type};
ghost use Rattle.sym_state.specs.Standing.{IsState};
ghost use Rattle.sym_values.specs.Storing.{reach_of, Ends};
ghost use Rattle.sym_values.specs.Valuing.{where_of, IsDutyAt, CountsWhere, Gives, operated, operated_one, operated_cost, operated_one_cost};
ghost use Rattle.sym_walk.specs.Walking.{program_of, mode_of, IsWalk};

use crate::walk::{Judging, Walk};
use c_core::{BinOp, Expr, IntType, Spot, UnOp};
use circuits::{Bit, Bits};
use seek_passes::Violation;
use sym_invariants::Obliged;
use sym_state::{Around, Sym};
use wv_base::OutOfMemory;

/// A full expression in a statement, with the number of the duty that a violation in it fails.
pub fn around(walk: &Walk, statement: Spot, e: &Expr) -> Around
    requires { IsWalk walk.now }
    ensures place { where_of result ≡ record { statement = statement; full = spot_of (expr_view e.now) } }
    ensures duty { IsDutyAt (program_of walk.now) (mode_of walk.now) result }
{
    match walk.mode {
        Judging::Obliges(mode) => {
            let obliged = Obliged {
                alloc: walk.alloc,
                program: walk.program,
                mode,
            };
            sym_invariants::around(&obliged, statement, e)
        }
        // the hit is the one duty
        Judging::Seeks(mode) => Around {
            statement,
            full: e.spot,
            duty: 0,
        },
    }
}

// In which runs a violation in a full expression counts: in a call, or in an operator. Of obligations each does.
fn counts(walk: &Walk, sym: &Sym, at: Around, call: Option<Spot>) -> Result<Bit, OutOfMemory>
    requires walk { IsWalk walk.now }
    requires fits { IsState (program_of walk.now) sym.now }
    ensures { IfOk result (λ r. CountsWhere (program_of walk.now) (mode_of walk.now) at call sym.now r) }
{
    match walk.mode {
        Judging::Obliges(mode) => Ok(sym.net.yes()),
        Judging::Seeks(mode) => {
            // as in `follow`
            if sym.completed.len() != mode.segments.len() {
                return Err(OutOfMemory);
            }
            let violation = Violation {
                statement: at.statement,
                full: at.full,
                call,
            };
            Ok(seek_passes::counts(sym, mode.segments, violation))
        }
    }
}

/// An operator of two numbers, whose sides are converted first. Where its overflow is a violation that counts, runs fail.
pub fn operate(
    walk: &Walk,
    sym: &mut Sym,
    at: Around,
    spot: Spot,
    op: BinOp,
    a: IntType,
    x: &Bits,
    b: IntType,
    y: &Bits,
) -> Result<Bits, OutOfMemory>
    requires walk { IsWalk walk.now }
    requires fits { IsState (program_of walk.now) sym.old }
    requires duty { IsDutyAt (program_of walk.now) (mode_of walk.now) at }
    requires x_in { AreTyped walk.now.program.now.model a sym.old.net x.now.bits }
    requires y_in { AreTyped walk.now.program.now.model b sym.old.net y.now.bits }
    requires room { length sym.old.net + operated_cost walk.now.program.now.model op a b < 2 ^ 27 }
    ensures { IfOk result (λ r. Gives (program_of walk.now) (mode_of walk.now)
        (operated_cost walk.now.program.now.model op a b) 0 sym.old sym.new
        (Some (binary_type op (type_for walk.now.program.now.model op a b))) r.bits
        (operated (program_of walk.now) (mode_of walk.now) at spot op a x.now.bits b y.now.bits sym.old)) }
{
    let counted = counts(walk, sym, at, None)?;
    let r = sym_values::operate(
        walk.alloc,
        walk.program,
        sym,
        at,
        counted,
        spot,
        op,
        a,
        x,
        b,
        y,
    )?;
    Ok(r)
}

/// The same of an operator of one number.
pub fn operate_one(
    walk: &Walk,
    sym: &mut Sym,
    at: Around,
    op: UnOp,
    a: IntType,
    x: &Bits,
) -> Result<Bits, OutOfMemory>
    requires walk { IsWalk walk.now }
    requires fits { IsState (program_of walk.now) sym.old }
    requires duty { IsDutyAt (program_of walk.now) (mode_of walk.now) at }
    requires x_in { AreTyped walk.now.program.now.model a sym.old.net x.now.bits }
    requires room { length sym.old.net + operated_one_cost walk.now.program.now.model op a < 2 ^ 27 }
    ensures { IfOk result (λ r. Gives (program_of walk.now) (mode_of walk.now)
        (operated_one_cost walk.now.program.now.model op a) 0 sym.old sym.new (Some (one_type op (promote_of a))) r.bits
        (operated_one (program_of walk.now) (mode_of walk.now) at op a x.now.bits sym.old)) }
{
    let counted = counts(walk, sym, at, None)?;
    let r = sym_values::operate_one(walk.alloc, walk.program, sym, at, counted, op, a, x)?;
    Ok(r)
}

/// A call of `reach_error` at a place: the violation, or where that is an overflow the end.
pub fn reach(walk: &Walk, sym: &mut Sym, at: Around, spot: Spot) -> Result<(), OutOfMemory>
    requires walk { IsWalk walk.now }
    requires fits { IsState (program_of walk.now) sym.old }
    requires duty { IsDutyAt (program_of walk.now) (mode_of walk.now) at }
    requires room { length sym.old.net < 2 ^ 27 }
    ensures { IfOk result (λ r. (site : Site) → site.spot ≡ spot
        → Ends (program_of walk.now) (mode_of walk.now) 4 sym.old sym.new
        (reach_of (program_of walk.now) (mode_of walk.now) at site)) }
{
    let counted = counts(walk, sym, at, Some(spot))?;
    sym_values::reach(sym, walk.program, at, counted)?;
    Ok(())
}
