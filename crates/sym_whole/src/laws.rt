// Laws on states: they are said, and nothing is done.
ghost use Rattle.std.specs.Prelude.{ℕ, Bool, List, ℤ, Option};
ghost use Rattle.c_core.specs.View.{program_view};
ghost use Rattle.c_core.specs.declared.number.IntType.{IntType as NumberType};
ghost use Rattle.c_meaning.specs.declared.run.Duty.{Duty};
ghost use Rattle.c_meaning.specs.Acts.{Res, Flow};
ghost use Rattle.c_meaning.specs.Cells.{Cell};
ghost use Rattle.c_meaning.specs.Havoc.{Stopped};
ghost use Rattle.sym_meaning.specs.Mode.{JudgedState};
ghost use Rattle.sym_flow.specs.Leaving.{Runs};
ghost use Rattle.sym_state.specs.Following.{Deed};
ghost use Rattle.sym_state.specs.Standing.{IsState};
ghost use Rattle.sym_whole.specs.Deciding.{IsStart, Decides, IsLarger};
ghost use Rattle.sym_whole.specs.Finding.{IsFound};

use c_core::Program;
use sym_state::Sym;

/// For every list of values some inputs make the sites of a state draw from it.
pub fn found(program: &Program, sym: &Sym)
    requires fits { IsState (program_view program.now) sym.now }
    ensures { (w : List ℤ) → IsFound (program_view program.now) sym.now w }
{
    let _nodes = sym.net.nodes();
}

/// A state after a program decides its havoc runs: where they end, and what they draw.
pub fn decides(program: &Program, first: &Sym, last: &Sym)
    ensures { (ds : List Duty) (result_type : Option NumberType) (ands inputs : ℕ) (start : List Cell) (before : List Bool)
        (run : JudgedState → Res Stopped JudgedState Flow) → IsStart ds (program_view program.now) start before first.now
        → Runs ds (program_view program.now) result_type ands inputs first.now last.now (λ v. run)
        → Decides ds (program_view program.now) start before last.now run }
{
    let _nodes = last.net.nodes();
}

/// A part adds no more and-nodes and inputs than it states.
pub fn larger(program: &Program, first: &Sym, last: &Sym)
    ensures { (ds : List Duty) (result_type : Option NumberType) (ands inputs : ℕ) (deed : Deed Flow)
        → Runs ds (program_view program.now) result_type ands inputs first.now last.now deed
        → IsLarger ands inputs first.now last.now }
{
    let _nodes = last.net.nodes();
}
