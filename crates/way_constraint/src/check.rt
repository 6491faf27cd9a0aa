ghost use Rattle.std.specs.Prelude.{IfOk};
ghost use Rattle.c_core.specs.View.{program_view, expr_view as typed_view};
ghost use Rattle.c_parser.specs.View.{expr_view};
ghost use Rattle.way_names.specs.AtPlaces.{program_at, visible};
ghost use Rattle.way_constraint.specs.Constraints.{AnswersConstraint, AnswersIn, FitsConstraint, entries};

use crate::known::names_objects;
use crate::names::names_in_scope;
use crate::words::objects_named;
use c_core::{DataModel, Expr, Object, Program};
use c_parser::{ExprFault, RawExpr};
use check_rules::Role;
use check_scope::Functions;
use check_types::expression;
use std::alloc::Global;
use way_names::NamesAt;
use wv_base::Seq;

/// The typed tree of an expression whose words are objects, given by their numbers.
pub fn constraint_in(
    alloc: Global,
    model: DataModel,
    objects: &Seq<Object>,
    numbers: &[u32],
    expr: &RawExpr,
) -> Result<Expr, ExprFault>
    ensures answer { AnswersIn model (entries objects.now numbers.now) (expr_view expr.now) result }
    ensures fits { IfOk result (λ tree. FitsConstraint numbers.now (expr_view expr.now) (typed_view tree)) }
{
    let table = names_in_scope(alloc, objects, numbers)?;
    if !names_objects(&table, expr) {
        return Err(ExprFault::Scope);
    }
    let functions = Functions::of(alloc, &[])?;
    let mut refusal = None;
    let typed = expression(
        alloc,
        &functions,
        &table,
        model,
        &mut refusal,
        Role::Value,
        expr,
    )?;
    match refusal {
        Some(_) => Err(ExprFault::Expression),
        None => Ok(typed),
    }
}

/// The typed tree of an expression of a witness, whose words are objects of the program: `names` are their numbers,
/// innermost last, and a word is the last of its name.
pub fn check_expr(
    alloc: Global,
    program: &Program,
    names: &Seq<u32>,
    expr: &RawExpr,
) -> Result<Expr, ExprFault>
    ensures answer { AnswersConstraint (program_view program.now) names.now (expr_view expr.now) result }
    ensures fits { IfOk result (λ tree. FitsConstraint names.now (expr_view expr.now) (typed_view tree)) }
{
    let tree = constraint_in(
        alloc,
        program.model,
        &program.objects,
        names.as_slice(),
        expr,
    )?;
    Ok(tree)
}

/// The same at a statement or a loop, over the objects that are visible there: only those that words of the expression
/// mean are declared.
pub fn check_at(alloc: Global, place: &NamesAt, expr: &RawExpr) -> Result<Expr, ExprFault>
    ensures answer { AnswersConstraint (program_at place.now) (visible place.now) (expr_view expr.now) result }
    ensures fits { IfOk result (λ tree. FitsConstraint (visible place.now) (expr_view expr.now) (typed_view tree)) }
{
    let few = objects_named(alloc, place, expr)?;
    let program = place.names.program;
    constraint_in(alloc, program.model, &program.objects, few.as_slice(), expr)
}
