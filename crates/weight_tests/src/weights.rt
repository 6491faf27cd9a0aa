// The weights of `ExampleSeekWeights` by the call that counts them, and bounds on both sides of the limit.
use c_check::check;
use c_core::{BinOp, DataModel, Expr, IntType, Node, Program, Property, Spot};
use c_meaning::Way;
use c_parser::{Source, parse};
use c_tokens::tokens;
use seek_weight::weigh;
use std::alloc::Global;
use std::test::Fail;
use way_match::{Aim, Bound, BoundSegment, Point, ReturnTest};
use wv_base::{OutOfMemory, Seq};

const COUNT_TO_THREE: &str = "\
void reach_error() { }
int main() {
  int i = 0;
  while (i < 3) {
    i = i + 1;
    i;
  }
  reach_error();
  return 0;
}
";

const RECURSE: &str = "\
void reach_error() { }
int f(int n) { if (n <= 0) { return 0; } return f(n - 1); }
int main() {
  f(3);
  reach_error();
  return 0;
}
";

const CALL_IN_CALL: &str = "\
void reach_error() { }
void f() { }
void g() { f(); }
int main() {
  g();
  g();
  reach_error();
  return 0;
}
";

const BRANCH_ON_INPUT: &str = "\
void reach_error() { }
int __VERIFIER_nondet_int();
int main() {
  int x = __VERIFIER_nondet_int();
  if (x == 5) {
    reach_error();
  }
  return 0;
}
";

const MAX_LENGTH: usize = 100000;

fn parsed(alloc: Global, text: &[u8]) -> Option<Source> {
    if text.len() > MAX_LENGTH {
        return None;
    }
    let Ok(found) = tokens(alloc, text) else {
        return None;
    };
    parse(alloc, &found).ok()
}

fn program(alloc: Global, source: &str) -> Option<Program> {
    let source = parsed(alloc, source.as_bytes())?;
    check(alloc, &source, DataModel::Ilp32, Property::UnreachCall).ok()
}

fn at(line: u32, column: u32) -> Spot {
    Spot { line, column }
}

fn int(node: Node) -> Expr {
    Expr {
        spot: at(1, 1),
        ty: Some(IntType::Int),
        node,
    }
}

// The first object is equal to a number.
fn first_is(alloc: Global, number: i128) -> Result<Expr, OutOfMemory> {
    let left = Box::new(alloc, int(Node::Var(0)))?;
    let right = Box::new(alloc, int(Node::Const(number)))?;
    Ok(int(Node::Binary {
        op: BinOp::Eq,
        left,
        right,
    }))
}

fn follow(alloc: Global, point: Point) -> BoundSegment {
    BoundSegment {
        avoids: Seq::new(alloc),
        follow: point,
    }
}

fn target(line: u32, column: u32) -> Point {
    Point::Target(Aim::At(at(line, column)))
}

fn bound_to(alloc: Global, point: Point) -> Result<Bound, OutOfMemory> {
    let mut segments = Seq::new(alloc);
    segments.push(follow(alloc, point))?;
    Ok(Bound { segments })
}

// The input returns 6, then the error.
fn a_return(alloc: Global) -> Result<Bound, OutOfMemory> {
    let test = ReturnTest {
        op: BinOp::Eq,
        constant: int(Node::Const(6)),
    };
    let mut segments = Seq::new(alloc);
    segments.push(follow(alloc, Point::Return(at(4, 33), Some(test))))?;
    segments.push(follow(alloc, target(6, 5)))?;
    Ok(Bound { segments })
}

// The input is 5 at the `if`, whose test is true, then the error.
fn an_assumption_and_a_way(alloc: Global) -> Result<Bound, OutOfMemory> {
    let five = first_is(alloc, 5)?;
    let mut segments = Seq::new(alloc);
    segments.push(follow(alloc, Point::Assume(at(5, 3), five)))?;
    segments.push(follow(alloc, Point::Branch(at(5, 3), Way::Truth(true))))?;
    segments.push(follow(alloc, target(6, 5)))?;
    Ok(Bound { segments })
}

fn weight(alloc: Global, source: &str, bound: &Bound, turns: u32) -> Result<Option<u64>, Fail> {
    let program = program(alloc, source).ok_or("refused")?;
    let weight = weigh(alloc, &program, bound, turns)?;
    Ok(weight)
}

#[test]
fn turns_and_calls_weigh_as_by_the_definition(rt: HostRuntime) -> Result<(), Fail> {
    let alloc = rt.alloc();
    let after_loop = bound_to(alloc, target(8, 3))?;
    for (turns, wanted) in [(1, 5104), (2, 7456), (3, 9808)] {
        let found = weight(alloc, COUNT_TO_THREE, &after_loop, turns)?;
        assert_eq!(rt; found, Some(wanted), "{turns} turns");
    }
    let after_call = bound_to(alloc, target(5, 3))?;
    for (depth, wanted) in [(1, 5088), (2, 8448)] {
        let found = weight(alloc, RECURSE, &after_call, depth)?;
        assert_eq!(rt; found, Some(wanted), "{depth} calls deep");
    }
    let after_calls = bound_to(alloc, target(7, 3))?;
    for (depth, wanted) in [(1, 3808), (2, 4320), (3, 4320)] {
        let found = weight(alloc, CALL_IN_CALL, &after_calls, depth)?;
        assert_eq!(rt; found, Some(wanted), "{depth} calls deep");
    }
    Ok(())
}

#[test]
fn waypoints_weigh_as_by_the_definition(rt: HostRuntime) -> Result<(), Fail> {
    let alloc = rt.alloc();
    let returned = weight(alloc, BRANCH_ON_INPUT, &a_return(alloc)?, 8)?;
    assert_eq!(rt; returned, Some(4464));
    let assumed = weight(alloc, BRANCH_ON_INPUT, &an_assumption_and_a_way(alloc)?, 1)?;
    assert_eq!(rt; assumed, Some(5104));
    Ok(())
}

// Each turn of the loop weighs 2,352.
#[test]
fn the_limit_lies_between_849_and_850_turns(rt: HostRuntime) -> Result<(), Fail> {
    let alloc = rt.alloc();
    let after_loop = bound_to(alloc, target(8, 3))?;
    assert_eq!(rt;
        weight(alloc, COUNT_TO_THREE, &after_loop, 849)?,
        Some(1999600)
    );
    assert_eq!(rt; weight(alloc, COUNT_TO_THREE, &after_loop, 850)?, None);
    Ok(())
}
