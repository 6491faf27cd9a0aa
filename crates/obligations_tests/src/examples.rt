// What is known of example programs under values that were chosen by hand.
use crate::cases::{Claim, evaluate};
use crate::inputs::input_of;
use crate::told::{Told, told_by_net};
use c_core::{DataModel, Property};
use c_meaning::{Duty, DutyKind};
use std::alloc::Global;
use std::test::Fail;
use wv_base::OutOfMemory;
use wv_schema::InvariantKind::Loop;

/// `count_up_down-1` of the competition's loops.
pub const COUNT_UP_DOWN: &str = "\
extern void abort(void);
extern void __assert_fail(const char *, const char *, unsigned int, const char *) __attribute__ ((__nothrow__ , __leaf__)) __attribute__ ((__noreturn__));
void reach_error() { __assert_fail(\"0\", \"count_up_down-1.c\", 3, \"reach_error\"); }

void __VERIFIER_assert(int cond) {
  if (!(cond)) {
    ERROR: {reach_error();abort();}
  }
  return;
}
unsigned int __VERIFIER_nondet_uint();

int main()
{
  unsigned int n = __VERIFIER_nondet_uint();
  unsigned int x=n, y=0;
  while(x>0)
  {
    x--;
    y++;
  }
  __VERIFIER_assert(y==n);
}
";

/// A loop that counts in a function that it calls.
pub const COUNT_CALLS: &str = "\
void reach_error() { }
int g;
void h() { g = g + 1; }
void f() { h(); }
int main() {
  int i = 0;
  while (i < 3) {
    f();
    i = i + 1;
  }
  if (g != 0) {
    reach_error();
  }
  return 0;
}
";

const COUNT_TO_TEN: &str = "\
void reach_error() { }
int main() {
  int x = 0;
  while (x < 10) {
    x = x + 1;
  }
  if (x != 10) {
    reach_error();
  }
  return 0;
}
";

const TEST_INPUT: &str = "\
void reach_error() { }
int __VERIFIER_nondet_int();
int main() {
  int x = __VERIFIER_nondet_int();
  if (x - x != 0) {
    reach_error();
  }
  return 0;
}
";

const ADD_TO_INPUT: &str = "\
int __VERIFIER_nondet_int();
int main() {
  int x = __VERIFIER_nondet_int();
  x + 1;
  return 0;
}
";

const STEP_CHAR: &str = "\
int main() {
  char c = 127;
  c++;
  return 0;
}
";

// A program with claims and a property, how many values a run draws at most and the values of some runs; then what is
// known: the obligations, and of each run the number of the one that fails, or 0, and what it draws where.
type Example = (
    &'static str,
    &'static [Claim],
    Property,
    usize,
    &'static [u64],
    &'static str,
);

const EXAMPLES: [Example; 9] = [
    (
        COUNT_UP_DOWN,
        &[(Loop, 17, "x <= n")],
        Property::UnreachCall,
        3,
        &[5, 0, 3, 5, 0, 5, 5, 6, 3, 5, 5, 3],
        "\
property 7:13
entry 17:3
kept 17:3
1 15:20=5 17:3=0 17:3=3
0 15:20=5 17:3=0 17:3=5
0 15:20=5 17:3=6 17:3=3
0 15:20=5 17:3=5 17:3=3
",
    ),
    (
        COUNT_UP_DOWN,
        &[(Loop, 17, "0")],
        Property::UnreachCall,
        1,
        &[0, 4294967295],
        "\
property 7:13
entry 17:3
kept 17:3
2 15:20=0
2 15:20=4294967295
",
    ),
    (
        COUNT_UP_DOWN,
        &[(Loop, 17, "x + y == n")],
        Property::UnreachCall,
        3,
        &[5, 0, 5, 5, 0, 4, 5, 5, 0, 0, 1, 4294967295],
        "\
property 7:13
entry 17:3
kept 17:3
0 15:20=5 17:3=0 17:3=5
0 15:20=5 17:3=0 17:3=4
0 15:20=5 17:3=5 17:3=0
0 15:20=0 17:3=1 17:3=4294967295
",
    ),
    (
        COUNT_CALLS,
        &[(Loop, 7, "g == 0")],
        Property::UnreachCall,
        2,
        &[0, 2, 0, 3, 1, 0],
        "\
entry 7:3
kept 7:3
property 12:5
2 7:3=0 7:3=2
0 7:3=0 7:3=3
0 7:3=1 7:3=0
",
    ),
    (
        COUNT_TO_TEN,
        &[(Loop, 4, "0 <= x && x <= 10")],
        Property::UnreachCall,
        1,
        &[0, 9, 10, 11, 4294967295],
        "\
entry 4:3
kept 4:3
property 8:5
0 4:3=0
0 4:3=9
0 4:3=10
0 4:3=11
0 4:3=-1
",
    ),
    (
        COUNT_TO_TEN,
        &[(Loop, 4, "x >= 0")],
        Property::NoOverflow,
        1,
        &[9, 10, 2147483647],
        "\
entry 4:3
kept 4:3
property 5:5
0 4:3=9
0 4:3=10
0 4:3=2147483647
",
    ),
    (
        TEST_INPUT,
        &[],
        Property::UnreachCall,
        1,
        &[5, 2147483648],
        "\
property 6:5
0 4:11=5
0 4:11=-2147483648
",
    ),
    (
        ADD_TO_INPUT,
        &[],
        Property::NoOverflow,
        1,
        &[2147483647, 4294967295],
        "\
property 4:3
1 3:11=2147483647
0 3:11=-1
",
    ),
    (
        STEP_CHAR,
        &[],
        Property::NoOverflow,
        1,
        &[0],
        "\
property 3:3
0
",
    ),
];

fn word(kind: DutyKind) -> &'static str {
    match kind {
        DutyKind::Location => "location",
        DutyKind::Entry => "entry",
        DutyKind::Kept => "kept",
        DutyKind::Property => "property",
    }
}

fn add_obligations(text: &mut String, list: &[Duty]) -> Result<(), OutOfMemory> {
    for duty in list {
        let kind = word(duty.kind);
        let line = duty.spot.line;
        let column = duty.spot.column;
        write!(text, "{kind} {line}:{column}\n")?;
    }
    Ok(())
}

fn add_run(text: &mut String, told: &Told) -> Result<(), OutOfMemory> {
    let failed = told.failed.unwrap_or(0);
    write!(text, "{failed}")?;
    for draw in told.draws.as_slice() {
        let line = draw.spot.line;
        let column = draw.spot.column;
        let value = draw.value;
        write!(text, " {line}:{column}={value}")?;
    }
    write!(text, "\n")?;
    Ok(())
}

fn answer(alloc: Global, example: &Example) -> Result<String, Fail> {
    let (source, claims, property, count, draws, _) = *example;
    let judged = evaluate(alloc, source, claims, property, DataModel::Ilp32).ok_or("refused")?;
    let mut text = String::new(alloc);
    add_obligations(&mut text, judged.all.list.as_slice())?;
    for values in draws.chunks(count.max(1)) {
        let inputs = input_of(alloc, judged.all.sites.as_slice(), values)?;
        add_run(&mut text, &told_by_net(alloc, &judged, &inputs)?)?;
    }
    Ok(text)
}

#[test]
fn examples_are_told_as_worked_out(rt: HostRuntime) -> Result<(), Fail> {
    for example in &EXAMPLES {
        assert_eq!(rt; answer(rt.alloc(), example)?.as_str(), example.5);
    }
    Ok(())
}
