// Programs without loops and calls of defined functions.
use crate::cases::Case;
use c_core::Property::{NoOverflow, UnreachCall};
use wv_schema::WayKind::{Assumption, Branching, FunctionReturn, Target};

const SWITCH: &str = "\
void reach_error() { }
_Bool __VERIFIER_nondet_bool();
int main() {
  int n = 0;
  _Bool a = __VERIFIER_nondet_bool();
  _Bool b = __VERIFIER_nondet_bool();
  switch (a + 2 * b) {
    case 3:
      n = 1;
    case 0:
      n = n + 1;
      break;
    default:
      n = 2;
  }
  if (n == 2) {
    reach_error();
  }
  return 0;
}
";

/// The programs, each with segments about it.
pub const CASES: [Case; 7] = [
    Case {
        name: "an avoid between branch and target",
        property: UnreachCall,
        source: "\
void reach_error() { }
unsigned char __VERIFIER_nondet_uchar();
int main() {
  unsigned char x = __VERIFIER_nondet_uchar();
  if (x > 250) {
    if (x % 2 == 0) {
      reach_error();
    }
  }
  return 0;
}
",
        parts: &[
            (&[], (Branching, 5, Some(3), Some("true"))),
            (
                &[(Assumption, 7, Some(7), Some("x == 254"))],
                (Target, 7, Some(7), None),
            ),
        ],
        sought: &[1],
    },
    Case {
        name: "cells without a value",
        property: UnreachCall,
        source: "\
void reach_error() { }
int main() {
  _Bool b[2];
  _Bool c;
  if (b[1] && !c && b[c]) {
    reach_error();
  }
  return 0;
}
",
        parts: &[(&[], (Target, 6, None, None))],
        sought: &[1],
    },
    Case {
        name: "choices",
        property: UnreachCall,
        source: "\
void reach_error() { }
_Bool __VERIFIER_nondet_bool();
int main() {
  _Bool a = __VERIFIER_nondet_bool();
  _Bool b = __VERIFIER_nondet_bool();
  int c = a ? b : !b;
  c ? reach_error() : (void) 0;
  return 0;
}
",
        parts: &[
            (&[], (Branching, 6, None, Some("false"))),
            (&[], (Target, 7, None, None)),
        ],
        sought: &[1],
    },
    Case {
        name: "no arm is chosen but default",
        property: UnreachCall,
        source: SWITCH,
        parts: &[
            (&[], (Branching, 7, None, Some("default"))),
            (&[], (Target, 17, None, None)),
        ],
        sought: &[2],
    },
    Case {
        name: "default isn't chosen",
        property: UnreachCall,
        source: SWITCH,
        parts: &[(
            &[(Branching, 7, None, Some("default"))],
            (Target, 17, None, None),
        )],
        sought: &[1],
    },
    Case {
        name: "a violation elsewhere",
        property: UnreachCall,
        source: "\
void reach_error() { }
_Bool __VERIFIER_nondet_bool();
int main() {
  _Bool a = __VERIFIER_nondet_bool();
  if (a) {
    reach_error();
  }
  if (__VERIFIER_nondet_bool()) {
    reach_error();
  }
  return 0;
}
",
        parts: &[(&[], (Target, 9, None, None))],
        sought: &[1],
    },
    Case {
        name: "products that don't fit",
        property: NoOverflow,
        source: "\
unsigned char __VERIFIER_nondet_uchar();
int main() {
  int x = __VERIFIER_nondet_uchar();
  x = x * 16777216;
  x = -x;
  return x - 1;
}
",
        parts: &[(
            &[(FunctionReturn, 3, None, Some("\\result >= 200"))],
            (Target, 4, Some(3), None),
        )],
        sought: &[72],
    },
];
