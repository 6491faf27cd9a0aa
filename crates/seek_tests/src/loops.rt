// Programs with loops.
use crate::cases::Case;
use c_core::Property::{NoOverflow, UnreachCall};
use wv_schema::WayKind::{Assumption, Branching, FunctionReturn, Target};

const COUNT: &str = "\
void reach_error() { }
unsigned char __VERIFIER_nondet_uchar();
int main() {
  unsigned char n = __VERIFIER_nondet_uchar();
  int i = 0;
  while (i < n % 4) {
    i = i + 1;
  }
  if (i == 2) {
    reach_error();
  }
  return 0;
}
";

/// The programs, each with segments about it.
pub const CASES: [Case; 8] = [
    Case {
        name: "a count",
        property: UnreachCall,
        source: COUNT,
        parts: &[
            (&[], (Assumption, 9, None, Some("i >= 2"))),
            (&[], (Target, 10, Some(5), None)),
        ],
        sought: &[0, 64, 64],
    },
    Case {
        name: "an avoid at the event of its follow",
        property: UnreachCall,
        source: COUNT,
        parts: &[
            (
                &[(Assumption, 7, Some(5), Some("i == 1"))],
                (Assumption, 7, Some(5), Some("i >= 1")),
            ),
            (&[], (Target, 10, Some(5), None)),
        ],
        sought: &[0, 0, 0],
    },
    Case {
        name: "turns that are left early",
        property: UnreachCall,
        source: "\
void reach_error() { }
_Bool __VERIFIER_nondet_bool();
int main() {
  int ones = 0;
  for (int k = 0; k < 3; k++) {
    if (!__VERIFIER_nondet_bool()) {
      continue;
    }
    ones++;
  }
  if (ones == 2) {
    reach_error();
  }
  return 0;
}
",
        parts: &[
            (
                &[(Branching, 6, None, Some("true"))],
                (Branching, 6, None, Some("false")),
            ),
            (&[], (Target, 12, None, None)),
        ],
        sought: &[0, 0, 2],
    },
    Case {
        name: "a loop in a loop",
        property: UnreachCall,
        source: "\
void reach_error() { }
_Bool __VERIFIER_nondet_bool();
int main() {
  int sum = 0;
  for (int i = 0; i < 2; i++) {
    int j = 0;
    while (j < 2) {
      if (__VERIFIER_nondet_bool()) {
        break;
      }
      j++;
      sum++;
    }
  }
  if (sum == 3) {
    reach_error();
  }
  return 0;
}
",
        parts: &[(
            &[(Assumption, 9, None, Some("i == 0"))],
            (Target, 16, None, None),
        )],
        sought: &[0, 1],
    },
    Case {
        name: "a switch in a loop",
        property: UnreachCall,
        source: "\
void reach_error() { }
_Bool __VERIFIER_nondet_bool();
int main() {
  int state = 0;
  do {
    _Bool a = __VERIFIER_nondet_bool();
    _Bool b = __VERIFIER_nondet_bool();
    switch (a + 2 * b) {
      case 0:
        state = state + 1;
        break;
      case 1:
        state = state * 2;
      case 2:
        state = state + 2;
        break;
      default:
        state = 7;
    }
  } while (state < 3);
  if (state == 4) {
    reach_error();
  }
  return 0;
}
",
        parts: &[
            (
                &[(Branching, 8, None, Some("default"))],
                (Branching, 8, None, Some("2")),
            ),
            (&[], (Target, 22, None, None)),
        ],
        sought: &[0, 2, 3],
    },
    Case {
        name: "a search in an array",
        property: UnreachCall,
        source: "\
void reach_error() { }
unsigned char __VERIFIER_nondet_uchar();
int main() {
  int a[4] = {3, 1, 4, 1};
  unsigned char wanted = __VERIFIER_nondet_uchar();
  int i = 0;
  while (i < 4 && a[i] != wanted) {
    i++;
  }
  if (i == 2) {
    reach_error();
  }
  return 0;
}
",
        parts: &[
            (&[], (FunctionReturn, 5, Some(50), Some("\\result > 3"))),
            (
                &[(Assumption, 8, None, Some("i == 2"))],
                (Target, 11, None, None),
            ),
        ],
        sought: &[0, 1, 1, 1],
    },
    Case {
        name: "assumptions that share an event",
        property: NoOverflow,
        source: "\
_Bool __VERIFIER_nondet_bool();
int main() {
  int x = 1;
  while (__VERIFIER_nondet_bool()) {
    x = x * 65536;
  }
  return x;
}
",
        parts: &[
            (&[], (Assumption, 5, None, Some("x == 1"))),
            (&[], (Assumption, 5, None, Some("x > 0"))),
            (&[], (Target, 5, None, None)),
        ],
        sought: &[0, 1],
    },
    Case {
        name: "a loop without a test",
        property: UnreachCall,
        source: "\
void reach_error() { }
_Bool __VERIFIER_nondet_bool();
int main() {
  int n = 0;
  for (;;) {
    n++;
    if (__VERIFIER_nondet_bool()) {
      break;
    }
    if (n == 3) {
      return 0;
    }
  }
  if (n == 2) {
    reach_error();
  }
  return 0;
}
",
        parts: &[
            (&[], (Branching, 7, None, Some("false"))),
            (&[], (Branching, 7, None, Some("true"))),
            (&[], (Target, 15, None, None)),
        ],
        sought: &[0, 1, 1],
    },
];
