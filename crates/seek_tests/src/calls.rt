// Programs with calls of defined functions, and early ends.
use crate::cases::Case;
use c_core::Property::UnreachCall;
use wv_schema::WayKind::{Branching, FunctionEnter, FunctionReturn, Target};

const ABORTED: &str = "\
void reach_error() { }
void abort(void);
_Bool __VERIFIER_nondet_bool();
int main() {
  _Bool a = __VERIFIER_nondet_bool();
  if (!a) {
    abort();
  }
  _Bool b = __VERIFIER_nondet_bool();
  if (b) {
    reach_error();
  }
  return 0;
}
";

const GIVEN_OR_NOT: &str = "\
void reach_error() { }
_Bool __VERIFIER_nondet_bool();
int maybe(_Bool gives) {
  if (gives) {
    return 7;
  }
}
int main() {
  maybe(__VERIFIER_nondet_bool());
  reach_error();
  return 0;
}
";

/// The programs, each with segments about it.
pub const CASES: [Case; 6] = [
    Case {
        name: "recursion",
        property: UnreachCall,
        source: "\
void reach_error() { }
_Bool __VERIFIER_nondet_bool();
int depth(int n) {
  if (n < 2 && __VERIFIER_nondet_bool()) {
    return depth(n + 1);
  }
  return n;
}
int main() {
  if (depth(0) == 2) {
    reach_error();
  }
  return 0;
}
",
        parts: &[
            (&[], (FunctionEnter, 5, Some(23), None)),
            (&[], (FunctionReturn, 10, None, Some("\\result == 2"))),
            (&[], (Target, 11, None, None)),
        ],
        sought: &[0, 0, 1],
    },
    Case {
        name: "calls in calls",
        property: UnreachCall,
        source: "\
void reach_error() { }
_Bool __VERIFIER_nondet_bool();
int count = 0;
void more(void) {
  count = count + 1;
}
void twice(void) {
  more();
  if (__VERIFIER_nondet_bool()) {
    more();
  }
}
int main() {
  twice();
  twice();
  if (count == 3) {
    reach_error();
  }
  return 0;
}
",
        parts: &[
            (
                &[(Branching, 9, None, Some("true"))],
                (FunctionReturn, 14, None, None),
            ),
            (&[], (Target, 17, None, None)),
        ],
        sought: &[0, 1],
    },
    Case {
        name: "after an early end",
        property: UnreachCall,
        source: ABORTED,
        parts: &[(&[], (Target, 11, None, None))],
        sought: &[1],
    },
    Case {
        name: "a segment of runs that end",
        property: UnreachCall,
        source: ABORTED,
        parts: &[
            (&[], (FunctionEnter, 7, None, None)),
            (&[], (Target, 11, None, None)),
        ],
        sought: &[0],
    },
    Case {
        name: "a value that is given",
        property: UnreachCall,
        source: GIVEN_OR_NOT,
        parts: &[
            (&[], (FunctionReturn, 9, Some(33), Some("\\result <= 7"))),
            (&[], (Target, 10, None, None)),
        ],
        sought: &[1],
    },
    Case {
        name: "a value that isn't given",
        property: UnreachCall,
        source: GIVEN_OR_NOT,
        parts: &[
            (&[], (FunctionReturn, 9, Some(33), Some("\\result != 7"))),
            (&[], (Target, 10, None, None)),
        ],
        sought: &[0],
    },
];
