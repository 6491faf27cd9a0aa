// Loops of all kinds.
use crate::cases::Case;
use crate::examples::{COUNT_CALLS, COUNT_UP_DOWN};
use wv_schema::InvariantKind::{Location, Loop};

/// The programs, each with its claims.
pub const CASES: [Case; 6] = [
    Case {
        name: "nested loops",
        source: "\
void reach_error() { }
int __VERIFIER_nondet_int();
int total;
int search(int limit) {
  for (int i = 0; i < limit; i++) {
    int j = 0;
    while (j < i) {
      j++;
      if (j == 3)
        continue;
      if (total + j == 7)
        return j;
      if (j > 4)
        break;
    }
    do {
      total = total + 1;
      if (total > 5)
        break;
    } while (total < i);
  }
  return -1;
}
int main() {
  int n = __VERIFIER_nondet_int();
  if (search(n) == 2) {
    reach_error();
  }
  return 0;
}
",
        claims: &[
            (Loop, 5, "i >= 0"),
            (Loop, 7, "0 <= j && j <= i"),
            (Loop, 16, "total < 6"),
            (Location, 17, "total != 4"),
        ],
    },
    Case {
        name: "ways out of loops",
        source: "\
void reach_error() { }
void abort(void);
void exit(int);
int __VERIFIER_nondet_int();
int main() {
  int n = __VERIFIER_nondet_int();
  int k = 0;
  for (;;) {
    k++;
    if (k > n)
      break;
    k == 7 && (exit(n), 1);
    inner: if (n == 20) { abort(); }
  }
  for (int a = 0, b = 9; a < b; a++, b--)
    ;
  while (n > 0) n = n / 2;
  do { int k = n; if (k < -5) return 1; n = n + 2; } while (n < 0 && k != 3);
  if (k != n + 1) { reach_error(); }
  return 0;
}
",
        claims: &[
            (Loop, 8, "k >= 0"),
            (Loop, 8, "k < 1000"),
            (Loop, 15, "a <= 9 && b >= 0"),
            (Loop, 17, "n < 100"),
            (Location, 19, "n >= 0"),
        ],
    },
    Case {
        name: "calls in loops",
        source: "\
void reach_error() { }
unsigned int __VERIFIER_nondet_uint();
_Bool __VERIFIER_nondet_bool();
unsigned char g;
int steps = 2;
void h(unsigned int by) { g = g + by; }
int f(unsigned int by) { if (by) { h(by); return 1; } steps++; return 0; }
int main() {
  unsigned int i = 0;
  while (f(i) || __VERIFIER_nondet_bool()) {
    i = __VERIFIER_nondet_uint();
    while (__VERIFIER_nondet_bool()) { unsigned int drawn; i = drawn; }
  }
  if (g != 0) {
    reach_error();
  }
  for (i = 0; f(0) == 0 && i < 3; h(i))
    i = i + steps;
  if (g == 5) {
    reach_error();
  }
  return g;
}
",
        claims: &[
            (Loop, 10, "g < 200"),
            (Loop, 10, "steps >= 2 ? i < 9 : g == 0"),
            (Loop, 17, "g + i < 12"),
        ],
    },
    Case {
        name: "a loop that counts down and up",
        source: COUNT_UP_DOWN,
        claims: &[(Loop, 17, "x + y == n || x < 3")],
    },
    Case {
        name: "a static object behind calls",
        source: COUNT_CALLS,
        claims: &[(Loop, 7, "g >= 0 && i <= 3")],
    },
    Case {
        name: "a static object that loops in a loop count",
        source: "\
void reach_error() { }
int g;
void add(int k) { if (g < 20) { g = g + k; } }
int main() {
  int i = 0;
  while (i < 4) {
    int j = 0;
    while (1) {
      if (j >= 3) { break; }
      add(1);
      j = j + 1;
    }
    i = i + 1;
  }
  if (g > 20) { reach_error(); }
  return 0;
}
",
        claims: &[(Loop, 6, "g <= 20"), (Loop, 8, "g <= 20")],
    },
];
