// Programs without loops: branches, calls, early ends.
use crate::cases::Case;
use wv_schema::InvariantKind::Location;

/// The programs, each with its claims.
pub const CASES: [Case; 4] = [
    Case {
        name: "choices",
        source: "\
void reach_error() { }
int __VERIFIER_nondet_int();
_Bool __VERIFIER_nondet_bool();
int main() {
  int x = __VERIFIER_nondet_int();
  int y = __VERIFIER_nondet_int();
  _Bool b = __VERIFIER_nondet_bool();
  int z = b ? x : y;
  if (x == 0 || (y != 0 && z / y > 1)) {
    z = (x = 2, x + y);
  } else if (!b) {
    z = -z;
  } else
    ;
  if (z == 3 && b) {
    reach_error();
  }
  return z;
}
",
        claims: &[(Location, 15, "z != 7"), (Location, 18, "z + x < 2000")],
    },
    Case {
        name: "choices without a value",
        source: "\
void reach_error() { }
void abort(void);
void exit(int);
char __VERIFIER_nondet_char();
int count = 1;
void more(int by) { count = count + by; }
void stop(void) { if (count > 3) abort(); }
int twice(char c) { return c + c; }
int main() {
  char c = __VERIFIER_nondet_char();
  c > 0 ? more(c) : stop();
  (void) twice(c);
  more(twice(c)), more(1);
  if (count == 0)
    exit(count);
  c < 5 ? (void) 0 : reach_error();
  if (c == -1) { abort(); }
  count == 4 ? reach_error() : more(2);
  return count;
}
",
        claims: &[
            (Location, 17, "count != 5"),
            (Location, 19, "count + c < 30"),
        ],
    },
    Case {
        name: "results that are missing",
        source: "\
void reach_error() { }
int __VERIFIER_nondet_int();
int last;
int pick(int n, _Bool up) {
  int r;
  char c[2];
  last = n;
  if (up) { return n + 1; }
  if (n > 2) { c[0] = r; return c[0] + c[1]; }
}
int add(int a, int b) { return a + b; }
int main() {
  int z = __VERIFIER_nondet_int();
  pick(z, 0);
  int y = pick(add(z, 1), z > 0 || z < -5), w = add(4, add(z, -1));
  if (pick(y, 2) == w) {
    reach_error();
  }
  z = pick(y, 0);
  if (last > 5) {
    reach_error();
  }
  return z;
}
",
        claims: &[(Location, 6, "n != 6 || up"), (Location, 20, "last < 40")],
    },
    Case {
        name: "early ends",
        source: "\
void reach_error() { }
void abort(void);
void exit(int);
int __VERIFIER_nondet_int();
int seen;
int leave(int n) {
  seen = n;
  n == 1 && (exit(n), 1);
  n == 2 || (seen = 7, 0);
  if (n == 3) { reach_error(); seen = 4; abort(); }
  return n;
}
int main() {
  int n = __VERIFIER_nondet_int();
  n = n % 8;
  first: n = n + leave(n);
  if (seen == 7) {
    abort();
    reach_error();
  }
  second: seen = leave(n - 1);
  reach_error();
}
",
        claims: &[(Location, 10, "seen != 4"), (Location, 21, "seen == 2")],
    },
];
