// Arrays at variable indices.
use crate::cases::Case;
use wv_schema::InvariantKind::{Location, Loop};

/// The programs, each with its claims.
pub const CASES: [Case; 3] = [
    Case {
        name: "elements",
        source: "\
void reach_error() { }
int __VERIFIER_nondet_int();
unsigned char __VERIFIER_nondet_uchar();
unsigned char table[3] = {1, 2};
int main() {
  int a[4];
  short s[2];
  int i = __VERIFIER_nondet_int();
  unsigned char k = __VERIFIER_nondet_uchar();
  a[i] = k;
  a[k]++;
  a[1] += a[i];
  table[k] -= 3;
  s[i - 1] = a[2] + table[0];
  --s[0];
  if (a[1] == 5 || s[1] == table[2]) {
    reach_error();
  }
  return a[3];
}
",
        claims: &[
            (Location, 12, "a[i] != 1"),
            (Location, 16, "a[0] < 100 && s[0] != 4"),
            (Location, 19, "table[k] + s[a[1] & 1] < 300"),
        ],
    },
    Case {
        name: "arrays in loops",
        source: "\
void reach_error() { }
int __VERIFIER_nondet_int();
int a[3];
int main() {
  int sum = 0;
  int i;
  for (i = 0; i < 3; i++) {
    a[i] = i;
    sum += a[i];
  }
  while (__VERIFIER_nondet_int() && sum > 0) {
    a[sum % 3] = -1;
    sum--;
  }
  if (a[0] + a[2] == 1) {
    reach_error();
  }
  return a[sum];
}
",
        claims: &[
            (Loop, 7, "0 <= i && i <= 3 && a[0] <= i"),
            (Loop, 11, "sum <= 3 && a[1] != 5"),
            (Location, 15, "a[2] != 7"),
            (Location, 18, "a[sum] < 6"),
        ],
    },
    Case {
        name: "elements in calls",
        source: "\
void reach_error() { }
_Bool __VERIFIER_nondet_bool();
long __VERIFIER_nondet_long();
_Bool flags[2];
long held[3] = {5, -1, 7};
long get(int at) { long copy[2] = {held[at]}; return copy[0] + copy[1]; }
_Bool set(int at, long value) { held[at] = value; return flags[at > 0]; }
int main() {
  long l = __VERIFIER_nondet_long();
  flags[1] = __VERIFIER_nondet_bool();
  flags[0] = l;
  if (set(l % 3, get(1))) {
    held[l & 3] <<= 2;
  }
  held[flags[0]]--;
  flags[get(0) & 1]++;
  if (flags[1] == 0 && held[1] == -2) {
    reach_error();
  }
  return held[get(2) & 1];
}
",
        claims: &[
            (Location, 15, "held[2] == 7 || flags[0]"),
            (Location, 17, "held[1] > -9"),
        ],
    },
];
