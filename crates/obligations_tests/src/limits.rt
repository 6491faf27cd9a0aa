// Words at their limits: five digits, polynomials that double, numbers at the ends of types, tests where no run is, and
// loops from each state that they are tried in.
use crate::beside::is_alike_at;
use crate::cases::{Case, Judged, evaluate};
use crate::inputs::input_of;
use crate::products::{SETTINGS, differing};
use std::alloc::Global;
use std::test::Fail;
use wv_base::OutOfMemory;
use wv_schema::InvariantKind::{Location, Loop};

const OF_FIVE_DIGITS: Case = Case {
    name: "products of five digits",
    source: "\
void reach_error() { }
unsigned char __VERIFIER_nondet_uchar();
int main() {
  int a = __VERIFIER_nondet_uchar() & 31;
  int b = __VERIFIER_nondet_uchar() & 31;
  int p = a * b;
  int q = (a + 1) * (b + 1);
  if (q - p != a + b + 1 || p == 899) {
    reach_error();
  }
  return q == 30 ? a : p;
}
",
    claims: &[
        (Location, 8, "q == p + a + b + 1"),
        (Location, 11, "p != 600 || a * b == 600"),
    ],
};

/// Programs whose numbers are of four digits.
pub const CASES: [Case; 3] = [
    Case {
        name: "polynomials that double",
        source: "\
void reach_error() { }
unsigned char __VERIFIER_nondet_uchar();
int main() {
  unsigned int a = __VERIFIER_nondet_uchar() & 15;
  unsigned int b = __VERIFIER_nondet_uchar() & 15;
  unsigned short p = a + b + 1;
  p = p * (p + a);
  p = p * (p + b);
  p = p * (p + a);
  p = p * (p + b);
  unsigned short q = p * (p + a);
  if (q != (unsigned short) (p * p + a * p) || p == 6) {
    reach_error();
  }
  return p == 2 ? a : 0;
}
",
        claims: &[(Location, 12, "p != 6 || a + b == 1")],
    },
    Case {
        name: "numbers at the ends of types",
        source: "\
void reach_error() { }
unsigned char __VERIFIER_nondet_uchar();
int main() {
  int a = (__VERIFIER_nondet_uchar() & 15) - 8;
  int b = (__VERIFIER_nondet_uchar() & 15) - 8;
  int most = 2147483647;
  int least = -2147483647 - 1;
  unsigned int u = a * 4294967295u;
  long long l = 9223372036854775807 - b;
  if (u + a != 0 || most - a > most || l < 9223372036854775800) {
    reach_error();
  }
  if (b != 0 && least / b * b + least % b != least) {
    reach_error();
  }
  return most + a == least ? b : a;
}
",
        claims: &[
            (Location, 10, "u == -a && least < most - a"),
            (
                Location,
                16,
                "a * 4294967295u == u && l >= 9223372036854775800",
            ),
        ],
    },
    Case {
        name: "tests where no run is",
        source: "\
void reach_error() { }
unsigned char __VERIFIER_nondet_uchar();
int main() {
  int a = __VERIFIER_nondet_uchar() & 15;
  int b = __VERIFIER_nondet_uchar() & 15;
  int s = 0;
  if (a > 15) {
    if (a * b != b * a + s || a == b) {
      reach_error();
    }
    s = a * b;
  }
  if (a < 8) {
    if (a >= 8 && a * b == 3) {
      s = 1;
    }
    if (a != 3) {
      s = a == 3 ? b : s;
    }
  } else if (a == 7) {
    s = s / s;
  }
  if (s != 0 || (a > 12 && b == 5)) {
    reach_error();
  }
  return s * b;
}
",
        claims: &[
            (Location, 13, "s == 0 || a > 15"),
            (Location, 23, "s == 0 && (a != 15 || b != 15)"),
        ],
    },
];

// A loop whose state is two numbers beside the one that is drawn.
const LOOP: Case = Case {
    name: "squares by odd numbers",
    source: "\
void reach_error() { }
unsigned char __VERIFIER_nondet_uchar();
int main() {
  int n = __VERIFIER_nondet_uchar() & 7;
  unsigned char i = 0;
  unsigned char s = 0;
  while (i < n) {
    s = s + 2 * i + 1;
    i = i + 1;
  }
  if (s != i * i || s == 25) {
    reach_error();
  }
  return s - n * n;
}
",
    claims: &[
        (Loop, 7, "s == i * i && i <= n"),
        (Location, 11, "s == i * i && s != 16"),
    ],
};

// Under this many of all triples of numbers, two below 8 and one below 64, the first three that are drawn, net and run
// differ.
fn differing_in_loops(alloc: Global, judged: &Judged) -> Result<u64, OutOfMemory> {
    let mut count: u64 = 0;
    for number in 0..4096u64 {
        let values = [number % 8, number / 8 % 8, number / 64];
        let inputs = input_of(alloc, judged.all.sites.as_slice(), &values)?;
        if !is_alike_at(alloc, judged, &inputs)? {
            count = count.saturating_add(1);
        }
    }
    Ok(count)
}

#[test]
fn products_of_five_bits_are_told_alike(rt: HostRuntime) -> Result<(), Fail> {
    for setting in SETTINGS {
        assert_eq!(rt; differing(rt.alloc(), &OF_FIVE_DIGITS, setting, 32)?, 0);
    }
    Ok(())
}

#[test]
fn words_at_their_limits_are_told_alike(rt: HostRuntime) -> Result<(), Fail> {
    for case in &CASES {
        for setting in SETTINGS {
            assert_eq!(rt;
                differing(rt.alloc(), case, setting, 16)?,
                0,
                "{}",
                case.name
            );
        }
    }
    Ok(())
}

#[test]
fn turns_from_each_state_are_told_alike(rt: HostRuntime) -> Result<(), Fail> {
    for (property, model) in SETTINGS {
        let judged = evaluate(rt.alloc(), LOOP.source, LOOP.claims, property, model).ok_or(
            LOOP.name,
        )?;
        assert_eq!(rt; differing_in_loops(rt.alloc(), &judged)?, 0);
    }
    Ok(())
}
