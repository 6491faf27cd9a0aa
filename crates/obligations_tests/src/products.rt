// Products and sums whose words are known: nets beside runs, and what is left to decide.
use crate::beside::is_alike_at;
use crate::cases::{Case, Judged, evaluate};
use crate::inputs::input_of;
use c_core::{DataModel, Property};
use std::alloc::Global;
use std::test::Fail;
use wv_base::OutOfMemory;
use wv_schema::InvariantKind::{Location, Loop};

/// The programs, each with its claims.
pub const CASES: [Case; 3] = [
    Case {
        name: "equal and unequal products",
        source: "\
void reach_error() { }
unsigned char __VERIFIER_nondet_uchar();
int main() {
  int a = __VERIFIER_nondet_uchar() & 15;
  int b = __VERIFIER_nondet_uchar() & 15;
  int p = a * b;
  int q = b * a;
  int s = (a + b) * (a - b);
  int t = a * a - b * b;
  if (a > b) {
    p += a;
    q = a + q;
  }
  if (p != q || s != t || a * b == 21 || !(p - a * b)) {
    reach_error();
  }
  return a * b == 12 ? a - 3 : 1;
}
",
        claims: &[
            (Location, 10, "p == q && s == t"),
            (Location, 14, "a * b != 21 && p - a * b == (a > b) * a"),
            (Location, 17, "p != 30 || s == (a - b) * (b + a)"),
        ],
    },
    Case {
        name: "products that are cut and chosen",
        source: "\
void reach_error() { }
unsigned char __VERIFIER_nondet_uchar();
int main() {
  unsigned char a = __VERIFIER_nondet_uchar() & 15;
  unsigned char b = __VERIFIER_nondet_uchar() & 15;
  unsigned char c = a * b;
  signed char s = (signed char) (a * a * b);
  _Bool t = a * b - 6;
  int x = t ? c : s;
  int y = !t * s + t * c;
  long l = x - y;
  if (l || (c + s) * 2 == c * 2 + s) {
    reach_error();
  }
  short m = (short) (c * c);
  if (m == (unsigned short) (a * b * c) && (t || a)) {
    reach_error();
  }
  return ~x + y;
}
",
        claims: &[
            (Location, 11, "x == y && t + !t == 1"),
            (Location, 15, "(unsigned char) (a * b) == c && s != 5"),
        ],
    },
    Case {
        name: "sums of odd numbers",
        source: "\
void reach_error() { }
unsigned char __VERIFIER_nondet_uchar();
int main() {
  int n = __VERIFIER_nondet_uchar() & 7;
  unsigned int i = 0;
  unsigned int s = 0;
  while (i < n) {
    s = s + 2 * i + 1;
    i = i + 1;
  }
  if (s != i * i || s == 25) {
    reach_error();
  }
  return s - n * n;
}
",
        claims: &[
            (Loop, 7, "s == i * i"),
            (Location, 11, "s == i * i && s != 16"),
        ],
    },
];

/// Quotients, orders and ways that come together, whose nets are larger.
pub const LARGER: [Case; 4] = [
    Case {
        name: "quotients and remainders of both signs",
        source: "\
void reach_error() { }
unsigned char __VERIFIER_nondet_uchar();
int main() {
  int a = (__VERIFIER_nondet_uchar() & 7) - 4;
  int b = (__VERIFIER_nondet_uchar() & 7) - 4;
  int r = a % b;
  int q = a / b;
  if (q * b + r != a || q * b - r == 6) {
    reach_error();
  }
  return q + r;
}
",
        claims: &[
            (Location, 8, "a == b * q + r && r * a >= 0"),
            (Location, 11, "q != 3 || b * 3 == a - r"),
        ],
    },
    Case {
        name: "numbers between neighbours",
        source: "\
void reach_error() { }
unsigned char __VERIFIER_nondet_uchar();
int main() {
  int n = (__VERIFIER_nondet_uchar() & 7) - 4;
  int i = (__VERIFIER_nondet_uchar() & 7) - 4;
  int s = 0;
  if (i <= n && i >= n) {
    s = i * n;
  } else if (n < i && i <= n + 1) {
    s = i * i - 2 * n - 1;
  } else if (i < n && !(i < n - 1)) {
    s = n * n - i - i - 1 + (i == 3);
  } else {
    s = i == n ? 1 : n * n;
  }
  unsigned int u = s;
  if (s != n * n && !(u < 80 && u >= 40)) {
    reach_error();
  }
  return s - n * n;
}
",
        claims: &[
            (Location, 16, "s == n * n"),
            (Location, 17, "i != n || s == i * i"),
        ],
    },
    Case {
        name: "ways that come together",
        source: "\
void reach_error() { }
unsigned char __VERIFIER_nondet_uchar();
int main() {
  int a = __VERIFIER_nondet_uchar() & 7;
  int b = __VERIFIER_nondet_uchar() & 7;
  int p = 1;
  int q = 0;
  if (a % 2 == 0 && b % 2 == 0) {
    a = a / 2;
    b = b / 2;
    p = 4;
  } else if (a % 2 == 1) {
    a = a - 1;
    q = b * p;
  } else if (b == 5) {
    b = b - 2;
    q = a * p;
  }
  if (q + a * b * p == 15) {
    reach_error();
  }
  return q;
}
",
        claims: &[
            (Location, 19, "q == 0 || q == b || q == a"),
            (Location, 22, "a * b + q != 20"),
        ],
    },
    Case {
        name: "orders of numbers that wrap",
        source: "\
void reach_error() { }
unsigned char __VERIFIER_nondet_uchar();
int main() {
  unsigned int a = __VERIFIER_nondet_uchar() & 7;
  unsigned int b = __VERIFIER_nondet_uchar() & 7;
  unsigned int s = 0;
  if (a < b) {
    s = (a - 3 < b - 3) + 2 * (a + 1 <= b) + 4 * (b - 1 < a) + 8 * (a - 5 < b - 4);
    if (b <= 4) {
      s = s + 16 * (a + 4294967291 < b + 4294967291) + 32 * (a - 4 < b - 4);
    }
  } else if (a >= 3 && a - 3 < 2) {
    s = (b - 5 <= a - 5) + 2 * (a < 5) + 4 * (a + 4294967294 < 3) + 8 * (b + 2 < a + 1);
  }
  if (s == 3 || s == 6 || s > 40) {
    reach_error();
  }
  return s + 2147483600 > 0;
}
",
        claims: &[
            (Location, 15, "s < 64 && (a >= b || s != 8)"),
            (Location, 18, "a - b < 8 || a < b"),
        ],
    },
];

// Programs whose obligations are decided by words and facts alone.
const SETTLED: [Case; 16] = [
    Case {
        name: "the same product twice",
        source: "\
void reach_error() { }
int __VERIFIER_nondet_int();
int main() {
  int a = __VERIFIER_nondet_int();
  int b = __VERIFIER_nondet_int();
  if (a * b != b * a || (a + b) * (a + b) != a * a + 2 * a * b + b * b) {
    reach_error();
  }
  return 0;
}
",
        claims: &[],
    },
    Case {
        name: "a sum in another order, and its lowest digits",
        source: "\
void reach_error() { }
unsigned long __VERIFIER_nondet_ulong();
int main() {
  unsigned long a = __VERIFIER_nondet_ulong();
  unsigned long b = __VERIFIER_nondet_ulong();
  unsigned int c = (unsigned int) (a * (b + 3));
  unsigned int d = (unsigned int) (3 * a) + (unsigned int) (b * a);
  if (c != d || c - d) {
    reach_error();
  }
  return 0;
}
",
        claims: &[],
    },
    Case {
        name: "a choice, taken apart",
        source: "\
void reach_error() { }
int __VERIFIER_nondet_int();
int main() {
  int a = __VERIFIER_nondet_int();
  int b = a * a;
  _Bool t = a > 4;
  int x = t ? b + 1 : a;
  if (x - a != t * (b + 1 - a)) {
    reach_error();
  }
  return 0;
}
",
        claims: &[],
    },
    Case {
        name: "an equality that a run has assumed",
        source: "\
void reach_error() { }
int __VERIFIER_nondet_int();
int main() {
  int x = __VERIFIER_nondet_int();
  int y = __VERIFIER_nondet_int();
  if (x != y * y) {
    return 0;
  }
  if (x * y != y * y * y || x + 1 != y * y + 1) {
    reach_error();
  }
  return 0;
}
",
        claims: &[],
    },
    Case {
        name: "a square by sums",
        source: "\
void reach_error() { }
int __VERIFIER_nondet_int();
int main() {
  int n = __VERIFIER_nondet_int();
  unsigned int i = 0;
  unsigned int s = 0;
  unsigned int d = 1;
  while (i < n) {
    s = s + d;
    d = d + 2;
    i = i + 1;
  }
  if (s != i * i) {
    reach_error();
  }
  return 0;
}
",
        claims: &[(Loop, 8, "s == i * i && d == 2 * i + 1")],
    },
    Case {
        name: "a quotient and its remainder",
        source: "\
void reach_error() { }
int __VERIFIER_nondet_int();
int main() {
  int x = __VERIFIER_nondet_int();
  int y = __VERIFIER_nondet_int();
  int r = x % y;
  if (x / y * y + r != x) {
    reach_error();
  }
  return 0;
}
",
        claims: &[],
    },
    Case {
        name: "half of an even number",
        source: "\
void reach_error() { }
unsigned int __VERIFIER_nondet_uint();
int main() {
  unsigned int x = __VERIFIER_nondet_uint();
  unsigned int h = x / 2;
  if (x % 2 == 0) {
    if (h * 2 * h != x * h) {
      reach_error();
    }
  }
  return 0;
}
",
        claims: &[],
    },
    Case {
        name: "neither of two numbers is less",
        source: "\
void reach_error() { }
long __VERIFIER_nondet_long();
int main() {
  long i = __VERIFIER_nondet_long();
  long n = __VERIFIER_nondet_long();
  if (i < n || n < i) {
    return 0;
  }
  if (i * n != n * n) {
    reach_error();
  }
  return 0;
}
",
        claims: &[],
    },
    Case {
        name: "a number between neighbours",
        source: "\
void reach_error() { }
int __VERIFIER_nondet_int();
int main() {
  int i = __VERIFIER_nondet_int();
  int n = __VERIFIER_nondet_int();
  if (n < i && i <= n + 1) {
    if (i * i != n * (n + 2) + 1) {
      reach_error();
    }
  }
  if (i < n && i >= n - 1) {
    if (i * i != n * (n - 2) + 1) {
      reach_error();
    }
  }
  return 0;
}
",
        claims: &[],
    },
    Case {
        name: "numbers within bounds",
        source: "\
void reach_error() { }
int __VERIFIER_nondet_int();
int main() {
  int n = __VERIFIER_nondet_int();
  if (n < 1 || 1000 < n) {
    return 0;
  }
  int s = 0;
  int i = 1;
  while (i <= n) {
    s = s + i;
    i = i + 1;
  }
  if (2 * s != n * (n + 1)) {
    reach_error();
  }
  return 0;
}
",
        claims: &[(Loop, 10, "1 <= i && i <= n + 1 && 2 * s == i * (i - 1)")],
    },
    Case {
        name: "numbers that are counted up and down",
        source: "\
void reach_error() { }
int __VERIFIER_nondet_int();
int main() {
  int n = __VERIFIER_nondet_int();
  int k = 0;
  int i = 0;
  while (i < n) {
    i = i + 1;
    k = k + 1;
  }
  int j = n;
  while (j > 0) {
    if (k <= 0) {
      reach_error();
    }
    j = j - 1;
    k = k - 1;
  }
  return 0;
}
",
        claims: &[
            (Loop, 7, "k == i && i >= 0 && (i <= n || i == 0)"),
            (Loop, 12, "j <= 0 || k == j"),
        ],
    },
    Case {
        name: "bounds of a number that is a test, too",
        source: "\
void reach_error() { }
unsigned int __VERIFIER_nondet_uint();
int main() {
  unsigned int a = __VERIFIER_nondet_uint();
  if (a >= 1000) {
    return 0;
  }
  int z = 6;
  if (z != 6 || a + 1 > 1000 || a + 5 < 5) {
    reach_error();
  }
  return 0;
}
",
        claims: &[],
    },
    Case {
        name: "the order of equal numbers",
        source: "\
void reach_error() { }
int __VERIFIER_nondet_int();
int main() {
  int x = __VERIFIER_nondet_int();
  int y = __VERIFIER_nondet_int();
  int z = __VERIFIER_nondet_int();
  if (x != y * y || z >= x) {
    return 0;
  }
  if (z >= y * y) {
    reach_error();
  }
  return 0;
}
",
        claims: &[],
    },
    Case {
        name: "both ways of an if",
        source: "\
void reach_error() { }
int __VERIFIER_nondet_int();
int main() {
  int y = __VERIFIER_nondet_int();
  int d = __VERIFIER_nondet_int();
  int x = 0;
  if (d == 0) {
    x = y * y;
  } else {
    x = y * y + d;
  }
  if (x != y * y + d) {
    reach_error();
  }
  return 0;
}
",
        claims: &[],
    },
    Case {
        name: "an element at an index that is the same in and after a loop",
        source: "\
void reach_error() { }
int __VERIFIER_nondet_int();
int main() {
  int a[100];
  int q = __VERIFIER_nondet_int();
  int i = 0;
  while (1) {
    if (i >= 100) break;
    if (a[i] == q) break;
    i = i + 1;
  }
  if (!(i >= 100 || a[i] == q)) {
    reach_error();
  }
  return 0;
}
",
        claims: &[(Loop, 7, "0 <= i && i <= 100")],
    },
    Case {
        name: "a search in a row",
        source: "\
void reach_error() { }
int __VERIFIER_nondet_int();
int main() {
  int a[2][10];
  int q = __VERIFIER_nondet_int();
  int i = 0;
  while (1) {
    if (i >= 10) break;
    if (a[1][i] == q) break;
    i = i + 1;
  }
  if (!(i >= 10 || a[1][i] == q)) {
    reach_error();
  }
  return 0;
}
",
        claims: &[(Loop, 7, "0 <= i && i <= 10")],
    },
];

// Under this many of all pairs of numbers below a bound, the first two that are drawn, net and run differ.
fn differing_below(alloc: Global, judged: &Judged, bound: u64) -> Result<u64, OutOfMemory> {
    let mut count: u64 = 0;
    for a in 0..bound {
        for b in 0..bound {
            let inputs = input_of(alloc, judged.all.sites.as_slice(), &[a, b])?;
            if !is_alike_at(alloc, judged, &inputs)? {
                count = count.saturating_add(1);
            }
        }
    }
    Ok(count)
}

/// The properties and data models that programs are tried in.
pub const SETTINGS: [(Property, DataModel); 4] = [
    (Property::UnreachCall, DataModel::Lp64),
    (Property::UnreachCall, DataModel::Ilp32),
    (Property::NoOverflow, DataModel::Lp64),
    (Property::NoOverflow, DataModel::Ilp32),
];

/// The same of a program in one of the settings.
pub fn differing(
    alloc: Global,
    case: &Case,
    setting: (Property, DataModel),
    bound: u64,
) -> Result<u64, Fail> {
    let (property, model) = setting;
    let judged = evaluate(alloc, case.source, case.claims, property, model).ok_or(case.name)?;
    Ok(differing_below(alloc, &judged, bound)?)
}

#[test]
fn products_of_four_bits_are_told_alike(rt: HostRuntime) -> Result<(), Fail> {
    for case in &CASES {
        for setting in SETTINGS {
            assert_eq!(rt;
                differing(rt.alloc(), case, setting, 16)?,
                0,
                "{}",
                case.name
            );
        }
    }
    Ok(())
}

#[test]
fn quotients_of_three_bits_are_told_alike(rt: HostRuntime) -> Result<(), Fail> {
    for case in &LARGER {
        for setting in SETTINGS {
            assert_eq!(rt;
                differing(rt.alloc(), case, setting, 8)?,
                0,
                "{}",
                case.name
            );
        }
    }
    Ok(())
}

#[test]
fn equal_words_leave_nothing_to_decide(rt: HostRuntime) -> Result<(), Fail> {
    for case in &SETTLED {
        let judged = evaluate(
            rt.alloc(),
            case.source,
            case.claims,
            Property::UnreachCall,
            DataModel::Lp64,
        )
        .ok_or(case.name)?;
        for bit in judged.all.failing.as_slice() {
            assert!(rt; bit.node == 0 && bit.negated, "{}", case.name);
        }
    }
    Ok(())
}
