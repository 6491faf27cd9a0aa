// Operators and types.
use crate::cases::Case;
use wv_schema::InvariantKind::Location;

/// The programs, each with its claims.
pub const CASES: [Case; 3] = [
    Case {
        name: "shifts and quotients",
        source: "\
void reach_error() { }
unsigned int __VERIFIER_nondet_uint();
long __VERIFIER_nondet_long();
short __VERIFIER_nondet_short();
int main() {
  unsigned int u = __VERIFIER_nondet_uint();
  long l = __VERIFIER_nondet_long();
  short s = __VERIFIER_nondet_short();
  int q = s / 3;
  long m = l << u;
  u = u >> (s & 7);
  q = (q ^ ~s) | 4;
  s = (short) (m - 3);
  u *= s;
  q = q % s;
  if ((u > 5) == (q < l)) {
    reach_error();
  }
  return (int) (l - m);
}
",
        claims: &[
            (Location, 15, "s != 12"),
            (Location, 16, "l >= -40 || q != 1"),
        ],
    },
    Case {
        name: "steps",
        source: "\
void reach_error() { }
char __VERIFIER_nondet_char();
int __VERIFIER_nondet_int();
unsigned short __VERIFIER_nondet_ushort();
int main() {
  char c = __VERIFIER_nondet_char();
  int i = __VERIFIER_nondet_int();
  unsigned short w = __VERIFIER_nondet_ushort();
  int j = c++;
  j += --i;
  i <<= 2;
  -j;
  c -= 100;
  _Bool b = w--;
  b--;
  w %= 7;
  j = i++ < 3 ? i * 2 : -i;
  w >>= j;
  if (b != w || c == 100) {
    reach_error();
  }
  return -i;
}
",
        claims: &[
            (Location, 12, "i < 100"),
            (Location, 19, "j != 4 && c >= -128"),
        ],
    },
    Case {
        name: "inputs of all types",
        source: "\
void reach_error() { }
_Bool __VERIFIER_nondet_bool();
char __VERIFIER_nondet_char();
unsigned char __VERIFIER_nondet_uchar();
short __VERIFIER_nondet_short();
unsigned short __VERIFIER_nondet_ushort();
int __VERIFIER_nondet_int();
unsigned int __VERIFIER_nondet_uint();
unsigned int __VERIFIER_nondet_unsigned();
long __VERIFIER_nondet_long();
unsigned long __VERIFIER_nondet_ulong();
long long __VERIFIER_nondet_longlong();
unsigned long long __VERIFIER_nondet_ulonglong();
unsigned long long wide(signed char c) { return c; }
_Bool truth(long long v) { return v; }
int main() {
  _Bool b = __VERIFIER_nondet_char() < __VERIFIER_nondet_uchar();
  signed char c = __VERIFIER_nondet_short() + __VERIFIER_nondet_ushort();
  unsigned long long z = wide(__VERIFIER_nondet_int());
  b = truth(__VERIFIER_nondet_longlong() - __VERIFIER_nondet_bool());
  long l = __VERIFIER_nondet_uint() + __VERIFIER_nondet_long();
  z = z - __VERIFIER_nondet_ulonglong();
  if (l < __VERIFIER_nondet_unsigned() == b) {
    reach_error();
  }
  l = b ? c : z;
  c = __VERIFIER_nondet_ulong() | l;
  return c * !z;
}
",
        claims: &[
            (Location, 22, "z != 5"),
            (Location, 27, "l <= z || b + c < 9"),
        ],
    },
];
