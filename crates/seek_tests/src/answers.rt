// What is answered of a search, once each.
use crate::cases::{Case, searched};
use c_core::Property::UnreachCall;
use std::test::Fail;
use wv_schema::WayKind::Target;
use wv_seek::{SeekFault, Sought};

const ONE_VALUE: Case = Case {
    name: "one value",
    property: UnreachCall,
    source: "\
void reach_error() { }
int __VERIFIER_nondet_int();
int main() {
  int x = __VERIFIER_nondet_int();
  if (x == 5) {
    reach_error();
  }
  return 0;
}
",
    parts: &[(&[], (Target, 6, Some(5), None))],
    sought: &[],
};

const TWO_TURNS: Case = Case {
    name: "two turns",
    property: UnreachCall,
    source: "\
void reach_error() { }
int __VERIFIER_nondet_int();
int main() {
  int x = __VERIFIER_nondet_int();
  int i = 0;
  while (i < x) {
    i++;
  }
  if (i == 2) {
    reach_error();
  }
  return 0;
}
",
    parts: &[(&[], (Target, 10, None, None))],
    sought: &[],
};

const PRODUCTS_COMMUTE: Case = Case {
    name: "products commute",
    property: UnreachCall,
    source: "\
void reach_error() { }
unsigned char __VERIFIER_nondet_uchar();
int main() {
  unsigned char a = __VERIFIER_nondet_uchar();
  unsigned char b = __VERIFIER_nondet_uchar();
  if ((unsigned char)(a * b) != (unsigned char)(b * a)) {
    reach_error();
  }
  return 0;
}
",
    parts: &[(&[], (Target, 7, None, None))],
    sought: &[],
};

const THREE_LOOPS: Case = Case {
    name: "three loops",
    property: UnreachCall,
    source: "\
void reach_error() { }
int main() {
  int n = 0;
  for (int i = 0; i < 3; i++) {
    for (int j = 0; j < 3; j++) {
      for (int k = 0; k < 3; k++) {
        n++;
      }
    }
  }
  reach_error();
  return 0;
}
",
    parts: &[(&[], (Target, 11, None, None))],
    sought: &[],
};

#[test]
fn values_are_found(rt: HostRuntime) -> Result<(), Fail> {
    match searched(rt.alloc(), &ONE_VALUE, 1, 100) {
        Some(Ok(Sought::Found { draws, positions })) => {
            assert_eq!(rt; draws.len(), 1);
            for draw in draws.as_slice() {
                assert_eq!(rt; draw.value, 5);
            }
            assert!(rt; positions.as_slice() == [8].as_slice());
            Ok(())
        }
        _ => Err(Fail::new("not found")),
    }
}

#[test]
fn none_are_found_within_fewer_turns(rt: HostRuntime) -> Result<(), Fail> {
    match searched(rt.alloc(), &TWO_TURNS, 1, 100000) {
        Some(Ok(Sought::Nothing)) => {}
        _ => return Err(Fail::new("not nothing")),
    }
    match searched(rt.alloc(), &TWO_TURNS, 2, 100000) {
        Some(Ok(Sought::Found { draws, .. })) => {
            for draw in draws.as_slice() {
                assert_eq!(rt; draw.value, 2);
            }
            Ok(())
        }
        _ => Err(Fail::new("not found")),
    }
}

#[test]
fn a_budget_is_spent(rt: HostRuntime) -> Result<(), Fail> {
    match searched(rt.alloc(), &PRODUCTS_COMMUTE, 1, 1) {
        Some(Ok(Sought::Spent(spent))) => {
            assert_eq!(rt; spent.log.chains.len(), 1);
            Ok(())
        }
        _ => Err(Fail::new("not spent")),
    }
}

#[test]
fn three_loops_are_too_big(rt: HostRuntime) -> Result<(), Fail> {
    match searched(rt.alloc(), &THREE_LOOPS, 64, 100000) {
        Some(Err(SeekFault::TooBig)) => Ok(()),
        _ => Err(Fail::new("not too big")),
    }
}
