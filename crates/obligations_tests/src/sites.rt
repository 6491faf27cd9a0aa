// Sites of nets, also those at which no run ever is.
use crate::cases::evaluate;
use c_core::{DataModel, Property};
use c_meaning::DrawKind;
use std::alloc::Global;
use std::test::Fail;

const DEAD_NAME: &str = "\
int main(void) {
  if (0) {
    int x;
  }
  return 0;
}
";

// `f` isn't reached; the loop's body runs under no input, and changes `n` and `t[0]`.
const DEAD_LOOP: &str = "\
int __VERIFIER_nondet_int(void);
int f(void) { int y; return __VERIFIER_nondet_int(); }
int main(void) {
  int n = 0;
  char t[2] = {0, 0};
  while (0) {
    n++;
    t[0] = 1;
    n = __VERIFIER_nondet_int();
  }
  return n;
}
";

fn letter(from: DrawKind) -> char {
    match from {
        DrawKind::Input => 'i',
        DrawKind::Cell => 'c',
        DrawKind::Havoc => 'h',
    }
}

// Each site's kind, place and number of bits.
fn sites(alloc: Global, source: &str) -> Result<String, Fail> {
    let found = evaluate(alloc, source, &[], Property::NoOverflow, DataModel::Lp64);
    let judged = found.ok_or("refused")?;
    let mut text = String::new(alloc);
    for site in judged.all.sites.as_slice() {
        let letter = letter(site.from);
        let line = site.spot.line;
        let column = site.spot.column;
        let bits = site.bits.bits.as_slice().len();
        write!(text, "{letter} {line}:{column} {bits}\n")?;
    }
    Ok(text)
}

#[test]
fn sites_of_dead_code_stand_for_its_draws(rt: HostRuntime) -> Result<(), Fail> {
    assert_eq!(rt; sites(rt.alloc(), DEAD_NAME)?.as_str(), "c 3:9 32\n");
    let wanted = "h 6:3 32\nh 6:3 8\nh 6:3 8\ni 9:9 32\n";
    assert_eq!(rt; sites(rt.alloc(), DEAD_LOOP)?.as_str(), wanted);
    Ok(())
}
