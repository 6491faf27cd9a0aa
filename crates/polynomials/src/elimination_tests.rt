// What no clause says of `reduce`: that it decides questions as loops over products pose them.
use crate::factors::times;
use crate::{Polynomial, reduce};
use std::alloc::Global;
use wv_base::OutOfMemory;

// a coefficient and at most two factors
type Part = (u64, u32, u32);

// - 1 modulo 2^64
const MINUS: u64 = u64::MAX;

const X: u32 = 2;

const Y: u32 = 4;

const Z: u32 = 6;

fn sum_of(alloc: Global, width: u32, parts: &[Part]) -> Result<Polynomial, OutOfMemory> {
    let mut p = Polynomial::new(alloc);
    if width > 64 {
        return Ok(p);
    }
    for i in 0..parts.len() {
        let (c, a, b) = parts[i];
        if let Some(product) = times([a, 0, 0, 0, 0, 0], [b, 0, 0, 0, 0, 0]) {
            let _ = p.add_term(width, c, product)?;
        }
    }
    Ok(p)
}

// the question where the facts are 0
fn reduced(
    alloc: Global,
    width: u32,
    question: &[Part],
    facts: &[&[Part]],
) -> Result<Polynomial, OutOfMemory> {
    let question = sum_of(alloc, width, question)?;
    if width > 64 {
        return Ok(question);
    }
    let mut given = Vec::new(alloc);
    for i in 0..facts.len() {
        given.push(sum_of(alloc, width, facts[i])?)?;
    }
    reduce(alloc, width, question, given)
}

// that as a number, if it is one
fn number(alloc: Global, width: u32, question: &[Part], facts: &[&[Part]]) -> Option<u64> {
    match reduced(alloc, width, question, facts) {
        Ok(p) => p.as_constant(),
        Err(_) => None,
    }
}

// whether the question keeps its terms
fn stands(
    alloc: Global,
    width: u32,
    question: &[Part],
    facts: &[&[Part]],
) -> Result<bool, OutOfMemory> {
    let before = sum_of(alloc, width, question)?;
    let after = reduced(alloc, width, question, facts)?;
    Ok(after.same_terms(&before))
}

#[test]
fn unknowns_are_put_in(rt: HostRuntime) {
    let alloc = rt.alloc();
    let facts: [&[Part]; 2] = [
        &[(1, X, 0), (MINUS, Y, 0), (MINUS, 0, 0)],
        &[(1, Y, 0), (MINUS, Z, Z)],
    ];
    for width in [1u32, 8, 32, 64] {
        assert_eq!(rt;
            number(
                alloc,
                width,
                &[(1, X, 0), (MINUS, Z, Z), (MINUS, 0, 0)],
                &facts
            ),
            Some(0)
        );
        assert_eq!(rt;
            number(alloc, width, &[(1, X, 0), (MINUS, Z, Z)], &facts),
            Some(1)
        );
        assert_eq!(rt;
            number(alloc, width, &[(1, X, X), (MINUS, X, Z)], &facts),
            None
        );
    }
    let odd: [&[Part]; 1] = [&[(3, X, 0), (5, Y, 0)]];
    assert_eq!(rt; number(alloc, 8, &[(9, X, X), (231, Y, Y)], &odd), Some(0));
}

#[test]
fn sums_of_the_first_numbers(rt: HostRuntime) {
    let alloc = rt.alloc();
    // 2s = i(i + 1); next t = s + i + 1, j = i + 1
    let (s, i, t, j) = (2u32, 4u32, 6u32, 8u32);
    let sum: &[Part] = &[(2, s, 0), (MINUS, i, i), (MINUS, i, 0)];
    let more: &[Part] = &[(1, t, 0), (MINUS, s, 0), (MINUS, i, 0), (MINUS, 0, 0)];
    let next: &[Part] = &[(1, j, 0), (MINUS, i, 0), (MINUS, 0, 0)];
    for width in [8u32, 32, 64] {
        assert_eq!(rt;
            number(
                alloc,
                width,
                &[(2, s, 0), (MINUS, i, i), (MINUS, i, 0)],
                &[sum]
            ),
            Some(0)
        );
        assert_eq!(rt;
            number(
                alloc,
                width,
                &[(2, t, 0), (MINUS, j, j), (MINUS, j, 0)],
                &[sum, more, next]
            ),
            Some(0)
        );
        assert_eq!(rt;
            number(
                alloc,
                width,
                &[(2, t, 0), (MINUS, j, j)],
                &[sum, more, next]
            ),
            None
        );
    }
}

#[test]
fn square_roots(rt: HostRuntime) {
    let alloc = rt.alloc();
    // t = 2a + 1, s = (a + 1)^2; next b = a + 1, u = t + 2, r = s + u
    let (a, t, s, b, u, r) = (2u32, 4u32, 6u32, 8u32, 10u32, 12u32);
    let minus_two = 0u64.wrapping_sub(2);
    let facts: [&[Part]; 5] = [
        &[(1, t, 0), (minus_two, a, 0), (MINUS, 0, 0)],
        &[(1, s, 0), (MINUS, a, a), (minus_two, a, 0), (MINUS, 0, 0)],
        &[(1, b, 0), (MINUS, a, 0), (MINUS, 0, 0)],
        &[(1, u, 0), (MINUS, t, 0), (minus_two, 0, 0)],
        &[(1, r, 0), (MINUS, s, 0), (MINUS, u, 0)],
    ];
    assert_eq!(rt;
        number(
            alloc,
            32,
            &[(1, u, 0), (minus_two, b, 0), (MINUS, 0, 0)],
            &facts
        ),
        Some(0)
    );
    assert_eq!(rt;
        number(
            alloc,
            32,
            &[(1, r, 0), (MINUS, b, b), (minus_two, b, 0), (MINUS, 0, 0)],
            &facts
        ),
        Some(0)
    );
    assert_eq!(rt;
        number(alloc, 32, &[(1, r, 0), (MINUS, b, b)], &facts),
        None
    );
}

#[test]
fn common_divisors(rt: HostRuntime) {
    let alloc = rt.alloc();
    // a = xp + yr, b = xq + ys; next c = a - b, p = q + m, r = s + n
    let (x, y, p, q, r, s) = (2u32, 4u32, 6u32, 8u32, 10u32, 12u32);
    let (a, b, c, m, n) = (14u32, 16u32, 18u32, 20u32, 22u32);
    let facts: [&[Part]; 5] = [
        &[(1, a, 0), (MINUS, x, p), (MINUS, y, r)],
        &[(1, b, 0), (MINUS, x, q), (MINUS, y, s)],
        &[(1, c, 0), (MINUS, a, 0), (1, b, 0)],
        &[(1, p, 0), (MINUS, q, 0), (MINUS, m, 0)],
        &[(1, r, 0), (MINUS, s, 0), (MINUS, n, 0)],
    ];
    assert_eq!(rt;
        number(
            alloc,
            64,
            &[(1, c, 0), (MINUS, x, m), (MINUS, y, n)],
            &facts
        ),
        Some(0)
    );
    assert_eq!(rt;
        number(
            alloc,
            64,
            &[(1, c, 0), (MINUS, x, m), (MINUS, y, n), (3, 0, 0)],
            &facts
        ),
        Some(3)
    );
}

#[test]
fn even_coefficients_divide_even_ones(rt: HostRuntime) {
    let alloc = rt.alloc();
    let minus_four = 0u64.wrapping_sub(4);
    let facts: [&[Part]; 1] = [&[(2, X, X), (minus_four, Y, 0)]];
    for width in [8u32, 64] {
        assert_eq!(rt;
            number(
                alloc,
                width,
                &[(6, X, X), (minus_four.wrapping_mul(3), Y, 0)],
                &facts
            ),
            Some(0)
        );
        assert!(rt; stands(alloc, width, &[(3, X, X), (1, Y, 0)], &facts).unwrap_or(false));
    }
    let single: [&[Part]; 1] = [&[(6, X, 0), (10, 0, 0)]];
    assert_eq!(rt;
        number(alloc, 32, &[(12, X, 0), (20, 0, 0)], &single),
        Some(0)
    );
    assert!(rt; stands(alloc, 32, &[(3, X, 0), (5, 0, 0)], &single).unwrap_or(false));
}

#[test]
fn chains_of_ten(rt: HostRuntime) {
    let alloc = rt.alloc();
    // each number is thrice the one before it
    let facts: [&[Part]; 10] = [
        &[(1, 4, 0), (253, 2, 0)],
        &[(1, 6, 0), (253, 4, 0)],
        &[(1, 8, 0), (253, 6, 0)],
        &[(1, 10, 0), (253, 8, 0)],
        &[(1, 12, 0), (253, 10, 0)],
        &[(1, 14, 0), (253, 12, 0)],
        &[(1, 16, 0), (253, 14, 0)],
        &[(1, 18, 0), (253, 16, 0)],
        &[(1, 20, 0), (253, 18, 0)],
        &[(1, 22, 0), (253, 20, 0)],
    ];
    assert_eq!(rt;
        number(
            alloc,
            8,
            &[(1, 22, 0), (MINUS.wrapping_mul(59049), 2, 0)],
            &facts
        ),
        Some(0)
    );
    assert_eq!(rt;
        number(
            alloc,
            8,
            &[(1, 22, 22), (MINUS.wrapping_mul(59049), 2, 22)],
            &facts
        ),
        Some(0)
    );
}

#[test]
fn truths_are_their_own_squares(rt: HostRuntime) {
    let alloc = rt.alloc();
    let facts: [&[Part]; 1] = [&[(1, X, 0), (MINUS, 3, Y)]];
    assert_eq!(rt;
        number(alloc, 32, &[(1, X, 3), (MINUS, X, 0)], &facts),
        Some(0)
    );
    // no number is known of a truth alone
    let truth: [&[Part]; 1] = [&[(1, 3, 0), (MINUS, Y, 0)]];
    assert_eq!(rt;
        number(alloc, 32, &[(1, Y, Y), (MINUS, Y, 0)], &truth),
        Some(0)
    );
}

#[test]
fn what_says_nothing_changes_nothing(rt: HostRuntime) {
    let alloc = rt.alloc();
    let question: [Part; 3] = [(1, X, Y), (7, X, 0), (9, 0, 0)];
    let other: [&[Part]; 2] = [&[(1, Z, 0), (MINUS, 8, 0)], &[]];
    assert!(rt; stands(alloc, 32, &question, &[]).unwrap_or(false));
    assert!(rt; stands(alloc, 32, &question, &other).unwrap_or(false));
}

// a small generator of numbers (Knuth's MMIX)
fn random(seed: &mut u64) -> u64 {
    *seed = seed
        .wrapping_mul(6364136223846793005)
        .wrapping_add(1442695040888963407);
    *seed >> 20
}

// the value where unknown x has the value `values[x]`
fn evaluate(width: u32, p: &Polynomial, values: &[u64]) -> u64 {
    let mut sum = 0u64;
    for i in 0..p.terms().len() {
        let term = p.terms()[i];
        let mut product = term.coefficient;
        for j in 0..6 {
            let x = term.factors[j] as usize;
            if x != 0 && x < values.len() {
                product = product.wrapping_mul(values[x]);
            }
        }
        sum = sum.wrapping_add(product);
    }
    if width >= 64 {
        sum
    } else {
        sum % (1u64 << width)
    }
}

// some terms in the unknowns below a number
fn scattered(
    alloc: Global,
    width: u32,
    below: u32,
    terms: u32,
    seed: &mut u64,
) -> Result<Polynomial, OutOfMemory> {
    let mut p = Polynomial::new(alloc);
    if width > 64 || below == 0 {
        return Ok(p);
    }
    for _ in 0..terms {
        let a = (random(seed) % u64::from(below)) as u32;
        let b = (random(seed) % u64::from(below)) as u32;
        let c = random(seed).wrapping_mul(0x1_0000_0001);
        if let Some(product) = times([a, 0, 0, 0, 0, 0], [b, 0, 0, 0, 0, 0]) {
            let _ = p.add_term(width, c, product)?;
        }
    }
    Ok(p)
}

// whether a question is worth the same after it was reduced, where unknowns 8, 10, 12 and 14 are what the facts say
fn is_kept(alloc: Global, width: u32, terms: u32, seed: &mut u64) -> Result<bool, OutOfMemory> {
    if width > 64 {
        return Ok(false);
    }
    let mut values = [0u64; 16];
    for x in 1..8 {
        values[x] = if x % 2 == 1 {
            random(seed) % 2
        } else {
            random(seed).wrapping_mul(0x2_0000_0003)
        };
    }
    let mut facts = Vec::new(alloc);
    for k in 4..8u32 {
        let mut fact = scattered(alloc, width, 2 * k, terms, seed)?;
        values[2 * k as usize] = evaluate(width, &fact, &values);
        if !fact.add_term(width, MINUS, [2 * k, 0, 0, 0, 0, 0])? {
            return Ok(false);
        }
        facts.push(fact)?;
    }
    let question = scattered(alloc, width, 16, 6, seed)?;
    let wanted = evaluate(width, &question, &values);
    let result = reduce(alloc, width, question, facts)?;
    Ok(evaluate(width, &result, &values) == wanted)
}

#[test]
fn questions_keep_their_value_where_facts_hold(rt: HostRuntime) {
    let mut seed = 11;
    for width in [1u32, 8, 32, 64] {
        // the more terms, the sooner a limit is passed
        for terms in [1u32, 2, 5, 12] {
            for _ in 0..10 {
                let kept = is_kept(rt.alloc(), width, terms, &mut seed).unwrap_or(false);
                assert!(rt; kept, "at width {width} with {terms} terms");
            }
        }
    }
}

#[test]
fn what_passes_a_limit_is_left(rt: HostRuntime) {
    let alloc = rt.alloc();
    // a square of a sum of nine has 45 terms
    let long: [&[Part]; 1] = [&[
        (1, 20, 0),
        (1, 2, 0),
        (1, 4, 0),
        (1, 6, 0),
        (1, 8, 0),
        (1, 10, 0),
        (1, 12, 0),
        (1, 14, 0),
        (1, 16, 0),
        (1, 18, 0),
    ]];
    assert_eq!(rt; number(alloc, 32, &[(1, 20, 20)], &long), None);
    // a product of seven factors is none
    let high: [&[Part]; 4] = [
        &[(1, 8, 0), (MINUS, 6, 6)],
        &[(1, 6, 0), (MINUS, 4, 4)],
        &[(1, 4, 0), (MINUS, 2, 2)],
        &[(1, 10, 0), (MINUS, 2, 2)],
    ];
    assert_eq!(rt; number(alloc, 32, &[(1, 8, 0)], &high), None);
    assert_eq!(rt;
        number(alloc, 32, &[(1, 4, 0), (MINUS, 10, 0)], &high),
        Some(0)
    );
}
