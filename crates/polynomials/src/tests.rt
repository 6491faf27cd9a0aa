// What no clause says: that equal polynomials get equal terms, what is refused, what `normalise` makes.
use crate::factors::{Factors, times};
use crate::{Polynomial, multiply};
use std::alloc::Global;
use wv_base::OutOfMemory;

const NONE: Factors = [0; 6];

// a small generator of numbers (Knuth's MMIX)
fn next(seed: &mut u64) -> u64 {
    *seed = seed
        .wrapping_mul(6364136223846793005)
        .wrapping_add(1442695040888963407);
    *seed >> 20
}

fn cut(width: u32, n: u64) -> u64 {
    if width >= 64 { n } else { n % (1u64 << width) }
}

// the value where unknown x has the value `values[x]`
fn evaluate(width: u32, p: &Polynomial, values: &[u64]) -> u64 {
    let mut sum = 0u64;
    for i in 0..p.terms().len() {
        let term = p.terms()[i];
        let mut product = term.coefficient;
        for j in 0..6 {
            let x = term.factors[j] as usize;
            if x != 0 && x < values.len() {
                product = product.wrapping_mul(values[x]);
            }
        }
        sum = sum.wrapping_add(product);
    }
    cut(width, sum)
}

fn sum(
    alloc: Global,
    width: u32,
    p: &Polynomial,
    q: &Polynomial,
) -> Result<Polynomial, OutOfMemory> {
    if width > 64 {
        return Ok(Polynomial::new(alloc));
    }
    let mut r = p.copy(alloc)?;
    let _ = r.add_multiple(width, 1, NONE, q)?;
    Ok(r)
}

// the sum of some unknowns times numbers
fn linear(alloc: Global, width: u32, parts: &[(u64, u32)]) -> Result<Polynomial, OutOfMemory> {
    let mut r = Polynomial::new(alloc);
    if width > 64 {
        return Ok(r);
    }
    for i in 0..parts.len() {
        let (c, x) = parts[i];
        let _ = r.add_term(width, c, [x, 0, 0, 0, 0, 0])?;
    }
    Ok(r)
}

// a polynomial of a few terms in the unknowns below 10, each of at most two factors
fn random(alloc: Global, width: u32, seed: &mut u64) -> Result<Polynomial, OutOfMemory> {
    let mut r = Polynomial::new(alloc);
    if width > 64 {
        return Ok(r);
    }
    for _ in 0..4 {
        let a = (next(seed) % 10) as u32;
        let b = (next(seed) % 10) as u32;
        let c = next(seed).wrapping_mul(0x1_0000_0001);
        if let Some(product) = times([a, 0, 0, 0, 0, 0], [b, 0, 0, 0, 0, 0]) {
            let _ = r.add_term(width, c, product)?;
        }
    }
    Ok(r)
}

fn is_binomial(alloc: Global, width: u32) -> Result<bool, OutOfMemory> {
    if width > 64 {
        return Ok(false);
    }
    let s = linear(alloc, width, &[(1, 2), (1, 4)])?;
    let Some(mut r) = multiply(alloc, width, &s, &s)? else {
        return Ok(false);
    };
    let minus = 0u64.wrapping_sub(1);
    if !r.add_term(width, minus, [2, 2, 0, 0, 0, 0])? {
        return Ok(false);
    }
    if !r.add_term(width, minus.wrapping_mul(2), [4, 2, 0, 0, 0, 0])? {
        return Ok(false);
    }
    if !r.add_term(width, minus, [4, 4, 0, 0, 0, 0])? {
        return Ok(false);
    }
    Ok(r.terms().len() == 0 && r.as_constant() == Some(0))
}

// the products and sums of two random polynomials against their values
fn agrees(alloc: Global, width: u32, seed: &mut u64) -> Result<bool, OutOfMemory> {
    if width > 64 {
        return Ok(false);
    }
    let p = random(alloc, width, seed)?;
    let q = random(alloc, width, seed)?;
    let mut values = [0u64; 10];
    for i in 1..10 {
        values[i] = if i % 2 == 1 {
            next(seed) % 2
        } else {
            next(seed).wrapping_mul(0x2_0000_0003)
        };
    }
    let vp = evaluate(width, &p, &values);
    let vq = evaluate(width, &q, &values);
    let Some(product) = multiply(alloc, width, &p, &q)? else {
        return Ok(false);
    };
    let Some(other) = multiply(alloc, width, &q, &p)? else {
        return Ok(false);
    };
    let total = sum(alloc, width, &p, &q)?;
    let turned = sum(alloc, width, &q, &p)?;
    Ok(
        evaluate(width, &product, &values) == cut(width, vp.wrapping_mul(vq))
            && evaluate(width, &total, &values) == cut(width, vp.wrapping_add(vq))
            && product.same_terms(&other)
            && total.same_terms(&turned)
            && product.hash() == other.hash(),
    )
}

#[test]
fn a_square_is_what_it_is(rt: HostRuntime) {
    for width in [1u32, 8, 32, 64] {
        let fine = is_binomial(rt.alloc(), width).unwrap_or(false);
        assert!(rt; fine, "at width {width}");
    }
}

#[test]
fn random_polynomials_have_their_values(rt: HostRuntime) {
    let mut seed = 7;
    for width in [1u32, 8, 32, 63, 64] {
        for _ in 0..40 {
            let fine = agrees(rt.alloc(), width, &mut seed).unwrap_or(false);
            assert!(rt; fine, "at width {width}");
        }
    }
}

#[test]
fn products_of_factors(rt: HostRuntime) {
    assert_eq!(rt;
        times([3, 0, 0, 0, 0, 0], [3, 0, 0, 0, 0, 0]),
        Some([3, 0, 0, 0, 0, 0])
    );
    assert_eq!(rt;
        times([4, 3, 0, 0, 0, 0], [5, 4, 3, 0, 0, 0]),
        Some([5, 4, 4, 3, 0, 0])
    );
    assert_eq!(rt; times([9, 8, 6, 4, 2, 1], [9, 7, 1, 0, 0, 0]), None);
    assert_eq!(rt;
        times([9, 8, 6, 4, 2, 1], [9, 1, 0, 0, 0, 0]),
        Some([9, 8, 6, 4, 2, 1])
    );
    assert_eq!(rt; times([2, 2, 2, 2, 0, 0], [2, 2, 2, 0, 0, 0]), None);
}

fn refuses_terms(alloc: Global) -> Result<bool, OutOfMemory> {
    let mut p = Polynomial::new(alloc);
    for i in 0..32u32 {
        if !p.add_term(8, 1, [i, 0, 0, 0, 0, 0])? {
            return Ok(false);
        }
    }
    let merged = p.add_term(8, 5, [31, 0, 0, 0, 0, 0])?;
    let nothing = p.add_term(8, 256, [40, 0, 0, 0, 0, 0])?;
    let one_more = p.add_term(8, 5, [32, 0, 0, 0, 0, 0])?;
    Ok(merged && nothing && !one_more && p.terms().len() == 32)
}

fn refuses_factors(alloc: Global) -> Result<bool, OutOfMemory> {
    let mut p = Polynomial::new(alloc);
    let _ = p.add_term(8, 1, [4, 4, 4, 2, 0, 0])?;
    let squared = multiply(alloc, 8, &p, &p)?;
    let mut q = Polynomial::new(alloc);
    let _ = q.add_term(8, 1, [2, 2, 0, 0, 0, 0])?;
    let least = multiply(alloc, 8, &p, &q)?;
    let mut bits = Polynomial::new(alloc);
    let _ = bits.add_term(8, 1, [11, 9, 7, 5, 3, 1])?;
    let same = multiply(alloc, 8, &bits, &bits)?;
    Ok(squared.is_none() && least.is_some() && same.is_some_and(|s| s.same_terms(&bits)))
}

#[test]
fn what_is_too_much_is_refused(rt: HostRuntime) {
    assert!(rt; refuses_terms(rt.alloc()).unwrap_or(false));
    assert!(rt; refuses_factors(rt.alloc()).unwrap_or(false));
}

// the terms of c times a polynomial, normalised
fn normal(alloc: Global, width: u32, c: u64) -> Result<Polynomial, OutOfMemory> {
    let mut r = Polynomial::new(alloc);
    if width > 64 {
        return Ok(r);
    }
    let p = linear(
        alloc,
        width,
        &[(12, 2), (6, 4), (20, 6), (1u64 << 40, 8), (200, 0)],
    )?;
    let _ = r.add_multiple(width, c, NONE, &p)?;
    r.normalise(width);
    Ok(r)
}

fn normalises(alloc: Global, width: u32) -> Result<bool, OutOfMemory> {
    let one = normal(alloc, width, 1)?;
    let three = normal(alloc, width, 3)?;
    let minus = normal(alloc, width, 0u64.wrapping_sub(1))?;
    let large = normal(alloc, width, 0x1234_5678_9abc_def1)?;
    let two = normal(alloc, width, 2)?;
    Ok(
        one.same_terms(&three)
            && one.same_terms(&minus)
            && one.same_terms(&large)
            && one.hash() == minus.hash()
            && !one.same_terms(&two),
    )
}

#[test]
fn odd_multiples_get_the_same_terms(rt: HostRuntime) {
    for width in [8u32, 32, 64] {
        let fine = normalises(rt.alloc(), width).unwrap_or(false);
        assert!(rt; fine, "at width {width}");
    }
}

fn wraps(alloc: Global) -> Result<bool, OutOfMemory> {
    let high = Polynomial::constant(alloc, 64, 1u64 << 63)?;
    let zero = sum(alloc, 64, &high, &high)?;
    let byte = Polynomial::constant(alloc, 8, 511)?;
    let mut short = Polynomial::new(alloc);
    let wide = linear(alloc, 64, &[(257, 2), (256, 4), (511, 0)])?;
    let _ = short.add_multiple(8, 1, NONE, &wide)?;
    let wanted = linear(alloc, 8, &[(1, 2), (255, 0)])?;
    let unknown = Polynomial::unknown(alloc, 4)?;
    Ok(
        zero.as_constant() == Some(0)
            && byte.as_constant() == Some(255)
            && unknown.as_constant().is_none()
            && short.same_terms(&wanted),
    )
}

#[test]
fn coefficients_wrap(rt: HostRuntime) {
    assert!(rt; wraps(rt.alloc()).unwrap_or(false));
}
