//! The family of a drill.

ghost use Rattle.std.specs.Prelude.{◌≡◌, ◌+◌, ◌≤◌, ◌++◌, IfOk, OnOk, codes, map, sum};
ghost use Rattle.std.specs.List.{All};
ghost use Rattle.ibp_field.specs.Arithmetic.{mul_mod};
ghost use Rattle.ibp_algebra.specs.Exponents.{add_exponents, deg_rev_lex};
ghost use Rattle.ibp_algebra.specs.FormalSum.{normal_form};
ghost use Rattle.family.specs.FamilyView.{family_view};
ghost use Rattle.sector_lattice.specs.Ranges.{InRange};
ghost use Rattle.family_file.specs.declared.limits.TheConstants.{DRILL_LIMIT};
ghost use Rattle.family_file.specs.Drill.{box_terms, drill_data, drill_targets, drill_zero, product_by, z};

use family::{Bounds, Budget, Family, Name, Selection};
use ibp_base::{List, NoMemory};
use ibp_field::Residue;
use mono_order::Monomial;
use sector_lattice::{Integral, Sector};
use sparse_poly::Poly;
use std::alloc::Global;

// The term with z_i and this coefficient.
fn z(i: u8, coefficient: Residue) -> (Monomial, Residue)
    requires { (1 ≤ i) × (i ≤ 4) }
    ensures { result ≡ z i coefficient }
{
    (Monomial::variable(i), coefficient)
}

// Adds one term times the terms of the other factor, of degree one at most, and times the factor.
fn add_multiple(
    into: &mut Vec<(Monomial, Residue)>,
    factor: Residue,
    left: &(Monomial, Residue),
    right: &[(Monomial, Residue)],
) -> Result<(), NoMemory>
    requires left { sum left.now.0 ≤ 1 }
    requires right { All (λ term. sum term.0 ≤ 1) right.now }
    ensures { OnOk result (into.new.items ≡ into.old.items ++ map (λ r. (add_exponents left.now.0 r.0, mul_mod factor (mul_mod left.now.1 r.1))) right.now) }
{
    for (monomial, coefficient) in right {
        let product = left.0.product(monomial);
        into.push((product, factor.mul(left.1.mul(*coefficient))))?;
    }
    Ok(())
}

// Adds the terms of the product of two linear forms, times the factor.
fn add_product(
    into: &mut Vec<(Monomial, Residue)>,
    factor: Residue,
    left: &[(Monomial, Residue)],
    right: &[(Monomial, Residue)],
) -> Result<(), NoMemory>
    requires left { All (λ term. sum term.0 ≤ 1) left.now }
    requires right { All (λ term. sum term.0 ≤ 1) right.now }
    ensures { OnOk result (into.new.items ≡ into.old.items ++ product_by factor left.now right.now) }
{
    for term in left {
        add_multiple(into, factor, term, right)?;
    }
    Ok(())
}

// The terms of the box's polynomial.
fn box_terms(
    alloc: Global,
    s: Residue,
    t: Residue,
    u: Residue,
) -> Result<Vec<(Monomial, Residue)>, NoMemory>
    ensures { IfOk result (λ terms. terms.items ≡ box_terms s t u) }
{
    let one = Residue::one();
    let two = Residue::of(2);
    let first = [z(2, one), z(1, one.neg())];
    let second = [z(3, one), z(2, one.neg()), (Monomial::one(), s.neg())];
    let third = [z(4, one), z(3, one.neg()), (Monomial::one(), s)];
    let mut terms = Vec::new(alloc);
    terms.push(z(1, Residue::of(4).mul(s.mul(t.mul(u)))))?;
    add_product(&mut terms, t.mul(t), &first, &first)?;
    add_product(&mut terms, u.mul(u), &second, &second)?;
    add_product(&mut terms, s.mul(s), &third, &third)?;
    add_product(&mut terms, two.mul(t.mul(u)).neg(), &first, &second)?;
    add_product(&mut terms, two.mul(s.mul(t)).neg(), &first, &third)?;
    add_product(&mut terms, two.mul(s.mul(u)).neg(), &second, &third)?;
    Ok(terms)
}

// The box's polynomial.
fn box_polynomial(alloc: Global, s: Residue, t: Residue, u: Residue) -> Result<Poly, NoMemory>
    ensures { IfOk result (λ p. p ≡ normal_form deg_rev_lex (box_terms s t u)) }
{
    let terms = box_terms(alloc, s, t, u)?;
    let polynomial = Poly::from_terms(alloc, &terms)?;
    Ok(polynomial)
}

// The integral with these powers.
fn integral(powers: &[i16]) -> Integral
    requires { InRange powers.now }
    ensures { result ≡ powers.now }
{
    match Integral::new(powers) {
        Some(integral) => integral,
        None => unreachable!(),
    }
}

// What is asked of the box.
fn drill_targets(alloc: Global) -> Result<Vec<Integral>, NoMemory>
    ensures { IfOk result (λ targets. targets.items ≡ drill_targets) }
{
    let mut targets = Vec::new(alloc);
    targets.push(integral(&[1, 1, 1, 1]))?;
    targets.push(integral(&[2, 1, 1, 1]))?;
    targets.push(integral(&[1, 2, 1, 1]))?;
    targets.push(integral(&[1, 1, 2, 1]))?;
    targets.push(integral(&[1, 1, 1, 2]))?;
    targets.push(integral(&[1, 1, 1, -1]))?;
    targets.push(integral(&[1, 1, 1, -2]))?;
    targets.push(integral(&[1, 1, -1, 1]))?;
    targets.push(integral(&[1, -1, 1, 1]))?;
    targets.push(integral(&[-1, 1, 1, 1]))?;
    targets.push(integral(&[1, -1, 1, -1]))?;
    targets.push(integral(&[-1, 1, -1, 1]))?;
    Ok(targets)
}

// The zero sectors of the box.
fn drill_zero(alloc: Global) -> Result<Vec<Sector>, NoMemory>
    ensures { IfOk result (λ zero. zero.items ≡ drill_zero) }
{
    let zero = vec![in alloc; Sector(3), Sector(6), Sector(12), Sector(9)]?;
    Ok(zero)
}

// The name of the families of drills.
fn drill_name(alloc: Global) -> Result<Name, NoMemory>
    ensures { IfOk result (λ name. name ≡ codes "drill") }
{
    match Name::from_bytes(alloc, b"drill")? {
        Some(name) => Ok(name),
        None => unreachable!(),
    }
}

/// The family of the drill of this number: a box of one loop and three legs whose parameters s, t and u are the number
/// plus 1, the number plus 3 and minus their sum, in the dimension 1234567 plus twice the number.
pub fn drill_family(alloc: Global, number: u32) -> Result<Family, NoMemory>
    requires { number ≤ DRILL_LIMIT }
    ensures { IfOk result (λ family. family_view family ≡ drill_data number) }
{
    let s = Residue::of(number + 1);
    let t = Residue::of(number + 3);
    let u = Residue::of(2 * number + 4).neg();
    let baikov = box_polynomial(alloc, s, t, u)?;
    let name = drill_name(alloc)?;
    let targets = drill_targets(alloc)?;
    let zero = drill_zero(alloc)?;
    Ok(Family {
        name,
        n: 4,
        gamma: Residue::of(617_281 + number),
        baikov,
        targets: List::from_vec(targets),
        zero: List::from_vec(zero),
        bounds: Bounds {
            dots_cap: 1,
            rank_cap: 2,
            extra_dots: 0,
            extra_rank: 0,
        },
        caps: List::from_vec(Vec::new(alloc)),
        symmetries: List::from_vec(Vec::new(alloc)),
        budget: Budget {
            pairs: 1_000_000,
            candidates: 20_000,
            selection: Selection::Order,
        },
        probe: None,
    })
}
