// Polynomials.
ghost use Rattle.std.specs.Prelude.{◌≡◌, ◌++◌, ◌+◌, IfOk, OnOk, codes};
ghost use Rattle.std.specs.List.{flat_map};
ghost use Rattle.system_text.specs.Texts.{joined, power_text, monomial_text, poly_term_text, poly_text};

use crate::numbers::{put_bytes, put_residue, put_whole};
use ibp_base::{List, NoMemory};
use ibp_field::Residue;
use mono_order::{Monomial, VARIABLES};
use sparse_poly::Poly;
use std::alloc::Global;

fn put_power(text: &mut Vec<u8>, i: u8, exponent: u16) -> Result<(), NoMemory>
    ensures { OnOk result (text.new.items ≡ text.old.items ++ power_text i exponent) }
{
    if exponent == 0 {
        return Ok(());
    }
    put_bytes(text, b"*z")?;
    put_whole(text, u64::from(i))?;
    if exponent == 1 {
        return Ok(());
    }
    put_bytes(text, b"^")?;
    put_whole(text, u64::from(exponent))
}

fn put_monomial(text: &mut Vec<u8>, monomial: &Monomial) -> Result<(), NoMemory>
    ensures { OnOk result (text.new.items ≡ text.old.items ++ monomial_text monomial.now) }
{
    for i in 1..VARIABLES as u8 + 1 {
        put_power(text, i, monomial.exponent(i))?;
    }
    Ok(())
}

fn put_poly_term(text: &mut Vec<u8>, term: &(Monomial, Residue)) -> Result<(), NoMemory>
    ensures { OnOk result (text.new.items ≡ text.old.items ++ poly_term_text term.now) }
{
    put_residue(text, term.1)?;
    put_monomial(text, &term.0)
}

fn put_more_poly_terms(text: &mut Vec<u8>, terms: &[(Monomial, Residue)]) -> Result<(), NoMemory>
    ensures { OnOk result (text.new.items ≡ text.old.items
        ++ flat_map (λ term. codes " + " ++ poly_term_text term) terms.now) }
{
    for term in terms {
        put_bytes(text, b" + ")?;
        put_poly_term(text, term)?;
    }
    Ok(())
}

fn put_poly_terms(text: &mut Vec<u8>, terms: &[(Monomial, Residue)]) -> Result<(), NoMemory>
    ensures { OnOk result (text.new.items ≡ text.old.items ++ poly_text terms.now) }
{
    match terms {
        [] => put_bytes(text, b"0"),
        [first, others @ ..] => {
            put_poly_term(text, first)?;
            put_more_poly_terms(text, others)
        }
    }
}

/// A polynomial as `print_poly` writes it.
pub fn put_poly(text: &mut Vec<u8>, poly: &Poly) -> Result<(), NoMemory>
    ensures { OnOk result (text.new.items ≡ text.old.items ++ poly_text poly.now) }
{
    put_poly_terms(text, poly.terms())
}

fn put_more_polys(text: &mut Vec<u8>, polys: &[Poly]) -> Result<(), NoMemory>
    ensures { OnOk result (text.new.items ≡ text.old.items
        ++ flat_map (λ poly. codes ", " ++ poly_text poly) polys.now) }
{
    for poly in polys {
        put_bytes(text, b", ")?;
        put_poly(text, poly)?;
    }
    Ok(())
}

/// Polynomials, with a comma and a space between each two.
pub fn put_polys(text: &mut Vec<u8>, polys: &[Poly]) -> Result<(), NoMemory>
    ensures { OnOk result (text.new.items ≡ text.old.items
        ++ joined poly_text (codes ", ") polys.now) }
{
    match polys {
        [] => Ok(()),
        [first, others @ ..] => {
            put_poly(text, first)?;
            put_more_polys(text, others)
        }
    }
}

/// The text of a polynomial: its terms, greatest first, as `2*z1*z3^2`, with ` + ` between each
/// two. The zero polynomial is `0`.
pub fn print_poly(alloc: Global, poly: &Poly) -> Result<List<u8>, NoMemory>
    ensures { IfOk result (λ text. text ≡ poly_text poly.now) }
{
    let mut text = Vec::new(alloc);
    put_poly(&mut text, poly)?;
    Ok(List::from_vec(text))
}
