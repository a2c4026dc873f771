use ibp_field::Residue;
use poly_text::{Numbers, parse_poly};
use std::test::Fail;
use system_text::print_poly;

#[test]
fn a_polynomial_text_is_written_term_by_term(rt: HostRuntime) -> Result<(), Fail> {
    let alloc = rt.alloc();
    let mut numbers = Numbers::empty(alloc);
    numbers.insert("s", Residue::one())?;
    let poly = parse_poly(alloc, "4*s*z1 - (z2 - z1 - s)^2", 2, &numbers)?;
    let text = "2147483646*z1^2 + 2*z1*z2 + 2147483646*z2^2 + 2*z1 + 2*z2 + 2147483646";
    assert_eq!(rt; print_poly(alloc, &poly)?.as_slice(), text.as_bytes());
    Ok(())
}
