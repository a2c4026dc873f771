use ibp_field::Residue;
use mono_order::VARIABLES;
use poly_text::{Numbers, TextFault, Unread, is_number_name, parse_poly, read_number, read_poly};
use sparse_poly::Poly;
use std::alloc::Global;
use std::process::Abort;
use std::test::Fail;

// The terms of a polynomial in two variables: a coefficient, and the exponents of z1 and z2.
fn terms_of(alloc: Global, poly: &Poly) -> Result<Vec<(u32, u16, u16)>, Fail> {
    let mut terms = Vec::new(alloc);
    for (monomial, value) in poly.terms() {
        terms.push((value.value(), monomial.exponent(1), monomial.exponent(2)))?;
    }
    Ok(terms)
}

// The fault of a text in n variables, or the number of terms.
fn fault_of(
    rt: &impl Abort,
    alloc: Global,
    text: &str,
    n: u8,
    numbers: &Numbers,
) -> Result<usize, TextFault> {
    assert!(rt; text.len() < 1000);
    assert!(rt; n as usize <= VARIABLES);
    let poly = parse_poly(alloc, text, n, numbers)?;
    Ok(poly.terms().len())
}

#[test]
fn a_name_has_the_number_that_it_was_given(rt: HostRuntime) -> Result<(), Fail> {
    let mut numbers = Numbers::empty(rt.alloc());
    numbers.insert("s", Residue::one())?;
    assert_eq!(rt; numbers.get("s"), Some(Residue::one()));
    assert_eq!(rt; numbers.get("t"), None);
    Ok(())
}

const NAMES: [(&str, bool); 11] = [
    ("s", true),
    ("_a0", true),
    ("z", true),
    ("z1b", true),
    ("abcdefghijklmnopqrstuvwxyz_ABCDE", true),
    ("abcdefghijklmnopqrstuvwxyz_ABCDEF", false),
    ("", false),
    ("0", false),
    ("a-b", false),
    ("z1", false),
    ("z01", false),
];

#[test]
fn numbers_have_names_that_no_variable_has(rt: HostRuntime) {
    for (name, may_have) in NAMES {
        assert_eq!(rt; is_number_name(name.as_bytes()), may_have, "at {name}");
    }
}

const CONSTANTS: [(&str, u32); 8] = [
    ("1/2", 1073741824),
    (" +1 ", 1),
    ("(0)^0", 1),
    ("2^020", 1048576),
    ("-1\n", 2147483646),
    ("2*3-4/2", 4),
    ("340282366920938463463374607431768211455", 15),
    ("0000000000000000000000000000000000000000000001", 1),
];

// The terms of a text in two variables.
fn terms_of_text(
    rt: &impl Abort,
    alloc: Global,
    text: &str,
    numbers: &Numbers,
) -> Result<Vec<(u32, u16, u16)>, Fail> {
    assert!(rt; text.len() < 1000);
    let poly = parse_poly(alloc, text, 2, numbers)?;
    terms_of(alloc, &poly)
}

#[test]
fn a_text_has_its_terms(rt: HostRuntime) -> Result<(), Fail> {
    let mut numbers = Numbers::empty(rt.alloc());
    numbers.insert("s", Residue::one())?;
    let terms = terms_of_text(&rt, rt.alloc(), "4*s*z1 - (z2 - z1 - s)^2", &numbers)?;
    let wanted = [
        (2147483646, 2, 0),
        (2, 1, 1),
        (2147483646, 0, 2),
        (2, 1, 0),
        (2, 0, 1),
        (2147483646, 0, 0),
    ];
    assert!(rt; terms.as_slice() == wanted.as_slice());
    Ok(())
}

#[test]
fn texts_have_their_values(rt: HostRuntime) -> Result<(), Fail> {
    let mut numbers = Numbers::empty(rt.alloc());
    numbers.insert("s", Residue::one())?;
    for (text, value) in CONSTANTS {
        assert!(rt; text.len() < 1000);
        assert_eq!(rt; read_number(rt.alloc(), text)?.value(), value, "at {text}");
        let terms = terms_of_text(&rt, rt.alloc(), text, &numbers)?;
        assert!(rt; terms.as_slice() == [(value, 0, 0)].as_slice(), "at {text}");
    }
    Ok(())
}

const FAULTS: [(&str, TextFault); 15] = [
    ("z1 +", TextFault::Syntax { at: 4 }),
    ("z1 + q", TextFault::UnknownName { at: 5 }),
    ("z1^21", TextFault::PowerOver { at: 3 }),
    ("1/0", TextFault::ZeroDivisor { at: 1 }),
    ("z1/z2", TextFault::NotConstant { at: 2 }),
    ("(z1*z2)^13", TextFault::DegreeOver { at: 7 }),
    (
        "340282366920938463463374607431768211456",
        TextFault::NumberOver { at: 0 },
    ),
    (
        "(((((((((((((((((((((((((((((((((((((((((((((((((((((((((((((((((",
        TextFault::DepthOver { at: 64 },
    ),
    ("", TextFault::Syntax { at: 0 }),
    ("1 \r", TextFault::Syntax { at: 2 }),
    ("z01", TextFault::UnknownName { at: 0 }),
    ("z3", TextFault::UnknownName { at: 0 }),
    ("1/0 + $", TextFault::Syntax { at: 6 }),
    ("2 z1", TextFault::Syntax { at: 2 }),
    (
        "abcdefghijklmnopqrstuvwxyzabcdefg",
        TextFault::UnknownName { at: 0 },
    ),
];

#[test]
fn texts_have_their_first_fault(rt: HostRuntime) -> Result<(), Fail> {
    let numbers = Numbers::empty(rt.alloc());
    for (text, fault) in FAULTS {
        assert_eq!(rt;
            fault_of(&rt, rt.alloc(), text, 2, &numbers),
            Err(fault),
            "at {text}"
        );
    }
    let unread = read_poly(rt.alloc(), "1/0", 2, &numbers);
    assert!(rt; matches!(unread, Err(Unread::Fault)));
    Ok(())
}

const VARIABLE_TEXTS: [(&str, u8, Result<usize, TextFault>); 5] = [
    ("z1 + z9 + z10 + z12", 12, Ok(4)),
    ("z12", 11, Err(TextFault::UnknownName { at: 0 })),
    ("z13", 12, Err(TextFault::UnknownName { at: 0 })),
    ("z010", 12, Err(TextFault::UnknownName { at: 0 })),
    ("1*z100", 12, Err(TextFault::UnknownName { at: 2 })),
];

#[test]
fn variables_are_known_up_to_the_last_one(rt: HostRuntime) -> Result<(), Fail> {
    let numbers = Numbers::empty(rt.alloc());
    for (text, n, answer) in VARIABLE_TEXTS {
        assert_eq!(rt;
            fault_of(&rt, rt.alloc(), text, n, &numbers),
            answer,
            "at {text}"
        );
    }
    Ok(())
}

#[test]
fn a_value_has_few_terms(rt: HostRuntime) -> Result<(), Fail> {
    let numbers = Numbers::empty(rt.alloc());
    let text = "(z1+z2+z3+z4+z5+z6+z7+z8+z9+1)^8";
    match parse_poly(rt.alloc(), text, 9, &numbers) {
        Ok(_) => assert!(rt; false, "a value with too many terms"),
        Err(fault) => assert_eq!(rt; fault, TextFault::TermsOver { at: 30 }),
    }
    Ok(())
}

// The seventh power has 11,440 terms, none of which stands in that power times z1^8. The last sum has 20,000 terms
// before z8^20 is taken away, as many with z6^20, and one more at its end.
#[test]
fn a_sum_has_few_terms(rt: HostRuntime) -> Result<(), Fail> {
    let numbers = Numbers::empty(rt.alloc());
    let sums = [
        (
            "z1+(z1+z2+z3+z4+z5+z6+z7+z8+z9+1)^7-z1^8+(z1+z2+z3+z4+z5+z6+z7+z8+z9+1)^7-1",
            Ok(11441),
        ),
        (
            "z2^9-1+(z1+z2+z3+z4+z5+z6+z7+z8+z9+1)^7+z1^8*(z1+z2+z3+z4+z5+z6+z7+z8+z9+1)^7",
            Err(TextFault::TermsOver { at: 39 }),
        ),
        (
            "z1^8*(z1+z2+z3+z4+z5+z6+z7+z8+z9+1)^6+(z1+z2+z3+z4+z5+z6+z7+z8+z9+1)^7+z2^14*(z1+z2+z3+z4+z5+z6+z7+z8+z9+1)^5+z3^14*(z1+z2+z3+z4+z5+z6+z7+z8+z9+1)^4+z4^14*(z1+z2+z3+z4+z5+z6+z7+z8+z9+1)^4+z5^16*(z1+z2+z3+z4+z5+z6+z7+z8+z9+1)^2+z6^16*(z1+z2+z3+z4+z5+z6+z7+z8+z9+1)^2+z7^20*(z1+z2+z3+z4+z5+z6+z7+z8+z9+1)+z5^20+z8^20+z9^20-z8^20+z6^20+z6^19",
            Err(TextFault::TermsOver { at: 332 }),
        ),
    ];
    for (text, answer) in sums {
        assert_eq!(rt;
            fault_of(&rt, rt.alloc(), text, 9, &numbers),
            answer,
            "at {text}"
        );
    }
    Ok(())
}
