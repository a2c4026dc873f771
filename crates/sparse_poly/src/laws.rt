//! Laws of the limits.

ghost use Rattle.std.specs.Prelude.{◌≡◌};
ghost use Rattle.sparse_poly.specs.declared.limits.TheConstants.{DEGREE_LIMIT, TERM_LIMIT};

/// A polynomial of a file has total degree at most 24 and at most 20,000 terms.
pub fn limits_of_polynomials()
    ensures degree { DEGREE_LIMIT ≡ 24 }
    ensures terms { TERM_LIMIT ≡ 20000 }
{}
