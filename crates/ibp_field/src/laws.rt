//! Laws of residues. Each function has an empty body.
ghost use Rattle.std.specs.Prelude.{◌≡◌};
ghost use Rattle.ibp_field.specs.declared.TheConstants.{PRIME};

/// The modulus is 2^31 - 1.
pub fn limits()
    ensures { PRIME ≡ 2147483647 }
{}
