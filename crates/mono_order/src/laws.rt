//! Laws of monomials. Each function has an empty body.
ghost use Rattle.std.specs.Prelude.{◌≡◌};
ghost use Rattle.mono_order.specs.declared.limits.TheConstants.{VARIABLES, MONO_DEGREE, RUN_DEGREE, FIRST_HIGH};

/// The limits in numbers.
pub fn limits()
    ensures variables { VARIABLES ≡ 12 }
    ensures degree { MONO_DEGREE ≡ 1050 }
    ensures degree_of_a_run { RUN_DEGREE ≡ 1000 }
    ensures first_high { FIRST_HIGH ≡ 100 }
{}
