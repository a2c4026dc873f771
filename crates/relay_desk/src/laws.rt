//! The law of the limits, the contract of a call that does nothing.
ghost use Rattle.std.specs.Prelude.{◌≡◌};
ghost use Rattle.relay_desk.specs.declared.limits.TheConstants.{WORKERS};

/// The limit: how many workers a desk has at most.
pub fn limits()
    ensures workers { WORKERS ≡ 64 }
{}
