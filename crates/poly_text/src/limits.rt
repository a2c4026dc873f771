//! The limits of the format.

/// The greatest length of a name, in bytes.
pub const NAME_LIMIT: usize = 32;

/// The greatest exponent that a power is written with.
pub const POWER_LIMIT: u128 = 20;

/// The greatest number of parentheses that are open at once.
pub const DEPTH_LIMIT: usize = 64;
