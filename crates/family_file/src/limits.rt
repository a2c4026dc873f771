//! The limits of a family file.

/// The greatest length of a file, in bytes.
pub const MAX_FILE: usize = 1_048_576;

/// The greatest number of loops.
pub const LOOP_LIMIT: u32 = 3;

/// The greatest number of independent external momenta.
pub const LEG_LIMIT: u32 = 11;

/// The greatest number of independent external momenta in a file of version 1.
pub const VERSION_1_LEG_LIMIT: u32 = 8;

/// The greatest number of variables in a file of version 1.
pub const VERSION_1_VARIABLE_LIMIT: u32 = 9;

/// The greatest number of numbers that have names.
pub const NUMBER_LIMIT: usize = 64;

/// The greatest number of a drill.
pub const DRILL_LIMIT: u32 = 9999;
