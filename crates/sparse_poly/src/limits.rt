//! The limits on a polynomial of a file.

/// The greatest total degree of a polynomial of a file.
pub const DEGREE_LIMIT: u16 = 24;

/// The greatest number of terms of a polynomial of a file.
pub const TERM_LIMIT: usize = 20_000;
