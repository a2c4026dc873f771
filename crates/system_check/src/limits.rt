// Limits.

/// The greatest number of bytes of a text that is checked.
pub const TEXT_LIMIT: usize = 67_108_864;
