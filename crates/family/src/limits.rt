//! The limits of a family.

/// The greatest length of a family's name, in bytes.
pub const FAMILY_NAME_LIMIT: usize = 64;

/// The greatest number of zero sectors that are listed.
pub const SECTOR_LIMIT: usize = 512;

/// The greatest number of targets that are listed.
pub const TARGET_LIMIT: usize = 1000;

/// The least power of a target or a seed.
pub const LEAST_POWER: i16 = -30;

/// The greatest power of a target or a seed.
pub const GREATEST_POWER: i16 = 30;

/// The greatest number of sectors that have caps of their own.
pub const SECTOR_CAPS_LIMIT: usize = 4096;

/// The greatest number of permutations that are listed.
pub const SYMMETRY_LIMIT: usize = 64;

/// The greatest cap of dots or of rank.
pub const CAP_LIMIT: u32 = 20;

/// The greatest number of extra dots or of extra rank.
pub const EXTRA_LIMIT: u32 = 5;

/// The greatest budget of pairs.
pub const PAIR_LIMIT: u32 = 10_000_000;

/// The greatest budget of candidates.
pub const CANDIDATE_LIMIT: u32 = 20_000;
