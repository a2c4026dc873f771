/// The most workers that a desk has seats for.
pub const WORKERS: u32 = 64;
