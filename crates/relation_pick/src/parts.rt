//! How work is split among threads.

ghost use Rattle.std.specs.Prelude.{◌≤◌, ◌<◌};

/// The greatest number of parts that work is split into.
pub const PARTS: u32 = 64;

/// How many elements a piece has, where so many are cut into at most this number of consecutive pieces.
pub fn piece_size(count: usize, parts: u32) -> usize
    requires { 1 ≤ parts }
    ensures { 0 < result }
{
    count.div_ceil(parts as usize).max(1)
}

/// One piece after another, in the thread that asks.
#[derive(Clone, Copy)]
pub struct InTurn;

/// So many pieces at once, each in a thread of its own where one can be made.
#[derive(Drop)]
pub struct AtOnce<'a, R> {
    /// By which threads are made.
    pub rt: &'a R,
    /// How many pieces there are at most; 0 counts as 1.
    pub parts: u32,
}
