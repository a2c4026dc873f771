//! Worked calls with several workers: the desk by hand, the main thread after them, workers at once, and parts at once.
//! It has tests alone.
#![tactic(auto)]

#[cfg(test)]
mod alone;
#[cfg(test)]
mod desks;
#[cfg(test)]
mod gates;
#[cfg(test)]
mod posts;
#[cfg(test)]
mod wide;
#[cfg(test)]
mod workers;
