//! Worked calls on vectors of modules, their divisions and their runs. It has tests alone.
#![tactic(auto)]

#[cfg(test)]
mod divisions;
#[cfg(test)]
mod pairs;
#[cfg(test)]
mod runs;
#[cfg(test)]
mod shared;
#[cfg(test)]
mod vectors;
