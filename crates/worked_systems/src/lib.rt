//! Worked calls on whole families: what public calls of several crates answer together. It has tests alone.
#![tactic(auto)]

#[cfg(test)]
mod bases;
#[cfg(test)]
mod candidates;
#[cfg(test)]
mod cuts;
#[cfg(test)]
mod families;
#[cfg(test)]
mod members;
#[cfg(test)]
mod polynomials;
#[cfg(test)]
mod shared;
#[cfg(test)]
mod statuses;
#[cfg(test)]
mod systems;
