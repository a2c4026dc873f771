//! Worked calls: what public calls of the lower crates answer on known values. It has tests alone.
#![tactic(auto)]

#[cfg(test)]
mod lists;
#[cfg(test)]
mod monomials;
#[cfg(test)]
mod outside;
#[cfg(test)]
mod polynomials;
#[cfg(test)]
mod residues;
#[cfg(test)]
mod rows;
#[cfg(test)]
mod sectors;
#[cfg(test)]
mod shared;
#[cfg(test)]
mod texts;
