//! Worked calls on relays over the results of sectors. It has tests alone.
#![tactic(auto)]

#[cfg(test)]
mod ahead;
#[cfg(test)]
mod relays;
#[cfg(test)]
mod scripts;
