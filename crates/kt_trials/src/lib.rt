//! Trials of the crates that run accepted programs. The programs are given as texts, and there is nothing here but tests.
#![tactic(auto)]

#[cfg(test)]
mod bodies;
#[cfg(test)]
mod cores;
#[cfg(test)]
mod driven;
#[cfg(test)]
mod jobs;
#[cfg(test)]
mod loops;
#[cfg(test)]
mod runs;
#[cfg(test)]
mod stores;
