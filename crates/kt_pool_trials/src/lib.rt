//! Trials of the calls on the table of a run, all on one thread. The programs are given as texts, and there is nothing here but tests.
#![tactic(auto)]

#[cfg(test)]
mod crowds;
#[cfg(test)]
mod driven;
#[cfg(test)]
mod entries;
#[cfg(test)]
mod loop_rows;
#[cfg(test)]
mod looping;
#[cfg(test)]
mod loops;
#[cfg(test)]
mod recorders;
#[cfg(test)]
mod rows;
#[cfg(test)]
mod scenes;
mod stages;
#[cfg(test)]
mod watching;
