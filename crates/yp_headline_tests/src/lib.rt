//! Whole runs over memory of which the headline is told.
#![tactic(auto)]

#[cfg(test)]
mod told;
