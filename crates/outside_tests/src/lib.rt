//! Tests of arrivals, the queue and the reference run over real sources.
#![tactic(auto)]

#[cfg(test)]
mod fixtures;
#[cfg(test)]
mod queue;
#[cfg(test)]
mod rows;
#[cfg(test)]
mod runs;
