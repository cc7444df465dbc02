//! Tests of the calls that take a program, each over the program of a source's text.
#![tactic(auto)]

#[cfg(test)]
mod conditions;
#[cfg(test)]
mod events;
#[cfg(test)]
mod grammar;
#[cfg(test)]
mod names;
#[cfg(test)]
mod places;
#[cfg(test)]
mod readers;
#[cfg(test)]
mod running;
#[cfg(test)]
mod sources;
#[cfg(test)]
mod tasks;
