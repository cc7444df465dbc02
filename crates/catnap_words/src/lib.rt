//! The words that the program is called with, and what they ask for.
#![tactic(auto)]

mod form;
mod number;
mod words;

pub use form::Form;
pub use words::{form_in, names_in};

#[cfg(test)]
mod tests;
