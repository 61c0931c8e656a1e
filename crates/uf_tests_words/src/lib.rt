//! Rows of words that are read as commands.
#![tactic(auto)]

#[cfg(test)]
mod words_tests;
