//! The examples of the crates of the bench, of its searches and of their texts.
#![tactic(auto)]

#[cfg(test)]
mod tests;
