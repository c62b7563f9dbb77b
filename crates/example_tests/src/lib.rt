//! The examples of the crates from instructions to rules.
#![tactic(auto)]

#[cfg(test)]
mod tests;
