//! The examples of the crates from the search to commands.
#![tactic(auto)]

#[cfg(test)]
mod tests;
