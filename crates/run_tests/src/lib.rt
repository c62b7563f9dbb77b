//! The tests of `bpf_run`.
#![tactic(auto)]

#[cfg(test)]
mod tests;
