//! The tests of `bench_core`, `bench_shared`, `bench_workers`, `bench_engine` and `bench_stress`.
#![tactic(auto)]

#[cfg(test)]
mod tests;
