//! Properties of the program that no contract states. This crate has only tests: a crate that has tests is proved once
//! more together with them.
#![tactic(auto)]

#[cfg(test)]
mod tests;
