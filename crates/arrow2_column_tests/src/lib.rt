//! Properties of `arrow2` that no contract states: that each item is at its path, that the examples of its docs run,
//! that calls of arrays and kernels succeed, which texts their errors have, and that kernels agree with plain loops at
//! many lengths. This crate has only tests: a crate that has tests is proved once more together with them.
#![tactic(auto)]

#[cfg(test)]
mod examples;
#[cfg(test)]
mod tests;
