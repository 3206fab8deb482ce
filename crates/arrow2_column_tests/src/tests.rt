//! The items of the crate at their paths, arrays of numbers and of texts, and the kernels over them.
mod checks;
mod comparisons;
mod facade;
mod items;
mod kernels;
mod number_kernels;
mod numbers;
mod texts;
