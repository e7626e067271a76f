//! The tests, by what they ask.
mod numbers;
mod starts;
