//! The tests, by what they ask.
mod accesses;
mod guests;
mod stops;
