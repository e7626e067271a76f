//! The tests, by what they ask.
mod instructions;
mod lengths;
mod opcode_rows;
mod operations;
mod states;
