//! What no command shows of steps, deliveries and guests, by public calls, against values from elsewhere: those worked out by hand or by
//! another program. Steps and their states, runs and scripts are shown by rows.
//!
//! Stands on `cpu_step`, `image_step`, `guest_gen` and `parts_of_tests`; nothing stands on it.
#![tactic(auto)]

#[cfg(test)]
mod tests;
