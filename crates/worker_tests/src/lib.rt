//! Tests of workers that run at the same time, and of the line that tells how far they have come.
#![tactic(auto)]

#[cfg(test)]
mod tests;
