//! Tests of the tables, by their public calls alone.
#![tactic(auto)]

#[cfg(test)]
mod tests;
