//! Tests of the front that callers share, of the transactions, of the sets of watches, and of polls
//! and futures, by their public calls alone.
#![tactic(auto)]

#[cfg(test)]
mod front;
#[cfg(test)]
mod future_tasks;
#[cfg(test)]
mod txns;
