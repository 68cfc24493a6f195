//! Polls and futures of what callers wait for.

mod lists;
mod many;
mod tasks;
mod trials;
mod worked;
