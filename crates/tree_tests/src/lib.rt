//! Tests of cells, of the trees and of what writes, walks and fires them, by public calls alone.
#![tactic(auto)]

#[cfg(test)]
mod cells;
#[cfg(test)]
mod ending;
#[cfg(test)]
mod firings;
#[cfg(test)]
mod nodes;
#[cfg(test)]
mod txns;
#[cfg(test)]
mod walks;
