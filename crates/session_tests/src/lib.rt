//! Tests of the ports, the loading of files, the sessions, the check of outputs and the threads with large
//! stacks, by their public calls alone.
#![tactic(auto)]

#[cfg(test)]
mod checks;
#[cfg(test)]
mod loading;
#[cfg(test)]
mod ports;
#[cfg(test)]
mod sessions;
#[cfg(test)]
mod threads;
#[cfg(test)]
mod worked;
