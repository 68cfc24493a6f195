//! The check of an output: whether a text is one history of clients with these scripts, whoever wrote
//! it.
//!
//! [`check_output`] answers [`Verdict::Legal`] exactly where the definition of legal output holds, and
//! else the number of the first bad line (`specs/FirstBad.antt`). The text is read once, to slices of
//! itself. The history that it prints is kept as the versions of each full key, in a sorted map for
//! each index; what a client was told is compared with what these give, and no state is made anew for
//! a reply.
//!
//! It takes time in proportion to the text, the scripts, and the keys that questions look at, with a
//! logarithm; and memory in proportion to text and scripts.
#![tactic(auto)]

mod answer;
mod bad;
mod behind;
mod called;
mod changes;
mod check;
mod client;
mod commits;
mod cut;
mod decimal;
mod edit;
mod form;
mod history;
mod index;
mod keys;
pub mod laws;
mod lookup;
mod member;
mod mode;
mod names;
mod output;
mod place;
mod reply;
mod same;
mod session;
mod shape;
mod sight;
mod slot;
mod slots;
mod stop;
mod store;
mod verdict;
mod watching;

pub use check::check_output;
pub use output::{Output, read_output};
pub use stop::Stop;
pub use verdict::Verdict;
