//! Rows, arguments and keys are worked from the table of the key forms, and UUIDs are those of
//! RFC 9562.

mod args;
mod made;
mod rows;
pub mod told;
mod worked;
