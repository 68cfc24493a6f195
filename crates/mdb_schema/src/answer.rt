//! The answer to a question.
use crate::rows::Rows;
use mdb_datum::Row;

/// What a question is answered: `First`, `Last` and `Longest` by one row at most, the others by a
/// list.
#[derive(Drop)]
pub enum Answer {
    /// One row, or none.
    One(Option<Row>),
    /// The rows, in the order asked for.
    Many(Rows),
}
