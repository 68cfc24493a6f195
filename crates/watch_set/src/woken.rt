//! What wakes a wait.

/// Which watch of a set has fired, as a check found it after so many commits.
#[derive(Clone, Copy, Debug, PartialEq, Eq)]
pub enum Woken {
    /// The member at this place, counted from 0.
    Fired { place: usize, at: u64 },
    /// The watch that cancels the wait.
    Stopped { at: u64 },
}
