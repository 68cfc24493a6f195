//! One client's session: its script carried out line by line on a database, and the text of its
//! answers.
//!
//! [`Session::run`] carries out every line, and [`Session::step`] one; [`Session::waits_for`] tells
//! what the next line waits for. The text kept is that of replies that the definitions of
//! `client_script` allow (`specs/Session.antt` there), in the history that the client's pass has
//! seen.
#![tactic(auto)]

mod any_snapshot;
mod asked;
mod clients;
mod named;
mod open;
mod refusal;
mod reply;
mod requests;
mod run;
mod session;
mod session_state;
mod stepped;
mod transcript;
mod waits_for;
mod watching;

pub use clients::Clients;
pub use session::Session;
pub use stepped::Stepped;
pub use waits_for::WaitsFor;
