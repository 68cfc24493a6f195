//! What no clause of the loading and writing says: that each call can succeed, and worked examples.
mod clients;
mod files;
mod inputs;
mod named;
mod refusals;
mod texts;
mod writes;
