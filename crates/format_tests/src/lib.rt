//! Tests of the documents, the keys, the schemas and the clients' scripts, by their public calls alone.
//! Most are tables of texts, each with what it is told as.
#![tactic(auto)]

#[cfg(test)]
mod documents;
#[cfg(test)]
mod keys;
#[cfg(test)]
mod schemas;
#[cfg(test)]
mod scripts;
#[cfg(test)]
mod tables;
