//! Tests of cursors, catalogs, a session's own state and the engine with the bytes of its log entries: of what no clause says
//! and no script shows.
#![tactic(auto)]

#[cfg(test)]
mod catalogs;
#[cfg(test)]
mod cursors;
#[cfg(test)]
mod first_entries;
#[cfg(test)]
mod sending;
#[cfg(test)]
mod sessions;
