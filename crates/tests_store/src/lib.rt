//! Tests of checkpoints and of stores over volumes in memory: written, cut short at each call, crashed, and opened again.
#![tactic(auto)]

#[cfg(test)]
mod checkpoint_reopening;
#[cfg(test)]
mod checkpoints;
mod images;
#[cfg(test)]
mod kept_logs;
#[cfg(test)]
mod lent;
#[cfg(test)]
mod readings;
#[cfg(test)]
mod reopening;
#[cfg(test)]
mod rounds;
#[cfg(test)]
mod stops;
#[cfg(test)]
mod stores;

pub use images::image_of;
