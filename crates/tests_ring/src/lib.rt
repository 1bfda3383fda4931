//! Tests of the log file: appends that are cut short at each call, what a crash leaves of them, and hostile bytes.
#![tactic(auto)]

#[cfg(test)]
mod blocks;
#[cfg(test)]
mod counting;
#[cfg(test)]
mod crashes;
#[cfg(test)]
mod hostile;
#[cfg(test)]
mod reopening;
