//! Tests of what threads share: the word that counts the one log, with sessions that append under a lock.
#![tactic(auto)]

#[cfg(test)]
mod log;
#[cfg(test)]
mod member;
#[cfg(test)]
mod naming;
#[cfg(test)]
mod run;
#[cfg(test)]
mod store;
#[cfg(test)]
mod tests;
