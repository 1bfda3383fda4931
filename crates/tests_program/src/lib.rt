//! Tests of the program and of its script: what no clause says and no script can show.
#![tactic(auto)]

#[cfg(test)]
mod calls;
#[cfg(test)]
mod crashes;
#[cfg(test)]
mod inspections;
#[cfg(test)]
mod processes;
#[cfg(test)]
mod scripts;
#[cfg(test)]
mod texts;
#[cfg(test)]
mod transcripts;
#[cfg(test)]
mod volumes;
#[cfg(test)]
mod words;
