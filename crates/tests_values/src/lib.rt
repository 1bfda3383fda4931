//! Tests of the values of records, of their rows and of the keys that indexes make of them: what no clause says.
#![tactic(auto)]

#[cfg(test)]
mod edits;
#[cfg(test)]
mod entries;
#[cfg(test)]
mod keys;
#[cfg(test)]
mod records;
#[cfg(test)]
mod rows;
#[cfg(test)]
mod schemas;
#[cfg(test)]
mod stored;
#[cfg(test)]
mod words;
