//! Tests of the parts of an image that are written and read, and of what is told of one, with ample memory.
#![tactic(auto)]

#[cfg(test)]
mod catalogs;
#[cfg(test)]
mod findings;
#[cfg(test)]
mod live_parts;
#[cfg(test)]
mod opened_trees;
#[cfg(test)]
mod sound_catalogs;
#[cfg(test)]
mod told;
