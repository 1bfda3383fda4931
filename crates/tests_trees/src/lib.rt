//! Tests of pages, trees, temporary tables, intersections and versions, and that their memory goes back to the heap.
#![tactic(auto)]

#[cfg(test)]
mod buckets;
#[cfg(test)]
mod indexes;
#[cfg(test)]
mod intersections;
#[cfg(test)]
mod long_values;
#[cfg(test)]
mod memory;
#[cfg(test)]
mod nodes;
#[cfg(test)]
mod pages;
#[cfg(test)]
mod sessions;
#[cfg(test)]
mod space;
#[cfg(test)]
mod temp_tables;
#[cfg(test)]
mod trees;
#[cfg(test)]
mod versions;
