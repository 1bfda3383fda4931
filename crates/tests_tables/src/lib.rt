//! Tests of the trees of all tables, of the catalog's nodes and their tree, and of rows with long values under the changes of
//! several sessions, beside a plain model that counts what refers to each value.
#![tactic(auto)]

#[cfg(test)]
mod calls;
#[cfg(test)]
mod comparing;
#[cfg(test)]
mod drawn;
#[cfg(test)]
mod long_values;
#[cfg(test)]
mod model;
#[cfg(test)]
mod nodes;
#[cfg(test)]
mod sessions;
#[cfg(test)]
mod steps;
#[cfg(test)]
mod tables;
#[cfg(test)]
mod tree;
#[cfg(test)]
mod values;
