//! What the catalog, the trees and the held changes of tables with versions keep of one another, so that every variant of a record
//! is stored: the definitions, and lemmas for the proofs of the crates that change these parts and read them. There is no code.
#![tactic(auto)]
