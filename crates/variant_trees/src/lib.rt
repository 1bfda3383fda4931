//! What changes the trees of tables with versions: a put brings a record with its keys, an undo and a forgotten change take away
//! what no variant has any more, a sum is made in its row, and schema steps bring and take tables, indexes and columns. The
//! catalog, the trees and the held changes come as parts.
#![tactic(auto)]

mod derived;
mod filling;
mod forgetting;
mod gone;
mod keys;
mod new_entries;
mod nodes;
mod putting;
mod rewriting;
mod schema;
mod sums;
mod undoing;
mod variants;

pub use filling::create_index;
pub use forgetting::forget_oldest;
pub use nodes::{in_place, own_entry, row_in_node};
pub use putting::put_record;
pub use rewriting::drop_column;
pub use schema::{add_column, create_table, drop_index, drop_table};
pub use sums::add_sum;
pub use undoing::put_back;
