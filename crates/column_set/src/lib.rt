//! Columns, records and the changes that are made to records; rows, written, read, made of the bytes of others and changed in
//! place.
#![tactic(auto)]

mod changes;
mod checking;
mod columns;
mod decoding;
mod encoding;
mod encoding_records;
mod field_list;
mod fields;
mod fitting;
mod indexed;
mod numbers;
mod reading;
mod records;
mod row_fault;
pub mod row_format;
mod row_ref;
mod rows;
mod values;
mod without_column;

pub use changes::{Bookmark, Change};
pub use checking::is_row;
pub use columns::{Column, Columns, column_named, column_of_id, has_number};
pub use decoding::decode;
pub use encoding::{encode, put_apart, put_here};
pub use encoding_records::{encode_record, is_all_here, values_here_are_the_record};
pub use fields::{Field, count_of_values, size_of_length, size_of_values};
pub use fitting::record_fits;
pub use numbers::{add_to_number, rows_with_another_value};
pub use reading::{u16_at, u32_at};
pub use records::Record;
pub use row_fault::RowFault;
pub use row_format::MAX_ROW_SIZE;
pub use row_ref::{
    RowRef, other_bytes_are_read_as_no_value, rows_are_read_back, rows_have_one_spelling,
};
pub use rows::{Row, RowValue, size_of_a_row};
pub use values::Values;
pub use without_column::{append, rows_without_a_column, write_without_column};
