//! Values in columns of types that no script has.

use jet_base::{ColType, Given, Octets};
use record_edit::{fits, fixed_width, stored_front, width_fits};
use std::test::*;

#[test]
fn bytes_of_any_number_fit_a_long_text(rt: HostRuntime) {
    let one = Given::Bytes(Octets::from_slice(rt.alloc(), b"\x80").expect(&rt, "memory"));
    assert!(&rt; fits(ColType::LongText, &one));
    assert!(&rt; stored_front(ColType::LongText, &one).as_slice() == b"\x80".as_slice());
}

#[test]
fn the_first_255_bytes_of_a_long_value_are_stored(rt: HostRuntime) {
    let long = Given::Fill(2_097_152, 7);
    assert!(rt; fits(ColType::LongBinary, &long));
    assert!(rt; stored_front(ColType::LongBinary, &long).as_slice() == [7; 255].as_slice());
}

#[test]
fn some_types_have_one_width(rt: HostRuntime) {
    assert!(rt; width_fits(ColType::Guid, 16));
    assert!(rt; fixed_width(ColType::Currency) == Some(8));
    assert!(rt; fixed_width(ColType::LongText).is_none());
}
