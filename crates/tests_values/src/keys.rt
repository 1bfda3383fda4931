//! Keys of a type that no script has a column of.

use jet_base::ColType;
use key_normal::{Key, KeyMaker, Part, order_of_whole_keys};

#[test]
fn letters_of_a_long_text_have_no_case(rt: HostRuntime) {
    let mut maker = KeyMaker::new(255);
    maker.add(Part {
        kind: ColType::LongText,
        value: Some(b"abc"),
        descending: false,
        nulls_high: false,
    });
    let (key, lost) = maker.done();
    assert!(rt; key.as_bytes() == b"\x7fABC\0\0\0\0\0\x03".as_slice());
    assert!(rt; !lost);
    order_of_whole_keys();
}

#[test]
fn a_key_is_made_another(rt: HostRuntime) {
    let mut key = Key::from_slice(b"abc");
    key.set(b"de");
    assert!(rt; key.as_bytes() == b"de".as_slice());
}
