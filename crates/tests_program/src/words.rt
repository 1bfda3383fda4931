//! Words of each kind, read from a line.

use jet_base::{Given, Octets};
use script_words::arity::{first_word, no_more, optional_word, takes_word, three_words};
use script_words::numbers::{label, number_within, signed_number};
use script_words::texts::{given, hex_bytes, name};
use script_words::{Parts, Refusal};
use std::test::*;

#[test]
fn words_are_taken_in_turn(rt: HostRuntime) -> Result<(), Fail> {
    let mut words = Parts::of(b"new a b c lazy", b' ');
    assert!(rt; takes_word(&mut words, b"new"));
    assert!(rt; !takes_word(&mut words, b"new"));
    assert!(rt; first_word(&mut words) == Ok(b"a".as_slice()));
    let mut last = words.copy();
    assert!(rt; first_word(&mut last).is_ok() && first_word(&mut last).is_ok());
    assert!(rt;
        three_words(&mut words) == Ok((b"b".as_slice(), b"c".as_slice(), b"lazy".as_slice()))
    );
    assert!(rt; no_more(&words) == Ok(()));
    assert!(rt; optional_word(&mut last, b"lazy") == Ok(true));
    Ok(())
}

#[test]
fn numbers_stay_in_their_range(rt: HostRuntime) {
    assert!(rt; label(b"99") == Ok(99));
    assert!(rt; label(b"0") == Err(Refusal::Bad));
    assert!(rt; number_within(0, 65535, b"65535") == Ok(65535));
    assert!(rt; number_within(0, 65535, b"065") == Err(Refusal::Bad));
    assert!(rt; signed_number(1 << 63, b"-9223372036854775808") == Ok(i64::MIN));
    assert!(rt; signed_number(1 << 63, b"9223372036854775808") == Err(Refusal::Bad));
}

#[test]
fn values_are_read_in_each_form(rt: HostRuntime) -> Result<(), Fail> {
    let bob = Octets::from_slice(rt.alloc(), b"bob")?;
    assert!(rt; given(rt.alloc(), b"null") == Ok(Given::Null));
    assert!(rt; given(rt.alloc(), b"n:-0") == Ok(Given::Number(0)));
    assert!(rt; given(rt.alloc(), b"x:626F62") == Ok(Given::Bytes(bob)));
    assert!(rt; given(rt.alloc(), b"r:2097152:fF") == Ok(Given::Fill(2_097_152, 255)));
    assert!(rt; given(rt.alloc(), b"t:a b") == Err(Refusal::Bad));
    assert!(rt; name(rt.alloc(), b"a_1").is_ok());
    assert!(rt; name(rt.alloc(), b"1a").is_err());
    assert!(rt; hex_bytes(rt.alloc(), b"7f8").is_err());
    Ok(())
}
