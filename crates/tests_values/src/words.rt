//! Names, byte strings, lists and the types of columns.

use jet_base::{ColType, Items, Name, Octets};
use std::alloc::Global;
use std::process::Abort;
use std::test::*;

fn name(rt: &impl Abort, alloc: Global, text: &str) -> Name {
    Name::new(alloc, text).expect(rt, "memory")
}

#[test]
fn names_are_made_and_copied(rt: HostRuntime) {
    let name = name(&rt, rt.alloc(), "load");
    assert!(&rt; name.as_bytes() == b"load".as_slice());
    assert!(&rt; name.copy().expect(&rt, "memory") == name);
    assert!(&rt; name.clone().expect(&rt, "memory") == name);
}

#[test]
fn names_are_compared(rt: HostRuntime) {
    let small = name(&rt, rt.alloc(), "load");
    let large = name(&rt, rt.alloc(), "Load");
    assert!(&rt; small != large && large < small);
}

fn octets(rt: &impl Abort, alloc: Global, bytes: &[u8]) -> Octets {
    Octets::from_slice(alloc, bytes).expect(rt, "memory")
}

#[test]
fn byte_strings_are_made_and_copied(rt: HostRuntime) {
    let octets = octets(&rt, rt.alloc(), &[0, 255]);
    assert!(&rt; octets.as_bytes() == [0, 255].as_slice());
    assert!(&rt; octets.copy().expect(&rt, "memory") == octets);
    assert!(&rt; octets.clone().expect(&rt, "memory") == octets);
    assert!(&rt; Octets::empty(rt.alloc()) < octets);
}

#[test]
fn byte_strings_are_those_of_a_vector(rt: HostRuntime) {
    let bytes = [0, 255].to_vec(rt.alloc()).expect(&rt, "memory");
    let taken = Octets::new(bytes).expect(&rt, "memory");
    assert!(&rt; taken == octets(&rt, rt.alloc(), &[0, 255]));
}

fn two_names(rt: &impl Abort, alloc: Global) -> Vec<Name> {
    let mut names = Vec::new(alloc);
    names.push(name(rt, alloc, "id")).expect(rt, "memory");
    names.push(name(rt, alloc, "name")).expect(rt, "memory");
    names
}

#[test]
fn lists_grow(rt: HostRuntime) {
    let mut names = Items::empty(rt.alloc());
    names
        .push(name(&rt, rt.alloc(), "id"))
        .expect(&rt, "memory");
    names
        .push(name(&rt, rt.alloc(), "name"))
        .expect(&rt, "memory");
    assert!(&rt; names.as_slice().len() == 2);
    assert!(&rt; Items::new(two_names(&rt, rt.alloc())) == names);
}

#[test]
fn lists_are_copied(rt: HostRuntime) {
    let names = Items::new(two_names(&rt, rt.alloc()));
    assert!(&rt; names.copy().expect(&rt, "memory") == names);
    assert!(&rt; names.clone().expect(&rt, "memory") == names);
}

#[test]
fn long_and_variable_types_are_told(rt: HostRuntime) {
    assert!(&rt; ColType::LongText.is_long() && !ColType::Text.is_long());
    assert!(&rt; ColType::Text.is_variable() && !ColType::LongText.is_variable());
    assert!(&rt; !ColType::Guid.is_long() && !ColType::Guid.is_variable());
}
