//! The lines that tell what is found first of an image, with ample memory.

use engine_image::Finding;
use image_contents::ValueFault;
use jet_base::{Name, Octets};
use std::alloc::Global;
use std::process::Abort;
use std::test::*;
use tool_integrity::{clean_line, finding_line};

fn name(rt: &impl Abort, alloc: Global, text: &str) -> Name {
    Name::new(alloc, text).expect(rt, "memory")
}

fn bytes(rt: &impl Abort, alloc: Global, bytes: &[u8]) -> Octets {
    Octets::from_slice(alloc, bytes).expect(rt, "memory")
}

fn assert_told(rt: &impl Abort, alloc: Global, finding: &Finding, line: &str) {
    let told = finding_line(alloc, finding).expect(rt, "memory");
    assert!(rt; told.as_slice() == line.as_bytes(), "{line}");
}

#[test]
fn findings_without_a_table_have_their_lines(rt: HostRuntime) {
    let alloc = rt.alloc();
    let value = ValueFault {
        entry: 6,
        place: 0,
        have: 3,
        wanted: 2,
    };
    assert_told(&rt, alloc, &Finding::Pages(17), "integrity pages 17\n");
    assert_told(
        &rt,
        alloc,
        &Finding::Tree(3, 12),
        "integrity tree 3 page 12\n",
    );
    assert_told(&rt, alloc, &Finding::Catalog, "integrity catalog\n");
    assert_told(&rt, alloc, &Finding::Live, "integrity live\n");
    assert_told(
        &rt,
        alloc,
        &Finding::Long(value),
        "integrity long 6 0 have 3 want 2\n",
    );
}

fn row(rt: &impl Abort, alloc: Global) -> Finding {
    Finding::Row {
        table: name(rt, alloc, "t"),
        bookmark: bytes(rt, alloc, &[0, 0, 0, 0, 0, 0, 0, 26]),
    }
}

fn entry(rt: &impl Abort, alloc: Global, is_stored: bool) -> Finding {
    Finding::Index {
        table: name(rt, alloc, "t"),
        index: name(rt, alloc, "by_number"),
        key: bytes(rt, alloc, &[127, 128, 0, 0, 5, 0, 171]),
        is_stored,
    }
}

fn key(rt: &impl Abort, alloc: Global) -> Finding {
    Finding::Unique {
        table: name(rt, alloc, "t"),
        index: name(rt, alloc, "by_number"),
        key: bytes(rt, alloc, &[127, 128, 0, 0, 5]),
    }
}

#[test]
fn findings_of_a_table_have_their_lines(rt: HostRuntime) {
    let alloc = rt.alloc();
    let missing = "integrity index t by_number 7f8000000500ab have 0 want 1\n";
    let unwanted = "integrity index t by_number 7f8000000500ab have 1 want 0\n";
    assert_told(
        &rt,
        alloc,
        &row(&rt, alloc),
        "integrity row t 000000000000001a\n",
    );
    assert_told(&rt, alloc, &entry(&rt, alloc, false), missing);
    assert_told(&rt, alloc, &entry(&rt, alloc, true), unwanted);
    assert_told(
        &rt,
        alloc,
        &key(&rt, alloc),
        "integrity unique t by_number 7f80000005\n",
    );
}

#[test]
fn a_consistent_image_has_its_line(rt: HostRuntime) {
    let told = clean_line(rt.alloc(), 2_089, 1).expect(&rt, "memory");
    assert!(&rt; told.as_slice() == b"integrity clean number 2089 tables 1\n".as_slice());
}
