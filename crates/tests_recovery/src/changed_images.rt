//! Images of which one byte is changed: each is refused for what is found first, or it shows the same state, or another one.

use crate::files::{Node, checked, page};
use crate::outcomes::LIMIT;
use checkpoint::Image;
use engine_core::Engine;
use engine_image::{Finding, ImageFault, from_image};
use image_writing::image;
use page_image::Page;
use std::alloc::Global;
use std::process::Abort;
use std::test::*;

/// The pages of the image: the records, the long values and the two indexes of the first table, the records and the long values of the
/// second one, and the catalog.
static PAGES: &[&[Node]] = &[
    &[
        (
            b"\x7f\x80\0\0\x02",
            b"\x04\0\x01\0\0\x04\0\x02\0\0\0\x02\0\0\x04\0\0\0\0\0\x80\0\0\x03\0rob\0\x01\0\x01\0a",
        ),
        (
            b"\x7f\x80\0\0\x05",
            b"\x04\0\x01\0\0\x04\0\x05\0\0\0\x02\0\0\x04\0\0\0\0\0\x80\0\0\x03\0eve\0\x01\0\x01\0a",
        ),
    ],
    &[],
    &[
        (b"\x7fBOB\0\0\0\0\0\x03\x7f\x80\0\0\x02", b"\x0a\0"),
        (b"\x7fEVE\0\0\0\0\0\x03\x7f\x80\0\0\x05", b"\x0a\0"),
        (b"\x7fROB\0\0\0\0\0\x03\x7f\x80\0\0\x02", b"\x0a\0"),
    ],
    &[
        (b"\x7fA\0\0\0\0\0\0\0\x01\x7f\x80\0\0\x02", b"\x0a\0"),
        (b"\x7fA\0\0\0\0\0\0\0\x01\x7f\x80\0\0\x05", b"\x0a\0"),
    ],
    &[(b"\0\0\0\0\0\0\0\x10", b"\x01\0\x01\0\0\x04\0\x07\0\0\0")],
    &[],
    &[
        (b"\0\0\0\0\0\0\0", b"\x02\0\0\0"),
        (
            b"\x01\0\0\0\x01\0\0",
            b"\0\0\0\0\x01\0\0\0\x02\0\x80\0\0\x01\x01T",
        ),
        (
            b"\x01\0\0\0\x02\0\0",
            b"\x04\0\0\0\x05\0\0\0\x01\0\x7f\0\xff\0\x01U",
        ),
        (b"\x02\0\0\0\x01\0\x01", b"\x05\0\x02id"),
        (b"\x02\0\0\0\x01\0\x02", b"\x05\x08\x03sum"),
        (b"\x02\0\0\0\x01\0\x80", b"\x0b\x04\x04name"),
        (b"\x02\0\0\0\x01\x01\0", b"\x0b\x03\x03tag"),
        (b"\x02\0\0\0\x02\0\x01", b"\x05\0\x01x"),
        (
            b"\x03\0\0\0\x01\0\x01",
            b"\0\0\0\0\x01\0\0\0\x01\0\x01\x01\0\0\0\x02pk",
        ),
        (
            b"\x03\0\0\0\x01\0\x02",
            b"\x02\0\0\0\x02\0\0\0\x02\0\x01\x80\0\0\0\x07by_name",
        ),
        (
            b"\x03\0\0\0\x01\0\x03",
            b"\x03\0\0\0\x03\0\0\0\x04\0\x01\0\x01\0\0\x06by_tag",
        ),
    ],
];

/// The live part of the image.
static LIVE: &[u8] =
    b"\x02\0\0\0\x01\0\0\0\x01\0\0\0\x01\0\0\0\x02\x12\0\0\0\0\0\0\0\x02\0\0\0\0\0\0\0\x01\x15\0\0\0\0\0\0\0\x02\0\0\0\x14\0\0\0\0\0\0\0\x02\0\0\0\0\0\0\0\0\0\x17\0\0\0\x13\0\0\0\x07\x01\0\0\0\x01\0\0\0\x05\0\x7f\x80\0\0\x02\0\0\0\x01\"\0\x04\0\x01\0\0\x04\0\x02\0\0\0\x02\0\0\x04\0\0\0\0\0\x80\0\0\x03\0bob\0\x01\0\x01\0a\x16\0\0\0\0\0\0\0\x01\0\0\0\0\0\0\0\0\0\x17\0\0\0\x13\0\0\0\x07\x02\0\0\0\x01\0\0\0\x05\0\x7f\x80\0\0\x05\0\0\0\0";

/// What is found where a byte of a page has another lowest bit, from its number on up to the fourth byte behind its last node.
static FOUND: &[&[u8]] = &[
    b"nnnnnnnnnnnnnnnnnnnnnnnnnnnnnnRnnnRRRRRRRRRRRRRRRRR~~~~RRRRRIIIRRRRRInRnn==nRRRRRRRRRRRRRRRRRRRR~~~~RRRRRIIIRRRRRInnnn",
    b"nnnnnnGnnnnnnnnnnnnnnnnnnnnn",
    b"nnnnnnnnnnnnnnnnnnnnnnnnnnnnnnIIIIIIIIIIIIIIIIInnnnnnnIIIIIIIIIIIIIIIIIInnIInIIIIIIIIIIIIIIIInnnn",
    b"nnnnnnnnnnnnnnnnnnnnnnnnnnnnnnIInnnnnnnIInnnIIInInnIInnIIIIIIInnIIIIIInnnn",
    b"nnnnnnnnnnnnnnnnnnnnnnnnRRRnn=RRRRRRR~RRRRRRR~~~~nnnn",
    b"nnnnnnGnnnnnnnnnnnnnnnnnnnnn",
    b"nnnnnnnnnnnnnnnnnnnnnnnnnnnnnnCCCCCCC~~~~nnnnnnCnnnCCCPTTTPTTT~C~C~CCCnnnnnnnCCCCCCPTTTPTTTCCCCC~CCnnnnnnnnnnCnCLCC~~nnnnnnnnnnnnCCCC~~~nnnnnnnnnnnnCICC~~~~nnnnnnnnnnnnCICC~~~nnnnnnnCCCCCCRCC~nnnnnnnnnnCnC====~~~~P~CCCLCC~~nnnnnnnnnnnnnPTTTC~~~C~CCCICC~~~~~~~nCnnCCnCCCn~nPTTTC~~~C~CCCICC~~~~~~nnnn",
];

/// The same of the live part.
static FOUND_IN_LIVE: &[u8] =
    b"LLLLLLLLLLLLLLLL~~LLLLLLLLLLLLLLLL~LLLLLLLLLLL~LLLLLLLLLLLLLLLLLLLLLLLLLLLLLLLLLLLLLLLLLLLLLLLLLLLLLLLLLLLLLLL~~~~LLLLLIIILLLLLILLLLLLLLLLLLLLLLLLLLLLLLLLLLLLLLLLLLLRRRRRLLLL";

/// The bytes of a page of the image.
fn stored(rt: &impl Abort, alloc: Global, place: usize) -> Vec<u8> {
    assert!(rt; place < PAGES.len() && place < 100);
    page(rt, alloc, place as u32, 1, PAGES[place])
}

/// The image, with these bytes in the place of one page. There is none where they are no page.
fn image_with(
    rt: &impl Abort,
    alloc: Global,
    changed: usize,
    bytes: &[u8],
    live: &[u8],
) -> Option<Image> {
    let mut pages = Vec::new(alloc);
    for place in 0..PAGES.len() {
        let page = if place == changed {
            checked(bytes, place)
        } else {
            checked(stored(rt, alloc, place).as_slice(), place)
        };
        if page.is_none() {
            return None;
        }
        pages.push(page).expect(rt, "memory");
    }
    Some(Image {
        number: 22,
        pages,
        slots: vec![in alloc; 2; PAGES.len()].expect(rt, "memory"),
        catalog_root: 6,
        live: live.to_vec(alloc).expect(rt, "memory"),
    })
}

/// The letter of a finding.
fn letter(finding: &Finding) -> u8 {
    match finding {
        Finding::Pages(_) => b'P',
        Finding::Tree(_, _) => b'T',
        Finding::Catalog => b'C',
        Finding::Row { .. } => b'R',
        Finding::Live => b'L',
        Finding::Index { .. } => b'I',
        Finding::Unique { .. } => b'U',
        Finding::Long(_) => b'G',
    }
}

/// Whether two pages have the same keys with the same data.
fn has_same_nodes(page: &Page, other: &Page) -> bool {
    if page.len() != other.len() {
        return false;
    }
    for place in 0..page.len() {
        if page.key(place) != other.key(place) || page.data(place) != other.data(place) {
            return false;
        }
    }
    true
}

/// Whether two images tell the same of the pages at a place.
fn has_same_page(image: &Image, other: &Image, place: usize) -> bool {
    match (image.pages.get(place), other.pages.get(place)) {
        (Some(Some(page)), Some(Some(other))) => has_same_nodes(page, other),
        _ => false,
    }
}

/// Whether two images tell the same.
fn is_same(image: &Image, other: &Image) -> bool {
    for place in 0..PAGES.len() {
        if !has_same_page(image, other, place) {
            return false;
        }
    }
    image.number == other.number && image.live.as_slice() == other.live.as_slice()
}

/// The engine of an image, or the letter of what is found first of it: `n` where it has bytes in the place of a page that are none.
fn opened(alloc: Global, image: Option<Image>) -> Result<Engine, u8> {
    match image {
        Some(image) => if image.pages.len() < 100 {
            match from_image(alloc, LIMIT, image) {
                Ok(engine) => Ok(engine),
                Err(ImageFault::NotSound(finding)) => Err(letter(&finding)),
                Err(ImageFault::OutOfMemory) => Err(b'?'),
            }
        } else {
            Err(b'?')
        },
        None => Err(b'n'),
    }
}

/// The letter of what is found first of an image; `=` where its engine shows the same as another image, and `~` where it shows anything
/// else.
fn told(rt: &impl Abort, alloc: Global, changed: Option<Image>, whole: &Image) -> u8 {
    match opened(alloc, changed) {
        Ok(engine) => {
            let shown = image(alloc, &engine).expect(rt, "memory");
            if is_same(&shown, whole) { b'=' } else { b'~' }
        }
        Err(letter) => letter,
    }
}

/// What the engine of the image shows.
fn whole(rt: &impl Abort, alloc: Global) -> Image {
    let first = stored(rt, alloc, 0);
    let unchanged = image_with(rt, alloc, 0, first.as_slice(), LIVE);
    let engine = opened(alloc, unchanged).ok().expect(rt, "consistent");
    image(alloc, &engine).expect(rt, "memory")
}

/// What is told where one byte of a page is changed.
fn told_of_page(rt: &impl Abort, alloc: Global, whole: &Image, place: usize, at: usize) -> u8 {
    let mut bytes = stored(rt, alloc, place);
    if at < bytes.len() {
        bytes[at] ^= 1;
    }
    told(
        rt,
        alloc,
        image_with(rt, alloc, place, bytes.as_slice(), LIVE),
        whole,
    )
}

/// Compares what is found where each byte of a page is changed.
fn compare_page(rt: &impl Abort, alloc: Global, place: usize) {
    let whole = whole(rt, alloc);
    assert!(rt; place < FOUND.len());
    let wanted = FOUND[place];
    for at in 0..wanted.len() {
        let told = told_of_page(rt, alloc, &whole, place, 8 + at);
        assert!(rt; told == wanted[at], "{told} at {at} of {place}");
    }
}

#[test]
fn changed_bytes_of_rows_are_found(rt: HostRuntime) {
    compare_page(&rt, rt.alloc(), 0);
    compare_page(&rt, rt.alloc(), 4);
}

#[test]
fn changed_bytes_of_indexes_and_long_values_are_found(rt: HostRuntime) {
    compare_page(&rt, rt.alloc(), 1);
    compare_page(&rt, rt.alloc(), 2);
    compare_page(&rt, rt.alloc(), 3);
    compare_page(&rt, rt.alloc(), 5);
}

#[test]
fn changed_bytes_of_the_catalog_are_found(rt: HostRuntime) {
    compare_page(&rt, rt.alloc(), 6);
}

/// What is told where one byte of the live part is changed.
fn told_of_live(rt: &impl Abort, alloc: Global, whole: &Image, at: usize) -> u8 {
    let mut live = LIVE.to_vec(alloc).expect(rt, "memory");
    if at < live.len() {
        live[at] ^= 1;
    }
    let first = stored(rt, alloc, 0);
    let changed = image_with(rt, alloc, 0, first.as_slice(), live.as_slice());
    told(rt, alloc, changed, whole)
}

#[test]
fn changed_bytes_of_the_live_part_are_found(rt: HostRuntime) {
    let whole = whole(&rt, rt.alloc());
    for at in 0..LIVE.len() {
        let wanted = FOUND_IN_LIVE.get(at).copied();
        let told = told_of_live(&rt, rt.alloc(), &whole, at);
        assert!(&rt; Some(told) == wanted, "{told} at {at}");
    }
}
