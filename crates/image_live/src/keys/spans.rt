//! How long records have keys, and the order of such spans.

ghost use Rattle.std.specs.Prelude.{◌≡◌, ◌++◌, map, refl, IfOk};
ghost use Rattle.std.specs.Cmp.{partial_equiv_from_equiv};
ghost use Rattle.std.specs.Ordering.{as_partial_cmp};
ghost use Rattle.image_live.specs.KeySpans.{span_of};
ghost use Rattle.image_live.specs.SpanOrder.{AreInOrder, span_cmp, span_eq, span_equiv, span_partial, span_total};

use jet_base::OutOfMemory;
use key_normal::Key;
use std::alloc::Global;
use std::cmp::Ordering;
use std::marker::Model;

/// How long a record is as it is: from when so many held changes are made, up to when so many are, both included.
#[derive(Clone, Copy)]
pub(crate) struct Lifetime<'a> {
    pub bookmark: &'a [u8],
    pub begins: usize,
    pub ends: usize,
}

/// A key that a record has from when so many held changes are made, up to when so many are, both included.
///
/// Spans are ordered by key, then by when they end. Contracts see one as a `Span`.
#[derive(Drop)]
pub(crate) struct KeySpan<'a> {
    pub key: Vec<u8>,
    pub bookmark: &'a [u8],
    pub begins: usize,
    pub ends: usize,
}

impl<'a> Model for KeySpan<'a> {
    ghost use Rattle.image_live.specs.KeySpans.{Span};

    ghost Value = { Span };

    ghost view = { λ a. record { key = a.key.items; bookmark = a.bookmark.now; begins = a.begins; ends = a.ends } };
}

impl<'a> PartialEq for KeySpan<'a> {
    ghost eq = { span_eq };

    ghost laws = { partial_equiv_from_equiv span_equiv };

    fn eq(&self, other: &KeySpan<'a>) -> bool {
        self.cmp(other).is_eq()
    }
}

impl<'a> Eq for KeySpan<'a> {
    ghost laws = { span_equiv };
}

impl<'a> PartialOrd for KeySpan<'a> {
    ghost partial_cmp = { as_partial_cmp span_cmp };

    ghost laws = { span_partial };

    fn partial_cmp(&self, other: &KeySpan<'a>) -> Option<Ordering> {
        Some(self.cmp(other))
    }
}

impl<'a> Ord for KeySpan<'a> {
    ghost cmp = { span_cmp };

    ghost total = { span_total };

    ghost matches_partial_cmp = { λ a b. refl };

    ghost matches_eq = { λ a b. refl };

    fn cmp(&self, other: &KeySpan<'a>) -> Ordering {
        self.key
            .as_slice()
            .cmp(other.key.as_slice())
            .then(self.ends.cmp(&other.ends))
            .then(self.begins.cmp(&other.begins))
            .then(self.bookmark.cmp(other.bookmark))
    }
}

impl<'a> KeySpan<'a> {
    /// A record has the key as long as it is as it is.
    fn new(alloc: Global, key: &Key, lifetime: Lifetime<'a>) -> Result<KeySpan<'a>, OutOfMemory>
        ensures { IfOk result (λ made. made ≡ span_of lifetime.entry.bookmark.now lifetime.entry.begins lifetime.entry.ends key.now) }
    {
        let mut bytes = Vec::new(alloc);
        match bytes.extend_from_slice(key.as_bytes()) {
            Ok(()) => Ok(KeySpan {
                key: bytes,
                bookmark: lifetime.bookmark,
                begins: lifetime.begins,
                ends: lifetime.ends,
            }),
            Err(_) => Err(OutOfMemory),
        }
    }
}

/// Puts the spans of some keys of a record at the end.
pub(crate) fn push_spans<'a>(
    alloc: Global,
    spans: &mut Vec<KeySpan<'a>>,
    keys: &[Key],
    lifetime: Lifetime<'a>,
) -> Result<(), OutOfMemory>
    ensures { IfOk result (λ _. spans.new.items ≡ spans.old.items ++ map (span_of lifetime.entry.bookmark.now lifetime.entry.begins lifetime.entry.ends) keys.now) }
{
    for key in keys {
        let span = match KeySpan::new(alloc, key, lifetime) {
            Ok(span) => span,
            Err(fault) => return Err(fault),
        };
        match spans.push(span) {
            Ok(()) => {}
            Err(_) => return Err(OutOfMemory),
        }
    }
    Ok(())
}

/// The spans in their order, each once.
pub(crate) fn in_order<'a>(mut spans: Vec<KeySpan<'a>>) -> Vec<KeySpan<'a>>
    ensures { AreInOrder spans.entry.items result.items }
{
    spans.sort_unstable();
    spans.dedup();
    spans
}
