//! Byte strings with rising numbers, in buckets of raw memory.
//!
//! A piece is pushed at the back and popped at the front. It lies in one bucket of 65,536 bytes, is
//! read in place, and its bucket is freed with the last piece in it. In a bucket a piece takes eight
//! bytes for its length, and its bytes up to a multiple of eight.
#![tactic(auto)]

ghost use Rattle.std.specs.Prelude.{◌≡◌, ◌+◌, ◌-◌, ◌*◌, ◌/◌, ◌^◌, ◌<◌, ◌≤◌, [], length, slice_index_or, sum_by, IfOk, IsTrue, OnErr, OnOk, ◌↔◌};
ghost use Rattle.version_bucket.specs.Layout.{cost};
ghost use Rattle.version_bucket.specs.Pieces.{appended, no_pieces, without_first};

mod bucket;
mod held;

use crate::bucket::BUCKET_SIZE;
use crate::held::{Held, cost_of};
use jet_base::OutOfMemory;
use std::alloc::Global;
use std::collections::VecDeque;
use std::marker::Model;

/// Where a piece lies: buckets are counted from the first that was ever held.
#[derive(Clone, Copy)]
struct Place {
    bucket: usize,
    offset: usize,
}

/// Pieces of at most 4,096 bytes each, numbered from 0 on as they are pushed.
#[derive(Drop)]
pub struct Buckets {
    alloc: Global,
    // The number of the first kept piece.
    first: u64,
    places: VecDeque<Place>,
    // How many buckets were freed, and those that are held.
    freed: usize,
    held: VecDeque<Held>,
    // The bytes that are left in the last bucket.
    room: usize,
}

impl Model for Buckets {
    ghost use Rattle.version_bucket.specs.Pieces.{Pieces};

    ghost Value = { Pieces };

    ghost use Rattle.version_bucket.specs.Held.{IsKept, shown};

    ghost view = { shown };

    ghost invariant = { IsKept };
}

impl Buckets {
    /// No piece, and no bucket.
    pub fn new(alloc: Global) -> Buckets
        ensures { result ≡ no_pieces }
    {
        Buckets {
            alloc,
            first: 0,
            places: VecDeque::new(alloc),
            freed: 0,
            held: VecDeque::new(alloc),
            room: 0,
        }
    }

    /// The number of the first kept piece, or of the next one where none is kept.
    pub fn first(&self) -> u64
        ensures value { result ≡ self.now.first }
        ensures limit { self.now.first + length self.now.pieces < 2 ^ 64 }
    {
        self.first
    }

    /// How many pieces are kept.
    pub fn len(&self) -> u64
        ensures value { result ≡ length self.now.pieces }
        ensures limit { self.now.first + length self.now.pieces < 2 ^ 64 }
    {
        self.places.len() as u64
    }

    /// How many buckets are held, of 65,536 bytes each.
    pub fn buckets(&self) -> u64
        ensures count { result ≡ length self.now.counts }
        ensures bound { result ≤ 2 + sum_by cost self.now.pieces / 61440 }
    {
        self.held.len() as u64
    }

    /// Keeps a copy of the piece, which has at most 4,096 bytes, and answers its number. The numbers
    /// end before 2^64 - 1: a push past them, which no run reaches, is refused as for want of memory.
    pub fn push(&mut self, piece: &[u8]) -> Result<u64, OutOfMemory>
        requires { length piece.now ≤ 4096 }
        ensures number { IfOk result (λ number. number ≡ self.old.first + length self.old.pieces) }
        ensures ok { OnOk result (self.new ≡ appended self.old piece.now) }
        ensures err { OnErr result (self.new ≡ self.old) }
    {
        let number = self.first + self.places.len() as u64;
        if number == u64::MAX {
            return Err(OutOfMemory);
        }
        self.places.reserve(1)?;
        let cost = cost_of(piece.len());
        if cost <= self.room {
            let last = self.held.len() - 1;
            let offset = BUCKET_SIZE - self.room;
            self.held[last].append(offset, piece);
            self.places.push_back_reserved(Place {
                bucket: self.freed + last,
                offset,
            });
            self.room -= cost;
        } else {
            let bucket = self.freed + self.held.len();
            self.held.push_back(Held::with_piece(self.alloc, piece)?)?;
            self.places.push_back_reserved(Place { bucket, offset: 0 });
            self.room = BUCKET_SIZE - cost;
        }
        Ok(number)
    }

    /// The piece of the number, as it was pushed.
    pub fn get(&self, number: u64) -> &[u8]
        requires { (self.now.first ≤ number) × (number < self.now.first + length self.now.pieces) }
        ensures { result.now ≡ slice_index_or self.now.pieces (number - self.now.first) [] }
    {
        let place = self.places[(number - self.first) as usize];
        self.held[place.bucket - self.freed].piece(place.offset)
    }

    /// Drops the first piece, and frees its bucket if no piece is left there.
    pub fn pop_front(&mut self)
        requires { 0 < length self.old.pieces }
        ensures { self.new ≡ without_first self.old }
    {
        self.places.pop_front();
        self.first += 1;
        let oldest = &mut self.held[0];
        oldest.kept -= 1;
        if oldest.kept == 0 {
            self.held.pop_front();
            self.freed += 1;
            if self.held.is_empty() {
                self.room = 0;
            }
        }
    }
}
