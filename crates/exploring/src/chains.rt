//! Chains of pieces, which share what they begin with: each is known by its last link.
ghost use Rattle.std.specs.Prelude.{◌≡◌, ◌+◌, ◌^◌, ◌≤◌, IfOk, MatchResult, OnOk};
ghost use Rattle.std.specs.List.{position_or_len};
ghost use Rattle.std.specs.Str.{bytes_eq};
ghost use Rattle.indexmap.specs.IndexSet.{insert_key};
ghost use Rattle.exploring.specs.Chains.{is_same, one_more, started};

use crate::keys::Key;
use indexmap::IndexSet;
use std::alloc::{AllocError, Global};
use std::marker::Model;

/// A link of a chain: the number of the link before it, from 1 on, or 0 where there is none; and that of its piece.
#[derive(Clone, Copy, Debug, PartialEq, Eq, Hash)]
pub struct Link {
    pub before: u32,
    pub piece: u32,
}

/// Pieces, each once; links, each once; and the last link of the chain that is being made, which is kept among them once
/// the chain goes on. A contract sees all three.
#[derive(Drop)]
pub struct Chains {
    pieces: IndexSet<Key>,
    links: IndexSet<Link>,
    last: Link,
}

impl Model for Chains {
    ghost use Rattle.exploring.specs.Chains.{Chains};

    ghost Value = { Chains };

    ghost view = { λ a. record { pieces = a.pieces.keys; links = a.links.keys; last = a.last } };
}

/// A number with 32 bits. `AllocError` exactly where it has no room.
fn narrow(n: usize) -> Result<u32, AllocError>
    ensures { MatchResult result (λ number. number ≡ n) (λ _. 2 ^ 32 ≤ n) }
{
    match u32::try_from(n) {
        Ok(number) => Ok(number),
        Err(_) => Err(AllocError),
    }
}

/// The number of a link by its place, from 1 on. `AllocError` exactly where it has no room.
fn number_at(place: usize) -> Result<u32, AllocError>
    ensures { MatchResult result (λ number. number ≡ place + 1) (λ _. 2 ^ 32 ≤ place + 1) }
{
    match narrow(place) {
        Ok(number) => match number.checked_add(1) {
            Some(next) => Ok(next),
            None => Err(AllocError),
        },
        Err(error) => Err(error),
    }
}

/// The number of a piece, which is added unless it's there. `AllocError` where memory runs out or a number has no room,
/// here and below.
fn number_of(pieces: &mut IndexSet<Key>, alloc: Global, piece: &Key) -> Result<u32, AllocError>
    ensures number { IfOk result (λ n. n ≡ position_or_len (bytes_eq piece.now) pieces.old.keys) }
    ensures pieces { OnOk result (pieces.new.keys ≡ insert_key bytes_eq pieces.old.keys piece.now) }
{
    if let Some(number) = pieces.get_index_of(piece) {
        return narrow(number);
    }
    let added = piece.copy(alloc)?;
    let (number, _) = pieces.insert_full(added)?;
    narrow(number)
}

/// The number of a link, from 1 on. It's added unless it's there.
fn number_of_link(links: &mut IndexSet<Link>, link: Link) -> Result<u32, AllocError>
    ensures number { IfOk result (λ n. n ≡ position_or_len (is_same link) links.old.keys + 1) }
    ensures links { OnOk result (links.new.keys ≡ insert_key is_same links.old.keys link) }
{
    let (place, _) = links.insert_full(link)?;
    number_at(place)
}

impl Chains {
    /// No chains.
    pub fn new(alloc: Global) -> Chains {
        Chains {
            pieces: IndexSet::new(alloc),
            links: IndexSet::new(alloc),
            last: Link {
                before: 0,
                piece: 0,
            },
        }
    }

    /// A chain is begun with a piece.
    pub fn begin(&mut self, alloc: Global, piece: &Key) -> Result<(), AllocError>
        ensures { OnOk result (self.new ≡ started self.old piece.now) }
    {
        let piece = number_of(&mut self.pieces, alloc, piece)?;
        self.last = Link { before: 0, piece };
        Ok(())
    }

    /// The chain goes on with a piece.
    pub fn add(&mut self, alloc: Global, piece: &Key) -> Result<(), AllocError>
        ensures { OnOk result (self.new ≡ one_more self.old piece.now) }
    {
        let before = number_of_link(&mut self.links, self.last)?;
        let piece = number_of(&mut self.pieces, alloc, piece)?;
        self.last = Link { before, piece };
        Ok(())
    }

    /// The last link of the chain, by which it's known.
    pub fn last_link(&self) -> Link
        ensures { result ≡ self.now.last }
    {
        self.last
    }
}
