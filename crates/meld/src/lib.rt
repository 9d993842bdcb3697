// Melds (the meld part of agari's hand.rs). A meld is its lowest tile, a kind and a source. Kinds: 0 closed sequence, 1 open sequence,
// 2 closed triplet, 3 open triplet, 4 closed kan, 5 open kan, 6 added kan. Sources, of which agari has none: the player from whom the tile
// was called, 1 to 3 seats onward from the one who called it (on the right, across, on the left), 0 where no tile was called.
// Any bytes may stand in it, as C lends it, so the kind is a byte and no enum: is_valid says whether it is one.
#![tactic(auto)]

ghost use Rattle.std.specs.Prelude.{◌≡◌};
ghost use Rattle.meld.specs.Meld.{is_sequence, is_triplet_or_kan, is_kan, is_concealed, is_open, nearest, is_seat, is_sourced, is_meld, is_call, key, run_uses, set_size, uses, at_tile, from_seat, meld};
ghost use Rattle.meld.specs.Renamed.{ren_meld};

use tile::{Renaming, Tile};

#[repr(C)]
#[derive(Clone, Copy)]
pub struct Meld {
    pub tile: u8,
    pub kind: u8,
    pub source: u8,
}

impl Meld {
    // Is this a sequence, closed or open?
    pub fn is_sequence(self) -> bool
        ensures { result ≡ is_sequence self }
    {
        self.kind < 2
    }

    // Is this a triplet or a kan?
    pub fn is_triplet_or_kan(self) -> bool
        ensures { result ≡ is_triplet_or_kan self }
    {
        (2 <= self.kind) & (self.kind < 7)
    }

    // Is this a kan?
    pub fn is_kan(self) -> bool
        ensures { result ≡ is_kan self }
    {
        (4 <= self.kind) & (self.kind < 7)
    }

    // Was no tile of it called from another player?
    pub fn is_concealed(self) -> bool
        ensures { result ≡ is_concealed self }
    {
        (self.kind == 0) | ((self.kind == 2) | (self.kind == 4))
    }

    // Was a tile of it called from another player?
    pub fn is_open(self) -> bool
        ensures { result ≡ is_open self }
    {
        (self.kind == 1) | ((self.kind == 3) | ((self.kind == 5) | (self.kind == 6)))
    }

    // Is the source one from which a meld of its kind can come?
    pub fn is_sourced(self) -> bool
        ensures { result ≡ is_sourced self }
    {
        if self.is_open() {
            return is_seat(self.is_sequence(), self.source);
        }
        self.source == 0
    }

    // Are tile, kind and source those of a meld?
    pub fn is_valid(self) -> bool
        ensures { result ≡ is_meld self }
    {
        ((self.kind < 7) & ((self.tile < 34) & ((2 <= self.kind) | Tile(self.tile).is_start())))
            & self.is_sourced()
    }

    // Is this a meld that can be called: any but a closed sequence or a closed triplet?
    pub fn is_call(self) -> bool
        ensures { result ≡ is_call self }
    {
        self.is_valid() & !((self.kind == 0) | (self.kind == 2))
    }

    // The number by which melds ascend.
    pub fn key(self) -> u16
        ensures { result ≡ key self }
    {
        (u16::from(self.tile) * 8 + u16::from(self.kind)) * 4 + u16::from(self.source)
    }

    // How many of the tile t it holds.
    pub fn uses(self, t: u8) -> u8
        ensures { result ≡ uses self t }
    {
        if self.kind < 2 {
            return run_uses(self.tile, t);
        }
        if t == self.tile {
            return set_size(self.is_kan());
        }
        0
    }

    // The meld under a renaming: its tiles are renamed, the lowest of them is then its tile; kind and source stay.
    pub fn renamed(self, by: Renaming) -> Meld
        ensures { result ≡ ren_meld by self }
    {
        let first = Tile(self.tile);
        let a = first.renamed(by).0;
        if self.is_sequence() & first.is_start() {
            let b = Tile(self.tile + 2).renamed(by).0;
            return self.at_tile(a.min(b));
        }
        self.at_tile(a)
    }

    // A meld of the same kind and source at another tile.
    fn at_tile(self, tile: u8) -> Meld
        ensures { result ≡ at_tile tile self }
    {
        Meld { tile, ..self }
    }

    // The meld of the same tile and kind from another seat.
    pub fn from_seat(self, source: u8) -> Meld
        ensures { result ≡ from_seat source self }
    {
        Meld { source, ..self }
    }

    // The meld of a tile and a kind: an open one from the player before, on the left, from whom each kind of them can come.
    pub fn from_left(tile: u8, kind: u8) -> Meld
        ensures { result ≡ meld tile kind }
    {
        let closed = Meld {
            tile,
            kind,
            source: 0,
        };
        if closed.is_open() {
            return closed.from_seat(3);
        }
        closed
    }
}

// From how few seats onward a tile of an open meld can come: from any of the three others, of a sequence from the player before alone.
fn nearest(sequence: bool) -> u8
    ensures { result ≡ nearest sequence }
{
    if sequence { 3 } else { 1 }
}

// Can a tile of an open meld come from this seat?
fn is_seat(sequence: bool, source: u8) -> bool
    ensures { result ≡ is_seat sequence source }
{
    (nearest(sequence) <= source) & (source <= 3)
}

// How many of the tile t a sequence from a tile holds.
fn run_uses(first: u8, t: u8) -> u8
    ensures { result ≡ run_uses first t }
{
    u8::from((first <= t) & (u16::from(t) < u16::from(first) + 3))
}

// How many tiles a kan has, or a triplet.
fn set_size(kan: bool) -> u8
    ensures { result ≡ set_size kan }
{
    if kan { 4 } else { 3 }
}
