// The tiles left as the search goes on: any two words, those that are fair, and those that begin at a tile that is left.
ghost use Rattle.std.specs.Prelude.{◌≡◌, true, false, ◌*◌};
ghost use Rattle.meld.specs.Meld.{meld};
ghost use Rattle.search.specs.Remaining.{split, left, Fair, has_none_left, AtLowest, has_sequence, has_triplet, Less};

// The tiles left: `word` has the counts from a tile on, three bits each, the lowest tile in the lowest bits. `behind` has that
// tile in its six lowest bits, and above them the counts of sou and the honors where they are not yet in `word`.
#[derive(Clone, Copy)]
pub struct Remaining {
    pub word: u64,
    pub behind: u64,
}

// Tiles left of which there are at most four of each, in words that do not overlap.
#[derive(Clone, Copy)]
pub struct FairRemaining {
    pub tiles: Remaining,
    ghost fair: { Fair (split tiles) },
}

// The same where the word begins at a tile that is left, the lowest.
#[derive(Clone, Copy)]
pub struct LowestRemaining {
    pub tiles: Remaining,
    ghost at_lowest: { AtLowest (split tiles) },
}

impl Remaining {
    // The number of the sequence from the tile, in the order of melds. That of the tile's triplet is higher by 8.
    pub fn key(self) -> u16
        ensures { result ≡ (split self).tile * 32 }
    {
        (self.behind % 64 * 32) as u16
    }
}

impl FairRemaining {
    // Is no tile left?
    pub fn is_empty(self) -> bool
        ensures { result ≡ has_none_left (split self.tiles) }
    {
        (self.tiles.word == 0) & (self.tiles.behind / 64 == 0)
    }

    // The same tiles, with sou and the honors in the word where nothing before them is left.
    fn current(self) -> FairRemaining
        requires { has_none_left (split self.tiles) ≡ false }
        ensures { (left (split result.tiles) ≡ left (split self.tiles)) × (result.tiles.word ≡ 0 → ⊥) }
    {
        if self.tiles.word == 0 {
            return FairRemaining {
                tiles: Remaining {
                    word: self.tiles.behind / 64,
                    behind: 18,
                },
            };
        }
        self
    }

    // The same tiles from the lowest on, where one is left.
    pub fn lowest(self) -> LowestRemaining
        requires { has_none_left (split self.tiles) ≡ false }
        ensures { left (split result.tiles) ≡ left (split self.tiles) }
    {
        let s = self.current();
        let zeros = u64::trailing_zeros(s.tiles.word) / 3;
        LowestRemaining {
            tiles: Remaining {
                word: s.tiles.word >> (3 * zeros),
                behind: s.tiles.behind + u64::from(zeros),
            },
        }
    }
}

impl LowestRemaining {
    // Is the sequence from the tile there? One of the tile itself is.
    pub fn has_sequence(self) -> bool
        ensures { result ≡ has_sequence (split self.tiles) }
    {
        let tile = self.tiles.behind % 64;
        let word = self.tiles.word;
        (tile < 27) & ((tile % 9 < 7) & ((word / 8 % 8 != 0) & (word / 64 % 8 != 0)))
    }

    // Are exactly three of the tile left?
    pub fn has_triplet(self) -> bool
        ensures { result ≡ has_triplet (split self.tiles) }
    {
        self.tiles.word % 8 == 3
    }

    // What is left without the sequence from the tile: one less at each of the three lowest places, 1 + 8 + 64.
    pub fn without_sequence(self) -> FairRemaining
        requires { has_sequence (split self.tiles) ≡ true }
        ensures { Less (split self.tiles) (meld (split self.tiles).tile 0) (split result.tiles) }
    {
        FairRemaining {
            tiles: Remaining {
                word: self.tiles.word - 73,
                behind: self.tiles.behind,
            },
        }
    }

    // What is left without the triplet of the tile.
    pub fn without_triplet(self) -> FairRemaining
        requires { has_triplet (split self.tiles) ≡ true }
        ensures { Less (split self.tiles) (meld (split self.tiles).tile 2) (split result.tiles) }
    {
        FairRemaining {
            tiles: Remaining {
                word: self.tiles.word - 3,
                behind: self.tiles.behind,
            },
        }
    }
}
