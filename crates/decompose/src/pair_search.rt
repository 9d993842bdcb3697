// The standard readings of a hand, counted and written: what a search over the pairs needs of the hand.
ghost use Rattle.std.specs.Prelude.{◌≡◌, ◌+◌, ◌≤◌, ◌<◌, length};
ghost use Rattle.std.proofs.lemmas.List.Edits.{sets};
ghost use Rattle.tile.specs.Tile.{tiles};
ghost use Rattle.hand.specs.Counts.{held, AtMostFour};
ghost use Rattle.hand.specs.Readings.{less_pair};
ghost use Rattle.search.specs.Remaining.{split, left};
ghost use Rattle.decompose.specs.Packed.{in_words, Fit};
ghost use Rattle.decompose.specs.Pairs.{found_with, records_over, OnlyAt};

// The counts of a hand, packed, and where its pair can stand.
#[derive(Clone, Copy)]
pub struct PairSearch {
    pub hand: crate::Packed,
    pub places: crate::PairPlaces,
    ghost fit: { Fit hand },
    ghost only_at: { OnlyAt (in_words hand) places },
}

impl PairSearch {
    // The search over the pairs of a hand. Inlined, since both calls took a quarter longer where LLVM laid them into one function.
    #[inline(always)]
    pub fn of(counts: &[u8; 34]) -> PairSearch
        requires { AtMostFour counts.now }
        ensures { in_words result.hand ≡ held counts.now }
    {
        PairSearch {
            hand: crate::pack(counts),
            places: crate::pair_places(counts),
        }
    }

    // The tiles left without the pair p.
    fn without_pair(self, p: usize) -> search::FairRemaining
        requires { (p < 34) × (2 ≤ in_words self.hand p) }
        ensures { left (split result.tiles) ≡ less_pair (in_words self.hand) p }
    {
        let hand = self.hand;
        if p < 18 {
            return search::FairRemaining {
                tiles: search::Remaining {
                    word: hand.low - (2u64 << (p * 3)),
                    behind: hand.high * 64,
                },
            };
        }
        search::FairRemaining {
            tiles: search::Remaining {
                word: hand.low,
                behind: (hand.high - (2u64 << ((p - 18) * 3))) * 64,
            },
        }
    }

    // How many standard readings there are with `needed` melds of the hand itself.
    pub fn count_standard(self, needed: u32) -> usize
        requires { needed ≤ 4 }
        ensures { (result ≡ length (found_with needed (in_words self.hand) tiles)) × (result ≤ 2176) }
    {
        let mut total = 0;
        for p in (self.places.first..self.places.end).step_by(3) {
            if self.hand.has_pair(p) {
                total += search::count_meld_combinations(self.without_pair(p), needed);
            }
        }
        total
    }

    // Writes the records of all standard readings. Answers the place behind them.
    pub fn write_standards(self, needed: u32, slots: [u16; 4], out: &mut [u8], at: usize) -> usize
        requires { at + length (records_over needed (in_words self.hand) slots tiles) ≤ length out.old }
        ensures { (result ≡ at + length (records_over needed (in_words self.hand) slots tiles)) × (out.new ≡ sets out.old at (records_over needed (in_words self.hand) slots tiles)) }
    {
        let mut pos = at;
        for p in (self.places.first..self.places.end).step_by(3) {
            if self.hand.has_pair(p) {
                let reading = search::StandardReading {
                    pair: p as u8,
                    slots,
                };
                pos = search::write_meld_combinations(
                    self.without_pair(p),
                    needed,
                    reading,
                    out,
                    pos,
                );
            }
        }
        pos
    }
}
