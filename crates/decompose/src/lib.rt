// The standard readings of a hand from its 34 counts (decompose_hand and decompose_hand_with_melds of agari): a loop over the tiles
// that can be the pair, and the search for the melds. The counts are packed three bits a tile for the search.
#![tactic(auto)]

pub mod pair_search;

ghost use Rattle.std.specs.Prelude.{◌≡◌, ◌+◌, ◌-◌, ◌*◌, ◌≤◌, ◌<◌, leb};
ghost use Rattle.hand.specs.Counts.{held, AtMostFour};
ghost use Rattle.hand.specs.Weights.{weight, by_three};
ghost use Rattle.decompose.specs.Packed.{pack_from, in_words, Fit};
ghost use Rattle.decompose.specs.Pairs.{OnlyAt};

pub use pair_search::PairSearch;

// The counts packed three bits a tile: man and pin, and sou and the honors.
#[derive(Clone, Copy)]
pub struct Packed {
    pub low: u64,
    pub high: u64,
}

// The counts from one tile up to another, packed.
fn pack_range(counts: &[u8; 34], from: usize, to: usize) -> u64
    requires { (from ≤ to) × ((to ≤ 34) × ((to ≤ from + 18) × AtMostFour counts.now)) }
    ensures { result ≡ pack_from (held counts.now) (to - from) from }
{
    let mut word: u64 = 0;
    for i in (from..to).rev() {
        word = word * 8 + u64::from(counts[i]);
    }
    word
}

// The counts packed.
pub fn pack(counts: &[u8; 34]) -> Packed
    requires { AtMostFour counts.now }
    ensures { (in_words result ≡ held counts.now) × Fit result }
{
    Packed {
        low: pack_range(counts, 0, 18),
        high: pack_range(counts, 18, 34),
    }
}

impl Packed {
    // Are there two of the tile p?
    fn has_pair(self, p: usize) -> bool
        requires { p < 34 }
        ensures { result ≡ leb 2 (in_words self p) }
    {
        if p < 18 {
            return 2 <= (self.low >> (p * 3)) % 8;
        }
        2 <= (self.high >> ((p - 18) * 3)) % 8
    }
}

// Where the pair can stand: at the tiles from `first` on in steps of three, below `end`.
#[derive(Clone, Copy)]
pub struct PairPlaces {
    pub first: usize,
    pub end: usize,
}

// What the tiles' numbers leave by 3, summed over the tiles, of which the last leaves nothing.
fn sum_numbers(counts: &[u8; 34]) -> u64
    ensures { (result ≡ weight by_three (held counts.now)) × (result ≤ 765 * 11) }
{
    let mut sum: u64 = 0;
    for t in (0..33).step_by(3) {
        sum += u64::from(counts[t + 1]) + 2 * u64::from(counts[t + 2]);
    }
    sum
}

// Where the pair can stand. Melds take three tiles of a suit or of the honors or none of them, and tiles whose numbers sum up to
// a multiple of 3. So the pair's suit leaves 2 by 3 and the others leave 0, and its number twice leaves what the sum of all leaves.
pub fn pair_places(counts: &[u8; 34]) -> PairPlaces
    ensures { OnlyAt (held counts.now) result }
{
    let man = hand::sum_range(counts, 0, 9) % 3;
    let pin = hand::sum_range(counts, 9, 18) % 3;
    let sou = hand::sum_range(counts, 18, 27) % 3;
    let honors = hand::sum_range(counts, 27, 34) % 3;
    if man + pin + sou + honors != 2 {
        // nowhere: a range in which no tile is
        return PairPlaces { first: 34, end: 34 };
    }
    let start = pin / 2 * 9 + sou / 2 * 18 + honors / 2 * 27;
    PairPlaces {
        first: (start + 2 * sum_numbers(counts) % 3) as usize,
        end: (start + 9 - honors / 2 * 2) as usize,
    }
}
