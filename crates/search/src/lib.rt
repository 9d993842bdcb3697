// The search for the closed melds of a hand (find_all_meld_combinations of agari): at the lowest tile that is left it takes a
// sequence or a triplet, and calls itself with one meld fewer to find. The tiles left are counts packed three bits a tile.
#![tactic(auto)]

pub mod remaining;

ghost use Rattle.std.specs.Prelude.{◌≡◌, ◌+◌, ◌≤◌, length};
ghost use Rattle.std.proofs.lemmas.List.Edits.{sets};
ghost use Rattle.hand.specs.Records.{standard_bytes};
ghost use Rattle.hand.specs.Readings.{meld_lists};
ghost use Rattle.search.specs.Remaining.{split, left};
ghost use Rattle.search.specs.Slots.{put, meld_of, slot_record, records_with};

pub use remaining::{FairRemaining, LowestRemaining, Remaining};

// How many lists of `needed` closed melds use up the tiles left.
pub fn count_meld_combinations(s: FairRemaining, needed: u32) -> usize
    requires { needed ≤ 4 }
    ensures { (result ≡ length (meld_lists needed (left (split s.tiles)))) × (result ≤ 16) }
{
    // the two words as numbers, so that no copy of `s` is on the stack while the search goes on
    let here = FairRemaining {
        tiles: Remaining {
            word: s.tiles.word,
            behind: s.tiles.behind,
        },
    };
    if here.is_empty() {
        return usize::from(needed == 0);
    }
    if needed == 0 {
        return 0;
    }
    let low = here.lowest();
    let mut total: usize = 0;
    if low.has_sequence() {
        total = count_meld_combinations(low.without_sequence(), needed - 1);
    }
    if low.has_triplet() {
        total += count_meld_combinations(low.without_triplet(), needed - 1);
    }
    total
}

// A meld, by its number in the order of melds, put in its place among four slots; the last one falls out. An empty slot is 65535,
// above the number of each meld: an Option is no plainer, since None stands below each Some and would come first.
pub fn put_in(slots: [u16; 4], x: u16) -> [u16; 4]
    ensures { result ≡ put x slots }
{
    let [a, b, c, d] = slots;
    let y = x.max(a);
    let z = y.max(b);
    let w = z.max(c);
    [x.min(a), y.min(b), z.min(c), w.min(d)]
}

// The meld of a number.
fn meld_of(x: u16) -> meld::Meld
    ensures { result ≡ meld_of x }
{
    meld::Meld {
        tile: (x / 32 % 256) as u8,
        kind: (x / 4 % 8) as u8,
        source: (x % 4) as u8,
    }
}

// A standard reading: its pair, and its melds by their numbers in slots.
#[derive(Clone, Copy)]
pub struct StandardReading {
    pub pair: u8,
    pub slots: [u16; 4],
}

impl StandardReading {
    // The reading with a meld put in.
    fn with(self, key: u16) -> StandardReading
        ensures { (result.pair ≡ self.pair) × (result.slots ≡ put key self.slots) }
    {
        StandardReading {
            pair: self.pair,
            slots: put_in(self.slots, key),
        }
    }

    // Writes the reading's record.
    pub fn write(self, out: &mut [u8], at: usize)
        requires { at + standard_bytes ≤ length out.old }
        ensures { out.new ≡ sets out.old at (slot_record self.pair self.slots) }
    {
        let [a, b, c, d] = self.slots;
        let a = meld_of(a);
        let b = meld_of(b);
        let c = meld_of(c);
        let d = meld_of(d);
        lists::put_all(
            out,
            at,
            &[
                hand::STANDARD_BYTES as u8,
                0,
                3,
                0,
                self.pair,
                a.tile,
                a.kind,
                a.source,
                b.tile,
                b.kind,
                b.source,
                c.tile,
                c.kind,
                c.source,
                d.tile,
                d.kind,
                d.source,
            ],
        );
    }
}

// Writes the reading's record where no tile is left. Answers the place behind it. Buffer and place stay two parameters: in a struct
// behind a `&mut` they are no plainer, since each contract would say old and new of both.
fn write_end(s: FairRemaining, reading: StandardReading, out: &mut [u8], at: usize) -> usize
    requires { at + length (records_with reading.pair reading.slots (meld_lists 0 (left (split s.tiles)))) ≤ length out.old }
    ensures { (result ≡ at + length (records_with reading.pair reading.slots (meld_lists 0 (left (split s.tiles))))) × (out.new ≡ sets out.old at (records_with reading.pair reading.slots (meld_lists 0 (left (split s.tiles))))) }
{
    if s.is_empty() {
        reading.write(out, at);
        return at + hand::STANDARD_BYTES;
    }
    at
}

// Goes on with a meld, by its number, taken from what was left: `s` is left now, and `needed` melds are still to be found.
#[cycle(write_meld_combinations_write_with)]
fn write_with(
    s: FairRemaining,
    needed: u32,
    reading: StandardReading,
    key: u16,
    out: &mut [u8],
    at: usize,
) -> usize
    requires { at + length (records_with reading.pair (put key reading.slots) (meld_lists needed (left (split s.tiles)))) ≤ length out.old }
    ensures { (result ≡ at + length (records_with reading.pair (put key reading.slots) (meld_lists needed (left (split s.tiles))))) × (out.new ≡ sets out.old at (records_with reading.pair (put key reading.slots) (meld_lists needed (left (split s.tiles))))) }
{
    let more = reading.with(key);
    if needed == 0 {
        return write_end(s, more, out, at);
    }
    write_meld_combinations(s, needed, more, out, at)
}

// Writes the records of the pair with each list of `needed` closed melds that uses up the tiles left, its melds put among the
// slots. Answers the place behind them.
#[cycle(write_meld_combinations_write_with)]
pub fn write_meld_combinations(
    s: FairRemaining,
    needed: u32,
    reading: StandardReading,
    out: &mut [u8],
    at: usize,
) -> usize
    requires { at + length (records_with reading.pair reading.slots (meld_lists needed (left (split s.tiles)))) ≤ length out.old }
    ensures { (result ≡ at + length (records_with reading.pair reading.slots (meld_lists needed (left (split s.tiles))))) × (out.new ≡ sets out.old at (records_with reading.pair reading.slots (meld_lists needed (left (split s.tiles))))) }
{
    // the two words as numbers, so that no copy of `s` is on the stack while the search goes on
    let here = FairRemaining {
        tiles: Remaining {
            word: s.tiles.word,
            behind: s.tiles.behind,
        },
    };
    if needed == 0 {
        return write_end(here, reading, out, at);
    }
    if here.is_empty() {
        return at;
    }
    let low = here.lowest();
    let key = low.tiles.key();
    let mut pos = at;
    if low.has_sequence() {
        let rest = low.without_sequence();
        pos = write_with(rest, needed - 1, reading, key, out, pos);
    }
    if low.has_triplet() {
        let rest = low.without_triplet();
        pos = write_with(rest, needed - 1, reading, key + 8, out, pos);
    }
    pos
}
