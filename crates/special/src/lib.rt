// Seven pairs and thirteen orphans (is_chiitoitsu and check_kokushi of agari), and the bytes of their records.
#![tactic(auto)]

ghost use Rattle.std.specs.Prelude.{◌≡◌, true, ◌||◌, ◌∷◌, [], ◌+◌, ◌≤◌, ◌<◌, eqb, length, IfSome};
ghost use Rattle.std.proofs.lemmas.List.Edits.{sets};
ghost use Rattle.lists.specs.Fold.{one, all};
ghost use Rattle.tile.specs.Tile.{is_terminal_or_honor, tiles};
ghost use Rattle.hand.specs.Counts.{held};
ghost use Rattle.hand.specs.Reading.{orphans};
ghost use Rattle.hand.specs.Records.{record_of, records};
ghost use Rattle.hand.specs.Readings.{twos, is_pairs, seven_pairs, is_orphans, thirteen_orphans};
ghost use Rattle.special.specs.Doubled.{doubled_in};
ghost use Rattle.special.specs.Kinds.{kinds_word};

use tile::Tile;

// The kinds present as set bits of one word, the lowest tile in the lowest bit.
pub fn kinds_present(counts: &[u8; 34]) -> u64
    ensures { result ≡ kinds_word (held counts.now) }
{
    let mut word: u64 = 0;
    for t in (0..34).rev() {
        word = word * 2 + u64::from(counts[t] != 0);
    }
    word
}

// Is each tile there twice or not at all?
fn none_or_two(counts: &[u8; 34]) -> bool
    ensures { result ≡ all (λ t. eqb (held counts.now t) 0 || eqb (held counts.now t) 2) tiles }
{
    counts.iter().all(|n| (*n == 0) | (*n == 2))
}

// Are they seven pairs? `kinds` has the kinds present.
pub fn is_chiitoitsu(counts: &[u8; 34], kinds: u64) -> bool
    requires { kinds ≡ kinds_word (held counts.now) }
    ensures { result ≡ is_pairs (held counts.now) }
{
    if kinds.count_ones() != 7 {
        return false;
    }
    none_or_two(counts)
}

// How many of a tile there are in thirteen orphans with the tile p doubled.
fn orphans_of(t: Tile, p: Tile) -> u8
    ensures { result ≡ one (is_terminal_or_honor t.0) + one (eqb t.0 p.0) }
{
    u8::from(t.is_terminal_or_honor()) + u8::from(t.0 == p.0)
}

// Are they thirteen orphans with the tile p doubled?
fn orphans_with(counts: &[u8; 34], p: Tile) -> bool
    ensures { result ≡ is_orphans (held counts.now) p.0 }
{
    if !p.is_terminal_or_honor() {
        return false;
    }
    (0..34).all(|t| counts[t as usize] == orphans_of(Tile(t), p))
}

// The tile that is doubled in thirteen orphans, where they are that. `kinds` has the kinds present.
pub fn check_kokushi(counts: &[u8; 34], kinds: u64) -> Option<Tile>
    requires { kinds ≡ kinds_word (held counts.now) }
    ensures found { thirteen_orphans (held counts.now) ≡ doubled_in result }
    ensures tile { IfSome result (λ p. p.0 < 34) }
{
    if kinds.count_ones() != 13 {
        return None;
    }
    (0..34).map(Tile).find(|p| orphans_with(counts, *p))
}

// Writes the four bytes that a record begins with, its length and its kind.
fn write_head(size: u8, kind: u8, out: &mut [u8], at: usize)
    requires { at + 4 ≤ length out.old }
    ensures { out.new ≡ sets out.old at (size ∷ 0 ∷ kind ∷ 0 ∷ []) }
{
    lists::put_all(out, at, &[size, 0, kind, 0]);
}

// Writes the tiles that are there twice, ascending. Answers the place behind them.
fn write_twos(counts: &[u8; 34], out: &mut [u8], at: usize) -> usize
    requires { at + length (twos (held counts.now)) ≤ length out.old }
    ensures { (result ≡ at + length (twos (held counts.now))) × (out.new ≡ sets out.old at (twos (held counts.now))) }
{
    let mut end = at;
    for t in 0..34u8 {
        if counts[t as usize] == 2 {
            out[end] = t;
            end += 1;
        }
    }
    end
}

// Writes the record of seven pairs. Answers the place behind it.
pub fn write_chiitoitsu(counts: &[u8; 34], out: &mut [u8], at: usize) -> usize
    requires { (is_pairs (held counts.now) ≡ true) × (at + 11 ≤ length out.old) }
    ensures { (result ≡ at + 11) × (out.new ≡ sets out.old at (records (seven_pairs (held counts.now)))) }
{
    write_head(11, 1, out, at);
    write_twos(counts, out, at + 4)
}

// Writes the record of thirteen orphans with the tile p doubled. Answers the place behind it.
pub fn write_kokushi(p: u8, out: &mut [u8], at: usize) -> usize
    requires { at + 5 ≤ length out.old }
    ensures { (result ≡ at + 5) × (out.new ≡ sets out.old at (record_of (orphans p))) }
{
    write_head(5, 2, out, at);
    out[at + 4] = p;
    at + 5
}
