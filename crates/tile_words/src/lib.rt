// Words of tiles, as 222333444m567p88s or ew: numbers, and behind them the letter of their suit, or letters of honors, in any case.
#![tactic(auto)]

ghost use Rattle.std.specs.Prelude.{◌≡◌, ℕ, ◌+◌, ◌<◌, ◌≤◌, length, drop, get_or, eqb, is_ok, IfErr};
ghost use Rattle.lists.specs.Fold.{one};
ghost use Rattle.hand.specs.Counts.{held};
ghost use Rattle.tile_words.specs.Chars.{below};
ghost use Rattle.tile_words.specs.Words.{leading, behind, suit_after, read_at, tiles_in, named_in, add_to, Counted, is_good, good_length, char_before, is_good_word, fault_place};

pub mod chars;

// What can be wrong with a word of tiles.
#[derive(Clone, Copy, PartialEq, Eq)]
pub enum Fault {
    // a character that is no number, suit or honor
    NoLetter,
    // numbers with no suit behind them
    NoSuit,
    // m, p or z without numbers before it
    BareSuit,
    // 0z, 8z or 9z
    NoHonor,
    // a red five: 0m, 0p or 0s
    RedFive,
}

// What is wrong with a word of tiles, and the place of the character at fault.
#[derive(Clone, Copy, PartialEq, Eq)]
pub struct BadTiles {
    pub fault: Fault,
    pub at: usize,
}

// ---- the characters of a word

// The character at a place of a word. Past its end it is 0, which names nothing, as in the definitions.
fn char_at(word: &[u8], i: usize) -> u8
    ensures { result ≡ get_or word.now i 0 }
{
    word.get(i).copied().unwrap_or(0)
}

// The character before a place of a word; 0 before the first.
fn char_before(word: &[u8], i: usize) -> u8
    ensures { result ≡ char_before word.now i }
{
    if i == 0 {
        return 0;
    }
    char_at(word, i - 1)
}

// How many numbers a text begins with.
fn leading(text: &[u8]) -> usize
    ensures value { result ≡ leading text.now }
    ensures within { result ≤ length text.now }
{
    text.iter().take_while(|c| chars::is_number(**c)).count()
}

// The first character of a text that is no number; 0 where there is none.
fn behind(text: &[u8]) -> u8
    ensures { result ≡ behind text.now }
{
    char_at(text, leading(text))
}

// The suit of the numbers that a text begins with: that of the first character behind them.
fn suit_after(text: &[u8]) -> Option<u8>
    ensures { result ≡ below 4 (suit_after text.now) }
{
    chars::suit_of(behind(text))
}

// ---- the tiles of a word

// The tile that a text names with its first character, behind the one before it.
fn first_tile(before: u8, text: &[u8]) -> Option<u8>
    ensures { result ≡ below 34 (read_at before text.now) }
{
    let (c, rest) = text.split_first()?;
    if chars::is_number(*c) {
        return chars::tile_of(*c, suit_after(rest)?);
    }
    if chars::is_number(before) {
        return None;
    }
    chars::honor_of(*c, char_at(rest, 0))
}

// The tile that a word names at a place.
pub fn tile_at(word: &[u8], i: usize) -> Option<u8>
    ensures { result ≡ below 34 (read_at (char_before word.now i) (drop i word.now)) }
{
    let (_, text) = word.split_at_checked(i)?;
    first_tile(char_before(word, i), text)
}

// How many tiles a word names. Each is read by its place, as it depends on the characters beside it.
pub fn named_in(word: &[u8]) -> usize
    ensures { result ≡ named_in word.now }
{
    let mut n = 0;
    for i in 0..word.len() {
        n += usize::from(tile_at(word, i).is_some());
    }
    n
}

// Counts the tile that a word names at a place, up to 255 of a kind.
fn add_tile_at(counts: &mut [u8; 34], word: &[u8], i: usize)
    ensures { (length counts.new ≡ 34) × ((u : ℕ) → u < 34 → held counts.new u ≡ add_to (held counts.old u) (one (eqb u (read_at (char_before word.now i) (drop i word.now))))) }
{
    if let Some(t) = tile_at(word, i) {
        counts[t as usize] = counts[t as usize].saturating_add(1);
    }
}

// Counts the tiles that a word names, up to 255 of a kind.
pub fn add_tiles(counts: &mut [u8; 34], word: &[u8])
    ensures { (length counts.new ≡ 34) × Counted counts.old (tiles_in word.now) counts.new }
{
    for i in 0..word.len() {
        add_tile_at(counts, word, i);
    }
}

// ---- what is wrong with a word

// Is the character at a place good: does it name a tile, or is it good behind the one before it?
fn is_good_at(word: &[u8], i: usize) -> bool
    requires { i < length word.now }
    ensures { result ≡ is_good (char_before word.now i) (drop i word.now) }
{
    tile_at(word, i).is_some() | chars::is_silent(char_before(word, i), word[i])
}

// How many good characters a word begins with.
fn good_length(word: &[u8]) -> usize
    ensures good { result ≡ good_length 0 word.now }
    ensures within { result ≤ length word.now }
{
    for i in 0..word.len() {
        if !is_good_at(word, i) {
            return i;
        }
    }
    word.len()
}

// What is wrong with a number that names no tile, by the first character behind it that is none. In man, pin and sou only 0 names none.
fn fault_of_number(next: u8) -> Fault {
    if chars::is_strange(next) {
        return Fault::NoLetter;
    }
    match chars::suit_of(next) {
        Some(3) => Fault::NoHonor,
        Some(_) => Fault::RedFive,
        None => Fault::NoSuit,
    }
}

// What is wrong with a letter that is not good.
fn fault_of_letter(c: u8) -> Fault {
    match chars::suit_of(c) {
        Some(_) => Fault::BareSuit,
        None => Fault::NoLetter,
    }
}

// What is wrong with a text that begins with a character that is not good.
fn fault_of(text: &[u8]) -> Fault {
    match text {
        [c, ..] if !chars::is_number(*c) => fault_of_letter(*c),
        _ => fault_of_number(behind(text)),
    }
}

// The place of the character at fault in a word of tiles; the word's length where it is good. A strange character behind numbers is at fault, else the
// first that is not good.
pub fn fault_place(word: &[u8]) -> usize
    ensures { result ≡ fault_place word.now }
{
    let i = good_length(word);
    let next = i + leading(&word[i..]);
    if chars::is_strange(char_at(word, next)) {
        return next;
    }
    i
}

// Is each character of the word good? Else the first fault, and the place of the character at fault.
pub fn check_tiles(word: &[u8]) -> Result<(), BadTiles>
    ensures good { is_ok result ≡ is_good_word word.now }
    ensures place { IfErr result (λ bad. bad.at ≡ fault_place word.now) }
{
    let i = good_length(word);
    if word.len() <= i {
        return Ok(());
    }
    Err(BadTiles {
        fault: fault_of(&word[i..]),
        at: fault_place(word),
    })
}
