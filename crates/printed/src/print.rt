// Tiles, melds and readings in the notation of the words.
ghost use Rattle.std.specs.Prelude.{◌≤◌};

use crate::text;
use std::io;

// The number of a tile in its suit; of an honor, from East on.
fn number_of(t: u8) -> u8 {
    if t < 27 {
        return t % 9 + 1;
    }
    t - 26
}

// The letter of a tile's suit.
fn letter_of(t: u8) -> u8 {
    if t < 9 {
        return b'm';
    }
    if t < 18 {
        return b'p';
    }
    if t < 27 {
        return b's';
    }
    b'z'
}

// Writes a number so many times.
fn say_times(rt: &impl Print, n: u8, times: u8) -> io::Result<()> {
    for _ in 0..times {
        text::say_number(rt, n as u64)?;
    }
    Ok(())
}

// Writes tiles of a kind, as 88s.
pub fn say_alike(rt: &impl Print, t: u8, times: u8) -> io::Result<()> {
    say_times(rt, number_of(t), times)?;
    text::say_byte(rt, letter_of(t))
}

// Writes a sequence, as 234m.
fn say_sequence(rt: &impl Print, t: u8) -> io::Result<()> {
    let n = number_of(t) as u64;
    text::say_number(rt, n)?;
    text::say_number(rt, n + 1)?;
    text::say_number(rt, n + 2)?;
    text::say_byte(rt, letter_of(t))
}

// Writes the tiles of a meld.
pub fn say_tiles_of(rt: &impl Print, m: meld::Meld) -> io::Result<()> {
    if m.is_sequence() {
        return say_sequence(rt, m.tile);
    }
    if m.is_kan() {
        return say_alike(rt, m.tile, 4);
    }
    say_alike(rt, m.tile, 3)
}

// Writes a meld: an open one in round brackets, a closed kan in square ones.
fn say_meld(rt: &impl Print, m: meld::Meld) -> io::Result<()> {
    if m.is_open() {
        text::say_byte(rt, b'(')?;
        say_tiles_of(rt, m)?;
        return text::say_byte(rt, b')');
    }
    if m.is_kan() {
        text::say_byte(rt, b'[')?;
        say_tiles_of(rt, m)?;
        return text::say_byte(rt, b']');
    }
    say_tiles_of(rt, m)
}

// Writes the numbers of the tiles from one up to another.
fn say_numbers(rt: &impl Print, counts: &[u8; 34], from: u8, end: u8) -> io::Result<()>
    requires { end ≤ 34 }
{
    for t in from..end {
        say_times(rt, number_of(t), counts[t as usize])?;
    }
    Ok(())
}

// Writes the tiles of a suit, which reach from one up to another, a space before them; nothing where there are none.
fn say_suit(rt: &impl Print, counts: &[u8; 34], from: u8, end: u8) -> io::Result<()>
    requires { end ≤ 34 }
{
    if hand::sum_range(counts, from as usize, end as usize) == 0 {
        return Ok(());
    }
    text::say_byte(rt, b' ')?;
    say_numbers(rt, counts, from, end)?;
    text::say_byte(rt, letter_of(from))
}

// Writes the tiles that the counts hold.
pub fn say_counts(rt: &impl Print, counts: &[u8; 34]) -> io::Result<()> {
    say_suit(rt, counts, 0, 9)?;
    say_suit(rt, counts, 9, 18)?;
    say_suit(rt, counts, 18, 27)?;
    say_suit(rt, counts, 27, 34)
}

// Writes a pair and four melds.
fn say_standard(rt: &impl Print, pair: u8, melds: [meld::Meld; 4]) -> io::Result<()> {
    say_meld(rt, melds[0])?;
    text::say_byte(rt, b' ')?;
    say_meld(rt, melds[1])?;
    text::say_byte(rt, b' ')?;
    say_meld(rt, melds[2])?;
    text::say_byte(rt, b' ')?;
    say_meld(rt, melds[3])?;
    text::say(rt, b", pair ")?;
    say_alike(rt, pair, 2)
}

// Writes seven pairs.
fn say_pairs(rt: &impl Print, pairs: [u8; 7]) -> io::Result<()> {
    for i in 0..7 {
        text::say_byte(rt, b' ')?;
        say_alike(rt, pairs[i], 2)?;
    }
    Ok(())
}

// Writes a reading.
pub fn say_reading(rt: &impl Print, h: structure::HandStructure) -> io::Result<()> {
    match h {
        structure::HandStructure::Standard { pair, melds } => say_standard(rt, pair.0, melds),
        structure::HandStructure::Chiitoitsu { pairs } => {
            text::say(rt, b"seven pairs")?;
            say_pairs(rt, pairs)
        }
        structure::HandStructure::Kokushi { pair } => {
            text::say(rt, b"thirteen orphans, pair ")?;
            say_alike(rt, pair.0, 2)
        }
    }
}
