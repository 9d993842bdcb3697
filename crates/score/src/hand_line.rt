// The hand as it was understood, in words that can be given again.
use crate::calls;
use known_words::{Flag, Word};
use notation::said::{Said, Won};
use printed::{print, text};
use std::io;

// Writes a known word, a space before it.
pub fn say_word(rt: &impl Print, word: Word) -> io::Result<()> {
    text::say_byte(rt, b' ')?;
    text::say(rt, word.text())
}

// Writes how it was won, and on which tile.
fn say_won(rt: &impl Print, won: Won) -> io::Result<()> {
    if won.tsumo {
        text::say(rt, b" tsumo ")?;
    } else {
        text::say(rt, b" ron ")?;
    }
    print::say_alike(rt, won.tile, 1)
}

// Writes the flags.
fn say_flags(rt: &impl Print, flags: [bool; 8]) -> io::Result<()> {
    for flag in Flag::ALL {
        if flags[flag as usize] {
            say_word(rt, Word::Flags(flag))?;
        }
    }
    Ok(())
}

// Writes that the room gives two fu for a pair that is both round and seat wind; for four there is nothing to say.
fn say_double_wind(rt: &impl Print, two: bool) -> io::Result<()> {
    if two {
        text::say(rt, b" double-wind-2")?;
    }
    Ok(())
}

// Writes that three play; where four do there is nothing to say.
fn say_game(rt: &impl Print, v: rules::Variant) -> io::Result<()> {
    match v {
        rules::Variant::Sanma => text::say(rt, b" three"),
        rules::Variant::Yonma => Ok(()),
    }
}

// Writes indicators behind their word, in their order; nothing where none is shown.
fn say_indicators(rt: &impl Print, word: &[u8], k: context::Indicators) -> io::Result<()> {
    let tiles = k.tiles;
    let count = k.count as usize;
    if count == 0 {
        return Ok(());
    }
    text::say(rt, word)?;
    for i in 0..10 {
        if i < count {
            print::say_alike(rt, tiles[i], 1)?;
        }
    }
    Ok(())
}

// Writes whether the hand is open.
fn say_opened(rt: &impl Print, k: checks::Calls) -> io::Result<()> {
    if win::is_opened(k) {
        text::say(rt, b"the hand is open\n")
    } else {
        text::say(rt, b"the hand is closed\n")
    }
}

// Are there more calls or indicators than are kept: four, and ten of each sort?
fn has_lost(s: Said) -> bool {
    let calls = s.calls;
    let dora = s.dora;
    let ura = s.ura;
    (4 < calls.count) | ((10 < dora.count) | (10 < ura.count))
}

// Writes the hand as it was understood, and what was assumed of its calls; nothing where a call or an indicator was not kept, as such a line could
// not be given again.
pub fn say_hand(rt: &impl Print, s: Said) -> io::Result<()> {
    let counts = s.counts;
    let k = s.calls;
    let flags = s.flags;
    let dora = s.dora;
    let ura = s.ura;
    if has_lost(s) {
        return Ok(());
    }
    text::say(rt, b"hand:")?;
    print::say_counts(rt, &counts)?;
    calls::say_calls(rt, k)?;
    if let Some(won) = s.won {
        say_won(rt, won)?;
    }
    text::say(rt, b" round ")?;
    text::say(rt, s.round_wind().name())?;
    text::say(rt, b" seat ")?;
    text::say(rt, s.seat_wind().name())?;
    say_flags(rt, flags)?;
    say_double_wind(rt, s.double_wind_two.unwrap_or(false))?;
    say_game(rt, s.game())?;
    say_indicators(rt, b" dora ", dora)?;
    say_indicators(rt, b" ura ", ura)?;
    text::say_byte(rt, b'\n')?;
    calls::say_assumed(rt, s)?;
    say_opened(rt, k)
}
