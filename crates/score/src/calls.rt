// The calls in words that can be given again, with whom they came from.
use crate::hand_line;
use known_words::{Asked, Word};
use notation::said::Said;
use printed::{print, text};
use std::io;

// The known word for the kind of a call.
fn word_of_kind(kind: u8) -> Word {
    match kind {
        1 => Word::Asks(Asked::Chi),
        3 => Word::Asks(Asked::Pon),
        5 => Word::Asks(Asked::Kan),
        4 => Word::Asks(Asked::ClosedKan),
        _ => Word::Asks(Asked::AddedKan),
    }
}

// Writes a call without whom it came from, a space before it.
fn say_tiles(rt: &impl Print, m: meld::Meld) -> io::Result<()> {
    hand_line::say_word(rt, word_of_kind(m.kind))?;
    text::say_byte(rt, b' ')?;
    print::say_tiles_of(rt, m)
}

// Can the call come from any of the others? A chi comes from the left alone, a closed kan from nobody.
fn is_from_any(m: meld::Meld) -> bool {
    m.is_open() & !m.is_sequence()
}

// Writes whom a call came from, as the words are taken: 1 for the right, 2 for across, 3 for the left.
fn say_source(rt: &impl Print, source: u8) -> io::Result<()> {
    match source {
        1 => text::say(rt, b" right"),
        2 => text::say(rt, b" across"),
        _ => text::say(rt, b" left"),
    }
}

// Writes a call, if it is there, and whom it came from where there is a choice.
fn say_call(rt: &impl Print, m: meld::Meld, there: bool) -> io::Result<()> {
    if !there {
        return Ok(());
    }
    say_tiles(rt, m)?;
    if is_from_any(m) {
        say_source(rt, m.source)?;
    }
    Ok(())
}

// Writes the calls, at most four.
pub fn say_calls(rt: &impl Print, k: checks::Calls) -> io::Result<()> {
    let melds = k.melds;
    let count = k.count;
    say_call(rt, melds[0], 0 < count)?;
    say_call(rt, melds[1], 1 < count)?;
    say_call(rt, melds[2], 2 < count)?;
    say_call(rt, melds[3], 3 < count)
}

// Writes a call, if it is there and it was not said whom it came from, though there is a choice. Answers whether nothing is written yet.
fn say_unsaid(
    rt: &impl Print,
    m: meld::Meld,
    there: bool,
    is_said: bool,
    first: bool,
) -> io::Result<bool> {
    if !there | (is_said | !is_from_any(m)) {
        return Ok(first);
    }
    if first {
        text::say(rt, b"assumed:")?;
    } else {
        text::say_byte(rt, b',')?;
    }
    say_tiles(rt, m)?;
    Ok(false)
}

// Writes which calls are taken as called from the left, as nothing was said of it.
pub fn say_assumed(rt: &impl Print, s: Said) -> io::Result<()> {
    let k = s.calls;
    let melds = k.melds;
    let count = k.count;
    let said = s.sourced;
    let mut first = say_unsaid(rt, melds[0], 0 < count, said[0], true)?;
    first = say_unsaid(rt, melds[1], 1 < count, said[1], first)?;
    first = say_unsaid(rt, melds[2], 2 < count, said[2], first)?;
    first = say_unsaid(rt, melds[3], 3 < count, said[3], first)?;
    if !first {
        text::say(rt, b" called from the left; say ")?;
        say_seats(rt, s.game())?;
        text::say(rt, b" behind a call; the score is the same\n")?;
    }
    Ok(())
}

// Writes the words for whom a call can come from: nobody sits across where three play.
fn say_seats(rt: &impl Print, v: rules::Variant) -> io::Result<()> {
    match v {
        rules::Variant::Sanma => text::say(rt, b"left or right"),
        rules::Variant::Yonma => text::say(rt, b"left, across or right"),
    }
}

// ---- calls that are not made in the game

// Writes a call behind those that are not made either. Answers that something stands there.
fn say_next(rt: &impl Print, m: meld::Meld, first: bool) -> io::Result<bool> {
    if first {
        text::say_byte(rt, b':')?;
    } else {
        text::say_byte(rt, b',')?;
    }
    say_tiles(rt, m)?;
    Ok(false)
}

// Writes a call, if it is there and is not made in the game, and why. Answers whether nothing is written yet.
fn say_if_not_made(
    rt: &impl Print,
    m: meld::Meld,
    there: bool,
    v: rules::Variant,
    first: bool,
) -> io::Result<bool> {
    if !there {
        return Ok(first);
    }
    if m.is_sequence() & !v.allows_chi() {
        let next = say_next(rt, m, first)?;
        text::say(rt, b" (there is no chi)")?;
        return Ok(next);
    }
    if v.in_wall(m.tile) {
        return Ok(first);
    }
    let next = say_next(rt, m, first)?;
    text::say(rt, b" (there is no ")?;
    print::say_alike(rt, m.tile, 1)?;
    text::say_byte(rt, b')')?;
    Ok(next)
}

// Writes which calls are not made in the game, and why.
pub fn say_not_made(rt: &impl Print, k: checks::Calls, v: rules::Variant) -> io::Result<()> {
    let melds = k.melds;
    let count = k.count;
    let mut first = say_if_not_made(rt, melds[0], 0 < count, v, true)?;
    first = say_if_not_made(rt, melds[1], 1 < count, v, first)?;
    first = say_if_not_made(rt, melds[2], 2 < count, v, first)?;
    say_if_not_made(rt, melds[3], 3 < count, v, first)?;
    Ok(())
}
