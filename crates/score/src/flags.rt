// What was said and does not count: flags, and indicators of ura.
use crate::hand_line;
use explained::flags::Uncounted;
use known_words::{Flag, Word};
use printed::text;
use std::io;

// Writes why a flag does not count.
fn say_reason(rt: &impl Print, why: Uncounted) -> io::Result<()> {
    match why {
        Uncounted::Open => text::say(rt, b"the hand is open"),
        Uncounted::NoRiichi => text::say(rt, b"there is no riichi"),
        Uncounted::ByRon => text::say(rt, b"the win is by ron"),
        Uncounted::ByTsumo => text::say(rt, b"the win is by tsumo"),
        Uncounted::Replacement => text::say(rt, b"the winning tile is the replacement of a kan"),
        Uncounted::NotDealer => text::say(rt, b"the winner is not the dealer"),
        Uncounted::Dealer => text::say(rt, b"the winner is the dealer"),
        Uncounted::Counts | Uncounted::NotSet => text::say(rt, b""),
    }
}

// Is it a reason not to count a flag that was said?
fn is_reason(why: Uncounted) -> bool {
    match why {
        Uncounted::Counts | Uncounted::NotSet => false,
        _ => true,
    }
}

// Writes that a flag does not count, and why; nothing where it counts or was not said.
fn say_flag(rt: &impl Print, w: context::GameContext, opened: bool, flag: Flag) -> io::Result<()> {
    let why = explained::flags::why_uncounted(w, opened, flag as usize);
    if !is_reason(why) {
        return Ok(());
    }
    text::say(rt, b"note:")?;
    hand_line::say_word(rt, Word::Flags(flag))?;
    text::say(rt, b" does not count: ")?;
    say_reason(rt, why)?;
    text::say_byte(rt, b'\n')
}

// Writes which flags do not count.
fn say_flags(rt: &impl Print, w: context::GameContext, opened: bool) -> io::Result<()> {
    for flag in Flag::ALL {
        say_flag(rt, w, opened, flag)?;
    }
    Ok(())
}

// Writes, where indicators of ura were said, that they do not count without riichi, or that they count with it though the hand is open.
fn say_ura(rt: &impl Print, w: context::GameContext, opened: bool) -> io::Result<()> {
    let ura = w.ura_dora_indicators;
    if ura.count == 0 {
        return Ok(());
    }
    if !w.is_riichi {
        text::say(rt, b"note: ura does not count: there is no riichi\n")?;
    } else if opened {
        text::say(
            rt,
            b"note: ura counts, as riichi was said, though the hand is open\n",
        )?;
    }
    Ok(())
}

// Writes what was said and does not count.
pub fn say_notes(rt: &impl Print, w: context::GameContext, opened: bool) -> io::Result<()> {
    say_flags(rt, w, opened)?;
    say_ura(rt, w, opened)
}
