// The parts of a reading's fu, and what they come to.
use crate::{print, text};
use std::io;

// Writes a part of the fu and what it is for.
fn say_part(rt: &impl Print, n: u8, what: &[u8]) -> io::Result<()> {
    text::say_number(rt, n as u64)?;
    text::say(rt, what)
}

// Writes a part that few wins have, if it is there.
fn say_part_if_any(rt: &impl Print, n: u8, what: &[u8]) -> io::Result<()> {
    if 0 < n {
        say_part(rt, n, what)?;
    }
    Ok(())
}

// Writes a meld that has fu, and how much. Answers whether nothing stands in the brackets yet.
fn say_meld_part(rt: &impl Print, m: meld::Meld, n: u8, first: bool) -> io::Result<bool> {
    if n == 0 {
        return Ok(first);
    }
    if first {
        text::say(rt, b" (")?;
    }
    text::say_comma(rt, first)?;
    print::say_tiles_of(rt, m)?;
    text::say_byte(rt, b' ')?;
    text::say_number(rt, n as u64)?;
    Ok(false)
}

// Writes which melds have fu, and how much, in brackets; nothing where none has.
fn say_melds(
    rt: &impl Print,
    h: structure::HandStructure,
    w: context::GameContext,
) -> io::Result<()> {
    let structure::HandStructure::Standard { pair: _, melds } = h else {
        return Ok(());
    };
    let mut first = true;
    for (i, m) in melds.iter().enumerate() {
        first = say_meld_part(rt, *m, explained::breakdown::meld_fu(h, w, i), first)?;
    }
    if !first {
        text::say(rt, b")")?;
    }
    Ok(())
}

// Writes why the rounding is 10, or why a tsumo has no fu, where it is so.
fn say_exception(
    rt: &impl Print,
    p: explained::breakdown::FuBreakdown,
    tsumo: bool,
) -> io::Result<()> {
    if p.rounding == 10 {
        text::say(rt, b" (an open hand has at least 30)")?;
    }
    if tsumo & (p.tsumo == 0) {
        text::say(rt, b" (pinfu by tsumo: none for the tsumo)")?;
    }
    Ok(())
}

// Writes the parts of a pair and four melds, and their sum, which is the fu.
fn say_standard(
    rt: &impl Print,
    p: explained::breakdown::FuBreakdown,
    h: structure::HandStructure,
    w: context::GameContext,
    fu: u8,
) -> io::Result<()> {
    say_part(rt, p.base, b" base + ")?;
    say_part_if_any(rt, p.menzen_ron, b" closed ron + ")?;
    say_part_if_any(rt, p.tsumo, b" tsumo + ")?;
    say_part(rt, p.melds, b" melds")?;
    say_melds(rt, h, w)?;
    text::say(rt, b" + ")?;
    say_part(rt, p.pair, b" pair + ")?;
    say_part(rt, p.wait, b" wait + ")?;
    say_part(rt, p.rounding, b" rounding = ")?;
    text::say_number(rt, fu as u64)?;
    say_exception(rt, p, w.is_tsumo())
}

// Writes the parts of the fu of a reading.
pub fn say_parts(
    rt: &impl Print,
    h: structure::HandStructure,
    w: context::GameContext,
    opened: bool,
    fu: u8,
) -> io::Result<()> {
    let p = explained::breakdown::fu_breakdown(h, w, opened);
    match h {
        structure::HandStructure::Standard { pair: _, melds: _ } => say_standard(rt, p, h, w, fu),
        structure::HandStructure::Chiitoitsu { pairs: _ } => say_part(
            rt,
            p.base,
            b" for seven pairs",
        ),
        structure::HandStructure::Kokushi { pair: _ } => {
            say_part(rt, p.base, b" for thirteen orphans")
        }
    }
}
