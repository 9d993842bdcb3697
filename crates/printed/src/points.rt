// Waits, yaku, dora, han, fu, levels and payments.
ghost use Rattle.std.specs.Prelude.{◌<◌};

use crate::{names, parts, text};
use std::io;

// Writes the entry of a wait, if it has a tally. Answers whether nothing stands in the list yet.
fn say_wait(rt: &impl Print, i: usize, tally: u8, first: bool) -> io::Result<bool>
    requires { i < 6 }
{
    if tally == 0 {
        return Ok(first);
    }
    text::say_comma(rt, first)?;
    names::say_wait(rt, i, tally)?;
    Ok(false)
}

// Writes the waits.
fn say_waits(rt: &impl Print, tallies: [u8; 6]) -> io::Result<()> {
    let mut first = true;
    for (i, tally) in tallies.iter().enumerate() {
        first = say_wait(rt, i, *tally, first)?;
    }
    text::say_none(rt, first)
}

// Writes the entry of a yaku, if it has a tally. Answers whether nothing stands in the list yet.
fn say_yaku(rt: &impl Print, i: usize, tally: u8, opened: bool, first: bool) -> io::Result<bool>
    requires { i < 47 }
{
    if tally == 0 {
        return Ok(first);
    }
    text::say_comma(rt, first)?;
    names::say_yaku(rt, i, tally, opened)?;
    Ok(false)
}

// Writes the yaku.
fn say_all_yaku(rt: &impl Print, tallies: [u8; 47], opened: bool) -> io::Result<()> {
    let mut first = true;
    for (i, tally) in tallies.iter().enumerate() {
        first = say_yaku(rt, i, *tally, opened, first)?;
    }
    text::say_none(rt, first)
}

// Writes han, fu and level.
pub fn say_worth(rt: &impl Print, x: reading_score::ScoringResult) -> io::Result<()> {
    let level = x.score_level;
    text::say_number(rt, x.han as u64)?;
    text::say(rt, b" han ")?;
    text::say_number(rt, x.fu as u64)?;
    text::say(rt, b" fu, ")?;
    names::say_level(rt, level)
}

// Writes what each of the others pays to the dealer who won by tsumo.
fn say_dealer_tsumo(rt: &impl Print, from_each: u32, v: rules::Variant) -> io::Result<()> {
    match v {
        rules::Variant::Yonma => text::say(rt, b"each of the three others pays ")?,
        rules::Variant::Sanma => text::say(rt, b"each of the two others pays ")?,
    }
    text::say_points(rt, from_each as u64)
}

// Writes what the dealer and the others pay to another player who won by tsumo: two others with four players, one with three.
fn say_tsumo(
    rt: &impl Print,
    from_dealer: u32,
    from_non_dealer: u32,
    v: rules::Variant,
) -> io::Result<()> {
    text::say(rt, b"the dealer pays ")?;
    text::say_points(rt, from_dealer as u64)?;
    match v {
        rules::Variant::Yonma => {
            text::say(rt, b", the two others ")?;
            text::say_points(rt, from_non_dealer as u64)?;
            text::say(rt, b" each")
        }
        rules::Variant::Sanma => {
            text::say(rt, b" and the other ")?;
            text::say_points(rt, from_non_dealer as u64)
        }
    }
}

// Writes who pays what.
fn say_payers(rt: &impl Print, p: scoring::Payment, v: rules::Variant) -> io::Result<()> {
    match p {
        scoring::Payment::Ron { from_discarder } => {
            text::say(rt, b"the discarder pays ")?;
            text::say_points(rt, from_discarder as u64)
        }
        scoring::Payment::DealerTsumo { from_each } => say_dealer_tsumo(rt, from_each, v),
        scoring::Payment::Tsumo {
            from_dealer,
            from_non_dealer,
        } => say_tsumo(rt, from_dealer, from_non_dealer, v),
    }
}

// Writes who pays what, and the total at the table of the game.
pub fn say_payment(rt: &impl Print, p: scoring::Payment, v: rules::Variant) -> io::Result<()> {
    say_payers(rt, p, v)?;
    text::say(rt, b", total ")?;
    text::say_points(rt, p.total(v))
}

// Has the reading a yaku?
pub fn has_yaku(x: reading_score::ScoringResult) -> bool {
    let tallies = x.tallies;
    lists::any_above_zero(&tallies)
}

// Writes the yaku of a reading; beside a yakuman no other yaku counts.
fn say_yaku_of(rt: &impl Print, x: reading_score::ScoringResult, opened: bool) -> io::Result<()> {
    let tallies = x.tallies;
    text::say(rt, b"  yaku: ")?;
    say_all_yaku(rt, tallies, opened)?;
    if x.is_yakuman {
        text::say(rt, b" (beside a yakuman no other yaku counts)")?;
    }
    text::say(rt, b"\n")
}

// Writes how many dora of a sort there are, if any, and that they are han where they count. Answers whether nothing stands in the list yet.
fn say_dora(rt: &impl Print, name: &[u8], n: u8, counts: bool, first: bool) -> io::Result<bool> {
    if n == 0 {
        return Ok(first);
    }
    text::say_comma(rt, first)?;
    text::say(rt, name)?;
    text::say_number(rt, n as u64)?;
    if counts {
        text::say(rt, b" han")?;
    }
    Ok(false)
}

// Has the reading a dora of either sort?
fn has_dora(x: reading_score::ScoringResult) -> bool {
    let dora = x.dora;
    (0 < dora.regular) | (0 < dora.ura)
}

// Writes the dora of a reading, if it has any; beside a yakuman none counts.
fn say_dora_of(rt: &impl Print, x: reading_score::ScoringResult) -> io::Result<()> {
    let dora = x.dora;
    if !has_dora(x) {
        return Ok(());
    }
    text::say(rt, b"  dora: ")?;
    let first = say_dora(rt, b"Dora ", dora.regular, !x.is_yakuman, true)?;
    say_dora(rt, b"Ura Dora ", dora.ura, !x.is_yakuman, first)?;
    if x.is_yakuman {
        text::say(rt, b" (beside a yakuman no dora counts)")?;
    }
    text::say(rt, b"\n")
}

// Writes that a reading without a yaku cannot win, with dora neither.
fn say_no_yaku(rt: &impl Print, x: reading_score::ScoringResult) -> io::Result<()> {
    text::say(rt, b"  no yaku: cannot win")?;
    if has_dora(x) {
        text::say(rt, b" (dora alone is no yaku)")?;
    }
    text::say(rt, b"\n")
}

// Writes what a reading with a yaku is worth, and who pays it.
fn say_worth_of(
    rt: &impl Print,
    x: reading_score::ScoringResult,
    v: rules::Variant,
) -> io::Result<()> {
    let payment = x.payment;
    text::say(rt, b"  score: ")?;
    say_worth(rt, x)?;
    text::say(rt, b", basic points ")?;
    text::say_points(rt, x.basic_points as u64)?;
    text::say(rt, b"\n  payment: ")?;
    say_payment(rt, payment, v)?;
    text::say(rt, b"\n")
}

// Writes the waits, the yaku, the dora, the fu in its parts and the worth of a reading; of one without a yaku that it cannot win.
pub fn say_score(
    rt: &impl Print,
    x: reading_score::ScoringResult,
    waits: [u8; 6],
    h: structure::HandStructure,
    w: context::GameContext,
    opened: bool,
    v: rules::Variant,
) -> io::Result<()> {
    text::say(rt, b"  waits: ")?;
    say_waits(rt, waits)?;
    text::say(rt, b"\n")?;
    say_yaku_of(rt, x, opened)?;
    say_dora_of(rt, x)?;
    text::say(rt, b"  fu: ")?;
    parts::say_parts(rt, h, w, opened, x.fu)?;
    text::say(rt, b"\n")?;
    if has_yaku(x) {
        say_worth_of(rt, x, v)
    } else {
        say_no_yaku(rt, x)
    }
}
