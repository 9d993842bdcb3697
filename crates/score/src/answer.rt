// The answer of scoring the win: the score of the chosen reading, or what the hand lacks.
ghost use Rattle.std.specs.Prelude.{◌<◌};

use crate::calls;
use printed::{names, points, print, text};
use std::io;

// How many of a tile a call holds, if it is there.
fn used(m: meld::Meld, there: bool, t: u8) -> u64
    ensures { result < 256 }
{
    if there {
        return u64::from(m.uses(t));
    }
    0
}

// How many of a tile the calls hold.
fn called(k: checks::Calls, t: u8) -> u64
    ensures { result < 1024 }
{
    let melds = k.melds;
    let count = k.count;
    used(melds[0], 0 < count, t)
        + used(melds[1], 1 < count, t)
        + used(melds[2], 2 < count, t)
        + used(melds[3], 3 < count, t)
}

// How many of a tile hand and calls hold, from how many the hand holds.
fn held(count: u8, k: checks::Calls, t: u8) -> u64 {
    u64::from(count) + called(k, t)
}

// How many of a tile there are: four, or none where it is not in the wall.
fn most(t: u8, v: rules::Variant) -> u64 {
    if v.in_wall(t) { 4 } else { 0 }
}

// The lowest tile of which hand and calls hold more than there are; 34 where there is none.
fn above_most(counts: &[u8; 34], k: checks::Calls, v: rules::Variant) -> u8 {
    let mut t = 0;
    while t < 34 {
        if most(t, v) < held(counts[t as usize], k, t) {
            return t;
        }
        t += 1;
    }
    34
}

// Writes which tile is there too often: more than four times, or at all where there is none in the game.
fn say_above_most(
    rt: &impl Print,
    counts: &[u8; 34],
    k: checks::Calls,
    v: rules::Variant,
) -> io::Result<()> {
    let t = above_most(counts, k, v);
    if 34 <= t {
        return Ok(());
    }
    text::say(rt, b": ")?;
    if !v.in_wall(t) {
        text::say(rt, b"there is no ")?;
        return print::say_alike(rt, t, 1);
    }
    print::say_alike(rt, t, 1)?;
    text::say(rt, b" is there ")?;
    text::say_number(rt, held(counts[t as usize], k, t))?;
    text::say(rt, b" times")
}

// No calls, in place of those that were made.
fn without_calls(mut k: checks::Calls) -> checks::Calls {
    k.count = 0;
    k
}

// Writes how many calls there are.
fn say_call_count(rt: &impl Print, n: usize) -> io::Result<()> {
    text::say_number(rt, n as u64)?;
    if n == 1 {
        text::say(rt, b" call")
    } else {
        text::say(rt, b" calls")
    }
}

// Writes how many tiles there are and how many are needed, beside at most four calls.
fn say_sizes(rt: &impl Print, counts: &[u8; 34], count: usize) -> io::Result<()> {
    if 4 < count {
        return Ok(());
    }
    text::say(rt, b": ")?;
    text::say_number(rt, hand::sum_range(counts, 0, 34))?;
    text::say(rt, b" tiles; with ")?;
    say_call_count(rt, count)?;
    text::say_byte(rt, b' ')?;
    text::say_number(rt, (14 - 3 * count) as u64)?;
    text::say(
        rt,
        b" are needed, the winning tile among them, called tiles not",
    )
}

// Writes which winning tile the hand does not hold.
fn say_not_held(rt: &impl Print, t: u8) -> io::Result<()> {
    text::say(rt, b": ")?;
    print::say_alike(rt, t, 1)?;
    text::say(
        rt,
        b" is to be typed among its tiles too; tiles of calls do not count",
    )
}

// Writes how many indicators of a sort there are, where they are more than ten; they are counted up to 255. Answers whether nothing is written yet.
fn say_above_ten(rt: &impl Print, count: u8, sort: &[u8], first: bool) -> io::Result<bool> {
    if count <= 10 {
        return Ok(first);
    }
    if first {
        text::say(rt, b": ")?;
    }
    text::say_comma(rt, first)?;
    text::say_number(rt, count as u64)?;
    if count == 255 {
        text::say(rt, b" or more")?;
    }
    text::say(rt, sort)?;
    Ok(false)
}

// Writes of which indicators there are more than ten.
fn say_indicator_counts(rt: &impl Print, w: context::GameContext) -> io::Result<()> {
    let dora = w.dora_indicators;
    let ura = w.ura_dora_indicators;
    let first = say_above_ten(rt, dora.count, b" of dora", true)?;
    say_above_ten(rt, ura.count, b" of ura", first)?;
    Ok(())
}

// Writes what exactly is wrong, behind the meaning of a refusal.
fn say_detail(
    rt: &impl Print,
    number: u8,
    counts: &[u8; 34],
    k: checks::Calls,
    w: context::GameContext,
    v: rules::Variant,
) -> io::Result<()> {
    match number {
        2 => {
            text::say(rt, b": ")?;
            say_call_count(rt, k.count)
        }
        3 => calls::say_not_made(rt, k, v),
        4 => say_above_most(rt, counts, without_calls(k), v),
        5 => say_above_most(rt, counts, k, v),
        6 => say_sizes(rt, counts, k.count),
        9 => say_not_held(rt, w.winning_tile),
        10 => text::say(
            rt,
            b": no four melds and a pair, no seven different pairs, no thirteen orphans",
        ),
        14 => say_indicator_counts(rt, w),
        _ => text::say(rt, b""),
    }
}

// Writes a refusal.
pub fn say_refused(
    rt: &impl Print,
    number: u8,
    counts: &[u8; 34],
    k: checks::Calls,
    w: context::GameContext,
    v: rules::Variant,
) -> io::Result<()> {
    text::say(rt, b"answer: refused with ")?;
    text::say_number(rt, number as u64)?;
    text::say(rt, b": ")?;
    names::say_refusal(rt, number, v)?;
    say_detail(rt, number, counts, k, w, v)?;
    text::say(rt, b"\n")
}

// Writes the answer of scoring the win.
pub fn say_answer(
    rt: &impl Print,
    scored: choice::ScoreAnswer,
    v: rules::Variant,
) -> io::Result<()> {
    let score = scored.score;
    let payment = score.payment;
    text::say(rt, b"answer: reading ")?;
    text::say_number(rt, scored.reading as u64)?;
    text::say(rt, b", ")?;
    points::say_worth(rt, score)?;
    text::say(rt, b", ")?;
    points::say_payment(rt, payment, v)?;
    text::say(rt, b"\n")
}
