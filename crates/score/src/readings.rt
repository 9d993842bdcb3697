// The readings, what each is worth, and why one of them is chosen.
ghost use Rattle.std.specs.Prelude.{◌≤◌, ◌<◌};

use explained::decided::Decided;
use printed::{points, print, text};
use std::io;

// The number of the chosen reading; 3,001 where none is chosen, as no hand has so many.
fn chosen_of(scored: choice::ScoreAnswer) -> usize {
    if scored.number == 0 {
        return scored.reading;
    }
    3001
}

// The score of a reading.
fn score_of(
    i: usize,
    counts: &[u8; 34],
    k: checks::Calls,
    w: context::GameContext,
    v: rules::Variant,
) -> reading_score::ScoringResult {
    let scored = win::score_reading_in(counts, k, w, v, i);
    scored.score
}

// Writes the number of a reading, and whether it is the chosen one.
fn say_which(rt: &impl Print, i: usize, chosen: usize) -> io::Result<()> {
    text::say(rt, b"reading ")?;
    text::say_number(rt, i as u64)?;
    if i == chosen {
        text::say(rt, b" (chosen)")?;
    }
    Ok(())
}

// Writes a reading with its waits and its score.
fn say_reading(
    rt: &impl Print,
    h: structure::HandStructure,
    i: usize,
    chosen: usize,
    counts: &[u8; 34],
    k: checks::Calls,
    w: context::GameContext,
    v: rules::Variant,
) -> io::Result<()> {
    let named = win::name_waits_in(counts, k, w, v, i);
    let waits = named.waits;
    text::say_byte(rt, b'\n')?;
    say_which(rt, i, chosen)?;
    text::say(rt, b": ")?;
    print::say_reading(rt, h)?;
    text::say_byte(rt, b'\n')?;
    points::say_score(
        rt,
        score_of(i, counts, k, w, v),
        waits,
        h,
        w,
        win::is_opened(k),
        v,
    )
}

// Writes all readings with their scores. Their records stand one behind the other.
fn say_readings(
    rt: &impl Print,
    records: &[u8],
    n: usize,
    chosen: usize,
    counts: &[u8; 34],
    k: checks::Calls,
    w: context::GameContext,
    v: rules::Variant,
) -> io::Result<()>
    requires { n ≤ 3000 }
{
    for i in 0..n {
        let h = records::reading_at(records, records::place_of(records, i));
        say_reading(rt, h, i, chosen, counts, k, w, v)?;
    }
    Ok(())
}

// Writes what one reading pays in all, or that it has no yaku.
fn say_total(
    rt: &impl Print,
    i: usize,
    chosen: usize,
    counts: &[u8; 34],
    k: checks::Calls,
    w: context::GameContext,
    v: rules::Variant,
) -> io::Result<()> {
    let score = score_of(i, counts, k, w, v);
    let payment = score.payment;
    text::say_comma(rt, i == 0)?;
    if points::has_yaku(score) {
        text::say_points(rt, payment.total(v))?;
        text::say(rt, b" by ")?;
    } else {
        text::say(rt, b"no yaku in ")?;
    }
    say_which(rt, i, chosen)
}

// Writes what each reading pays in all.
fn say_totals(
    rt: &impl Print,
    n: usize,
    chosen: usize,
    counts: &[u8; 34],
    k: checks::Calls,
    w: context::GameContext,
    v: rules::Variant,
) -> io::Result<()> {
    text::say(rt, b"totals: ")?;
    for i in 0..n {
        say_total(rt, i, chosen, counts, k, w, v)?;
    }
    text::say_byte(rt, b'\n')
}

// Writes the rule that decided between two readings.
fn say_decided(rt: &impl Print, by: Decided) -> io::Result<()> {
    match by {
        Decided::Total => text::say(rt, b" by the total"),
        Decided::Yakuman => text::say(rt, b" as a yakuman"),
        Decided::Han => text::say(rt, b" by han"),
        Decided::Fu => text::say(rt, b" by fu"),
        Decided::Order => text::say(rt, b" as the earlier of equals"),
    }
}

// Writes why the chosen reading comes before another one, if that has a yaku. Answers whether nothing stands in the list yet.
fn say_before(
    rt: &impl Print,
    i: usize,
    x: reading_score::ScoringResult,
    best: reading_score::ScoringResult,
    v: rules::Variant,
    first: bool,
) -> io::Result<bool> {
    if !points::has_yaku(x) {
        return Ok(first);
    }
    if first {
        text::say(rt, b"chosen:")?;
    } else {
        text::say(rt, b",")?;
    }
    text::say(rt, b" before reading ")?;
    text::say_number(rt, i as u64)?;
    say_decided(rt, explained::decided::decided_by(x, best, v))?;
    Ok(false)
}

// Writes why the chosen reading comes before each other one with a yaku; nothing where it alone has one.
fn say_why(
    rt: &impl Print,
    n: usize,
    chosen: usize,
    best: reading_score::ScoringResult,
    counts: &[u8; 34],
    k: checks::Calls,
    w: context::GameContext,
    v: rules::Variant,
) -> io::Result<()> {
    let mut first = true;
    for i in 0..n {
        if i != chosen {
            first = say_before(rt, i, score_of(i, counts, k, w, v), best, v, first)?;
        }
    }
    if !first {
        text::say_byte(rt, b'\n')?;
    }
    Ok(())
}

// Writes all readings of a hand that passes the checks; where there are several, their totals side by side, and why one is chosen.
pub fn say_all(
    rt: &impl Print,
    counts: &[u8; 34],
    k: checks::Calls,
    w: context::GameContext,
    v: rules::Variant,
    scored: choice::ScoreAnswer,
) -> io::Result<()> {
    let Ok(hand) = checks::check_hand(counts, k, v) else {
        return Ok(());
    };
    let chosen = chosen_of(scored);
    let mut buffer = [0u8; hand::ALWAYS_ENOUGH];
    let n = unit::write_all(hand, &mut buffer);
    say_readings(rt, &buffer, n, chosen, counts, k, w, v)?;
    text::say_byte(rt, b'\n')?;
    if 1 < n {
        say_totals(rt, n, chosen, counts, k, w, v)?;
    }
    if scored.number == 0 {
        let best = scored.score;
        say_why(rt, n, chosen, best, counts, k, w, v)?;
    }
    Ok(())
}
