// The hands of `play`, whose main says what the bytes of a record are.
ghost use Rattle.std.specs.Prelude.{◌<◌};

use crate::asked;
use crate::asked::{FILLED, Operation, Row, Tally, Values};
use std::io;

// Lists the readings of a record's hand, into room for every listing and one byte more.
fn list_hand<R: Print>(row: &mut Row<'_, R>, rec: &[u8; 1024]) -> io::Result<()> {
    let mut buf = [FILLED; hand::ALWAYS_ENOUGH + 1];
    let calls = asked::lent(usize::from(rec[162]));
    let a = lending::list(&rec[128..162], asked::five_at(rec, 163), calls, &mut buf);
    let agrees = (a.number == u32::from(rec[210]))
        & (a.readings == usize::from(rec[211]))
        & asked::same_records(&buf, a.readings, a.bytes);
    row.count(Operation::List, agrees)
}

// What the three operations on a win answer to a record's win and the reading with this number.
fn ask_hand(rec: &[u8; 1024], k: usize) -> lending::Asked {
    let calls = asked::lent(usize::from(rec[162]));
    let win = stored::win_at(rec, 175);
    lending::ask(&rec[128..162], asked::five_at(rec, 163), calls, win, k)
}

// Are these values this score?
fn is_scored(rec: &[u8; 1024], scored: stored::Scored, v: answers::ScoreValues) -> bool {
    let settlement = asked::settlement_of(0, stored::win_at(rec, 175));
    Values::from(v)
        == Values {
            number: 0,
            settlement,
            scored,
        }
}

// Are they a refusal with this number, and nothing else?
fn is_refused(number: u32, v: answers::ScoreValues) -> bool {
    (number != 0) & (Values::from(v) == Values::refused(number))
}

// Is the answer to a record's win the stored one?
fn same_win(rec: &[u8; 1024], v: answers::ScoreValues) -> bool {
    match stored::chosen_at(rec) {
        Some(Ok(scored)) => is_scored(rec, scored, v),
        Some(Err(number)) => is_refused(number, v),
        None => false,
    }
}

// Scores the win of a record, and the reading after the last, whose number is k and which is refused.
fn ask_next<R: Print>(row: &mut Row<'_, R>, rec: &[u8; 1024], k: usize) -> io::Result<()> {
    let a = ask_hand(rec, k);
    row.count(Operation::Win, same_win(rec, a.win))?;
    row.count(
        Operation::Reading,
        is_refused(u32::from(rec[215]), a.reading),
    )?;
    row.count(
        Operation::Waits,
        asked::same_waits([0; 6], rec[215], a.waits),
    )
}

// Scores reading number k of a record and names its waits, and asks level, points and payment of its score.
fn ask_reading<R: Print>(row: &mut Row<'_, R>, rec: &[u8; 1024], k: usize) -> io::Result<()>
    requires { k < 8 }
{
    let a = ask_hand(rec, k);
    let scored = is_scored(rec, stored::slot_at(rec, k), a.reading);
    row.count(Operation::Reading, scored)?;
    let slot = stored::slot(rec, k);
    let named = asked::same_waits(*stored::part(slot, 47), 0, a.waits);
    row.count(Operation::Waits, named)?;
    let win = stored::win_at(rec, 175);
    let (level, basic) = (stored::level_at(slot, 56), stored::u32_at(slot, 60));
    row.ask_level(stored::part(slot, 53), level, basic)?;
    row.ask_payment(stored::part(slot, 60), 0, win.seat_wind == 27, win.win_type)
}

// Plays a record of a hand.
fn play_hand<R: Print>(row: &mut Row<'_, R>, rec: &[u8; 1024]) -> io::Result<()> {
    let readings = usize::from(rec[214]);
    if readings > 8 {
        row.tally.answer(false);
        return Ok(());
    }
    list_hand(row, rec)?;
    for k in 0..readings {
        ask_reading(row, rec, k)?;
    }
    ask_next(row, rec, readings)
}

// Plays a record of han and fu, or of basic points.
fn play_points<R: Print>(row: &mut Row<'_, R>, rec: &[u8; 1024]) -> io::Result<()> {
    if rec[216] != 2 {
        row.ask_level(
            stored::part(rec, 217),
            stored::level_at(rec, 312),
            stored::u32_at(rec, 316),
        )?;
    }
    row.ask_payment(stored::part(rec, 316), rec[222], rec[221] == 1, rec[220])
}

// Plays a record. Its text names the row.
pub fn play<R: Print>(rt: &R, rec: &[u8; 1024], tally: &mut Tally) -> io::Result<()> {
    tally.record(true);
    let size = usize::from(rec[0]).min(127);
    let mut row = Row {
        rt,
        name: &rec[1..1 + size],
        tally,
    };
    if rec[216] == 0 {
        play_hand(&mut row, rec)
    } else {
        play_points(&mut row, rec)
    }
}
