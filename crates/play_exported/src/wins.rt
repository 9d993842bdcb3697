// Wins of `replay_wins`, whose main says what the bytes of a record are.
ghost use Rattle.std.specs.Prelude.{◌+◌, ◌≤◌};

use crate::asked;
use crate::asked::{FILLED, Operation, Row, Tally, Values};
use std::io;

// The answer of a record at a place: its number, that of the reading, and the score.
fn answer_at(rec: &[u8; 256], at: usize) -> Values
    requires { at + 76 ≤ 256 }
{
    Values {
        number: u32::from(rec[at]),
        settlement: asked::settlement_of(rec[at], stored::win_at(rec, 55)),
        scored: stored::scored_at(rec, at + 1),
    }
}

// Lists the hand of a win: refused with 1 to 6 like the win, else accepted, and without a reading where the win is refused with 10.
fn list_win<R: Print>(row: &mut Row<'_, R>, rec: &[u8; 256], counts: &[u8]) -> io::Result<()> {
    let mut buf = [FILLED; hand::ALWAYS_ENOUGH + 1];
    let calls = asked::lent(stored::u16_at(rec, 41));
    let a = lending::list(counts, asked::five_at(rec, 43), calls, &mut buf);
    let none = a.readings == 0;
    let agrees = match rec[92] {
        1..=6 => (a.number == u32::from(rec[92])) & none,
        8 | 9 | 14 => a.number == 0,
        number => (a.number == 0) & ((number == 10) == none),
    };
    row.count(
        Operation::List,
        agrees & asked::same_records(&buf, a.readings, a.bytes),
    )
}

// Asks the three operations on a win.
fn ask_win<R: Print>(row: &mut Row<'_, R>, rec: &[u8; 256], counts: &[u8]) -> io::Result<()> {
    let calls = asked::lent(stored::u16_at(rec, 41));
    let win = stored::win_at(rec, 55);
    let reading = stored::u16_at(rec, 90);
    let a = lending::ask(counts, asked::five_at(rec, 43), calls, win, reading);
    row.count(Operation::Win, Values::from(a.win) == answer_at(rec, 92))?;
    row.count(
        Operation::Reading,
        Values::from(a.reading) == answer_at(rec, 168),
    )?;
    row.count(
        Operation::Waits,
        asked::same_waits(*stored::part(rec, 245), rec[244], a.waits),
    )
}

// Asks level, basic points and payment of a scored win.
fn ask_win_points<R: Print>(row: &mut Row<'_, R>, rec: &[u8; 256]) -> io::Result<()> {
    if rec[92] != 0 {
        return Ok(());
    }
    let win = stored::win_at(rec, 55);
    row.ask_level(
        stored::part(rec, 141),
        stored::level_at(rec, 144),
        stored::u32_at(rec, 148),
    )?;
    row.ask_payment(stored::part(rec, 148), 0, win.seat_wind == 27, win.win_type)
}

// Replays a record. One with a length out of range differs, and nothing is asked.
pub fn replay<R: Print>(rt: &R, rec: &[u8; 256], tally: &mut Tally) -> io::Result<()> {
    tally.record(true);
    let size = usize::from(rec[0]);
    if size > 40 {
        tally.answer(false);
        return Ok(());
    }
    let mut row = Row {
        rt,
        name: b"a win",
        tally,
    };
    let counts = &rec[1..1 + size];
    list_win(&mut row, rec, counts)?;
    ask_win(&mut row, rec, counts)?;
    ask_win_points(&mut row, rec)
}
