// Listings of `replay`, whose main says what the bytes of a record are. The buffer is filled alike before each call, so of the stored one
// only the bytes of the readings are compared, and the others are to be as they were.
ghost use Rattle.std.specs.Prelude.{◌≤◌};

use crate::asked;
use crate::asked::{FILLED, Operation, Row, Tally};
use std::io;

// Lists the hand with these counts, with so many bytes lent.
fn list_stored<R: Print>(
    row: &mut Row<'_, R>,
    rec: &[u8; 256],
    counts: &[u8],
    lent: usize,
) -> io::Result<()>
    requires { lent ≤ 120 }
{
    let mut buf = [FILLED; 120];
    let calls = asked::lent(stored::u16_at(rec, 41));
    let a = lending::list(counts, asked::five_at(rec, 43), calls, &mut buf[..lent]);
    let bytes = stored::u16_at(rec, 60);
    let agrees = (a.number == u32::from(rec[57]))
        & (a.readings == stored::u16_at(rec, 58))
        & (a.bytes == bytes)
        & stored::is_written(&buf, &rec[64..64 + bytes.min(120)], &[FILLED; 120]);
    row.count(Operation::List, agrees)
}

// Replays a record. One with a length out of range differs, and nothing is asked.
pub fn replay<R: Print>(rt: &R, rec: &[u8; 256], tally: &mut Tally) -> io::Result<()> {
    tally.record(true);
    let size = usize::from(rec[0]);
    let lent = stored::u16_at(rec, 55);
    if size > 40 || lent > 120 {
        tally.answer(false);
        return Ok(());
    }
    let mut row = Row {
        rt,
        name: b"a listing",
        tally,
    };
    list_stored(&mut row, rec, &rec[1..1 + size], lent)
}
