// Replays a stored sample of the reference library's answers (data/listings) through `unit::list_readings`, and says how many differ.
//
// The file is a row of records of 256 bytes, numbers little-endian:
//   0         length of the counts, at most 40
//   1..41     the counts
//   41..43    number of calls
//   43..55    four melds, each its tile, its kind and its source
//   55..57    number of bytes lent, at most 120
//   57        the answer's number: 0 accepted, 1 to 7 refused
//   58..60    the answer's count of readings, 0 where it is refused
//   60..62    the answer's count of bytes, 0 where it is refused
//   64..184   the buffer after the call, as far as it is lent
// The other bytes are zero. Before the call, byte i of the buffer is (7 i + 3) mod 256.
#![tactic(auto)]

ghost use Rattle.std.specs.Prelude.{◌≤◌};

use std::io;

// What is counted: the hands that are accepted, those of them with two or more readings, and the refusals, 1 to 7.
#[derive(Clone, Copy, Default)]
struct Kinds {
    accepted: u64,
    several: u64,
    refused: stored::Refusals,
}

type Tally = stored::Tally<Kinds>;

// An answer: the counts of readings and of bytes, or the number of a refusal.
type Answer = Result<(usize, usize), u32>;

// The buffer before a call.
fn pattern() -> [u8; 120] {
    let mut buf = [0u8; 120];
    let mut next = 3u8;
    for byte in &mut buf {
        *byte = next;
        next = next.wrapping_add(7);
    }
    buf
}

// The answer of the library.
fn answer_of(listing: Result<unit::Listed, rules::Refusal>) -> Answer {
    match listing {
        Ok(listed) => Ok((listed.readings, listed.bytes)),
        Err(refusal) => Err(u32::from(refusal)),
    }
}

// The answer of the record.
fn stored_answer(rec: &[u8; 256]) -> Option<Answer> {
    let counts = (stored::u16_at(rec, 58), stored::u16_at(rec, 60));
    stored::answer(u32::from(rec[57]), counts)
}

// Counts an answer of the library.
fn count(kinds: &mut Kinds, answer: Answer) {
    match answer {
        Ok((readings, _)) => {
            stored::count(&mut kinds.accepted, true);
            stored::count(&mut kinds.several, readings > 1);
        }
        Err(number) => kinds.refused.count(number),
    }
}

// Asks the library about a record, with these counts and so many bytes lent. Every byte of the buffer is compared: where it was lent with
// the record's, and beyond with what it was before.
fn ask(rec: &[u8; 256], counts: &[u8], lent: usize, tally: &mut Tally)
    requires { lent ≤ 120 }
{
    let before = pattern();
    let mut buf = before;
    let calls = stored::calls_at(rec, 41);
    let answer = answer_of(unit::list_readings(counts, calls, &mut buf[..lent]));
    let agrees = (stored_answer(rec) == Some(answer))
        & stored::is_written(&buf, &rec[64..64 + lent], &before);
    count(&mut tally.kinds, answer);
    tally.record(agrees);
}

// Replays a record. One whose lengths are out of range differs, and the library is not asked.
fn replay(rec: &[u8; 256], tally: &mut Tally) {
    let size = usize::from(rec[0]);
    let lent = stored::u16_at(rec, 55);
    if size > 40 || lent > 120 {
        tally.record(false);
    } else {
        ask(rec, &rec[1..1 + size], lent, tally);
    }
}

// Writes the tally.
fn print(rt: &impl Print, tally: &Tally) -> io::Result<()> {
    let kinds = &tally.kinds;
    print!(rt;
        "{} answers replayed: {} accepted, ",
        tally.records, kinds.accepted
    )?;
    print!(rt;
        "of which {} have two or more readings\nrefused: ",
        kinds.several
    )?;
    kinds.refused.print(rt, &[1, 2, 3, 4, 5, 6, 7])?;
    println!(rt; "\n{} differ", tally.differ)
}

// Opens the file, replays it and writes the tally.
fn main(rt: HostRuntime) -> io::Result<()> {
    let Some(mut file) = stored::open(&rt, "listings") else {
        return Ok(());
    };
    let tally = stored::run(&mut file, |rec, tally| {
        replay(rec, tally);
        Ok(())
    })?;
    print(&rt, &tally)
}
