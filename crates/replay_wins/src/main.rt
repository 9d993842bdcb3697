// Replays a stored sample of the reference library's answers about wins (data/wins) through `win::score_win`, `win::score_reading` and
// `win::name_waits`, and says how many differ.
//
// The file is a row of records of 256 bytes, numbers little-endian:
//   0         length of the counts, at most 40
//   1..41     the counts
//   41..43    number of calls
//   43..55    four melds, each its tile, its kind and its source
//   55..90    the win: type, winning tile, round wind, seat wind, eight flags as 0 or 1: riichi, double riichi, ippatsu, rinshan, chankan,
//             last tile, tenhou, chiihou; the room's fu for a pair that is both round and seat wind; and the indicators of dora and of ura,
//             each how many are shown and ten tiles
//   90..92    the number of a reading
//   92..168   the score of the win
//   168..244  the score of that reading
//   244       the number answered where its waits are asked for
//   245..251  their 6 tallies
// The other bytes are zero. A score is the answer's number, the number of the reading, 47 tallies, han, fu, 1 where it has a yakuman, the
// level, how many times a yakuman counts, the dora and the ura, each in one byte; then, in four bytes each, basic points, what each non-dealer,
// the dealer and the discarder pays, and the total. A refusal has its number alone.
#![tactic(auto)]

ghost use Rattle.std.specs.Prelude.{◌+◌, ◌≤◌};

use std::io;

// What is counted: the wins that are scored, the refusals of a win, 1 to 11 without 7, and 14, the readings that are scored by their number,
// and the numbers that no reading has.
#[derive(Clone, Copy, Default)]
struct Kinds {
    scored: u64,
    refused: stored::Refusals,
    readings: u64,
    missing: u64,
}

type Tally = stored::Tally<Kinds>;

// The number that refuses a reading which there is not.
const NO_READING: u32 = 12;

// A score, or the number of a refusal.
type Answer = Result<stored::Scored, u32>;

// The library's answer about a win or a reading; none where a value stands beside a refusal.
fn answer_of(a: choice::ScoreAnswer) -> Option<Answer> {
    stored::answer(
        u32::from(a.number),
        stored::Scored {
            reading: a.reading,
            score: stored::Score::from(a.score),
        },
    )
}

// The library's answer about waits; none where a value stands beside a refusal.
fn waits_of(a: win::WaitsAnswer) -> Option<Result<[u8; 6], u32>> {
    stored::answer(u32::from(a.number), a.waits)
}

// Is the answer the one at a place: its number, that of the reading, and the score?
fn same_answer(rec: &[u8; 256], at: usize, answer: Option<Answer>) -> bool
    requires { at + 76 ≤ 256 }
{
    let said = stored::answer(u32::from(rec[at]), stored::scored_at(rec, at + 1));
    answer.is_some() & (said == answer)
}

// Scores the win of a record.
fn ask_win(rec: &[u8; 256], counts: &[u8], tally: &mut Tally) {
    let calls = stored::calls_at(rec, 41);
    let answer = answer_of(win::score_win(counts, calls, stored::win_at(rec, 55)));
    match answer {
        Some(Ok(_)) => stored::count(&mut tally.kinds.scored, true),
        Some(Err(number)) => tally.kinds.refused.count(number),
        None => (),
    }
    tally.record(same_answer(rec, 92, answer));
}

// Scores its reading by its number.
fn ask_reading(rec: &[u8; 256], counts: &[u8], tally: &mut Tally) {
    let n = stored::u16_at(rec, 90);
    let calls = stored::calls_at(rec, 41);
    let answer = answer_of(win::score_reading(counts, calls, stored::win_at(rec, 55), n));
    stored::count(&mut tally.kinds.readings, matches!(answer, Some(Ok(_))));
    stored::count(&mut tally.kinds.missing, answer == Some(Err(NO_READING)));
    tally.answer(same_answer(rec, 168, answer));
}

// Names the waits of that reading.
fn ask_waits(rec: &[u8; 256], counts: &[u8], tally: &mut Tally) {
    let n = stored::u16_at(rec, 90);
    let calls = stored::calls_at(rec, 41);
    let answer = waits_of(win::name_waits(counts, calls, stored::win_at(rec, 55), n));
    let waits: [u8; 6] = *stored::part(rec, 245);
    let said = stored::answer(u32::from(rec[244]), waits);
    tally.answer(answer.is_some() & (said == answer));
}

// Replays a record. One with a length out of range differs, and nothing is asked.
fn replay(rec: &[u8; 256], tally: &mut Tally) {
    let size = usize::from(rec[0]);
    if size > 40 {
        tally.answer(false);
        return;
    }
    let counts = &rec[1..1 + size];
    ask_win(rec, counts, tally);
    ask_reading(rec, counts, tally);
    ask_waits(rec, counts, tally);
}

// Writes the tally.
fn print(rt: &impl Print, tally: &Tally) -> io::Result<()> {
    let kinds = &tally.kinds;
    print!(rt;
        "{} wins replayed: {} scored\nrefused: ",
        tally.records, kinds.scored
    )?;
    kinds
        .refused
        .print(rt, &[1, 2, 3, 4, 5, 6, 8, 9, 10, 11, 14])?;
    println!(rt;
        "\n{} readings scored by their numbers, with their waits; {} numbers of no reading",
        kinds.readings, kinds.missing
    )?;
    println!(rt; "{} answers differ", tally.differ)
}

// Opens the file, replays it and writes the tally.
fn main(rt: HostRuntime) -> io::Result<()> {
    let Some(mut file) = stored::open(&rt, "wins") else {
        return Ok(());
    };
    let tally = stored::run(&mut file, |rec, tally| {
        replay(rec, tally);
        Ok(())
    })?;
    print(&rt, &tally)
}
