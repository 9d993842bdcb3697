// Plays the hands of the scope paper and worked examples of the rules (data/hands) through the operations that list readings, score a
// win, score a reading and name its waits, and values of han, fu and basic points through those on points. It writes a line for each
// and says how many differ from the stored answers, which are the reference library's, or the scope paper's refusals.
//
// The file is a row of records of 1,024 bytes, numbers little-endian:
//   0          length of the text, at most 127
//   1..128     the text: what is played, in words
//   128..162   the counts
//   162        number of calls
//   163..175   four melds, each its tile, its kind and its source
//   175..210   the win: type, winning tile, round wind, seat wind, eight flags as 0 or 1: riichi, double riichi, ippatsu, rinshan, chankan,
//              last tile, tenhou, chiihou; the room's fu for a pair that is both round and seat wind; and the indicators of dora and of ura,
//              each how many are shown and ten tiles
//   210, 211   listing: the answer's number, the count of readings
//   212, 213   scoring the win: the answer's number, the chosen reading
//   214        how many readings are scored, at most 8
//   215        the number that refuses the reading after them
//   216        what is played: 0 a hand, 1 han and fu, 2 basic points
//   217..220   han, fu, 1 where there is a yakuman
//   220, 221   win type, 1 for the dealer
//   222        payment: the answer's number
//   256..1024  a slot of 96 bytes for each reading (of points the first one):
//     0..47    its tallies
//     47..53   its waits
//     53..56   han, fu, 1 where there is a yakuman
//     56, 57   level, 0 Normal to 5 Yakuman, and how many times a yakuman counts
//     58, 59   dora, and ura
//     60..64   basic points
//     64..68   from each non-dealer
//     68..72   from the dealer
//     72..76   from the discarder
//     76..80   total
// The other bytes are zero.
#![tactic(auto)]

ghost use Rattle.std.specs.Prelude.{◌<◌};

use std::io;

type Tally = stored::Tally<()>;

// A score, or the number of a refusal.
type Answer = Result<stored::Scored, u32>;

// ---- what the library answers

// The calls of a record.
fn called(rec: &[u8; 1024]) -> checks::Calls {
    stored::calls_of(usize::from(rec[162]), rec, 163)
}

// How many readings the record's hand has.
fn listing_of(rec: &[u8; 1024]) -> Result<usize, u32> {
    let mut buf = [0u8; hand::ALWAYS_ENOUGH];
    match unit::list_readings(&rec[128..162], called(rec), &mut buf) {
        Ok(listed) => Ok(listed.readings),
        Err(refusal) => Err(u32::from(refusal)),
    }
}

// A score; none where a value stands beside a refusal.
fn answer_of(a: choice::ScoreAnswer) -> Option<Answer> {
    stored::answer(
        u32::from(a.number),
        stored::Scored {
            reading: a.reading,
            score: stored::Score::from(a.score),
        },
    )
}

// The score of the record's win.
fn score_of(rec: &[u8; 1024]) -> Option<Answer> {
    answer_of(win::score_win(&rec[128..162], called(rec), stored::win_at(rec, 175)))
}

// The score of a reading.
fn reading_score(rec: &[u8; 1024], k: usize) -> Option<Answer> {
    answer_of(win::score_reading(&rec[128..162], called(rec), stored::win_at(rec, 175), k))
}

// The waits of a reading; none where a value stands beside a refusal.
fn waits_of(rec: &[u8; 1024], k: usize) -> Option<Result<[u8; 6], u32>> {
    let win = stored::win_at(rec, 175);
    let a = win::name_waits(&rec[128..162], called(rec), win, k);
    stored::answer(u32::from(a.number), a.waits)
}

// The basic points of a record: given, or those of han and fu.
fn basic_of(rec: &[u8; 1024]) -> u32 {
    if rec[216] == 2 {
        return stored::u32_at(rec, 316);
    }
    scoring::calculate_basic_points(rec[217], rec[218], rec[219] == 1)
}

// Who pays what for them.
fn payment_of(rec: &[u8; 1024]) -> Result<stored::Paid, u32> {
    match scoring::score_payment(basic_of(rec), rec[221] == 1, rec[220]) {
        Ok(payment) => Ok(stored::Paid::from(payment)),
        Err(refusal) => Err(u32::from(refusal)),
    }
}

// ---- is it what the record says?

// Are score and waits of reading number k what the record says?
fn same_reading(rec: &[u8; 1024], k: usize) -> bool
    requires { k < 8 }
{
    (reading_score(rec, k) == Some(Ok(stored::slot_at(rec, k))))
        & (waits_of(rec, k) == Some(Ok(*stored::part(stored::slot(rec, k), 47))))
}

// Is reading number n refused as the record says?
fn same_next(rec: &[u8; 1024], n: usize) -> bool {
    let number = u32::from(rec[215]);
    (reading_score(rec, n) == Some(Err(number))) & (waits_of(rec, n) == Some(Err(number)))
}

// Does every operation on the record's hand answer what it says?
fn same_hand(rec: &[u8; 1024]) -> bool {
    let listing = stored::answer(u32::from(rec[210]), usize::from(rec[211]));
    let readings = usize::from(rec[214]);
    if readings > 8 {
        return false;
    }
    let chosen = score_of(rec);
    (listing == Some(listing_of(rec)))
        & (chosen.is_some() & (stored::chosen_at(rec) == chosen))
        & (0..readings).all(|k| same_reading(rec, k))
        & same_next(rec, readings)
}

// Are level and basic points of han and fu, and the payment, what the record says?
fn same_points(rec: &[u8; 1024]) -> bool {
    let level = scoring::determine_score_level(rec[217], rec[218], rec[219] == 1);
    let leveled = (rec[216] == 2) | (stored::Level::from(level) == stored::level_at(rec, 312));
    let paid = match rec[222] {
        0 => Ok(stored::paid_at(rec, 320)),
        number => Err(u32::from(number)),
    };
    (basic_of(rec) == stored::u32_at(rec, 316)) & leveled & (payment_of(rec) == paid)
}

// ---- a line for each record

// Writes the answer to the record's win; where there are several readings, also how many and which one is chosen.
fn print_win(rt: &impl Print, rec: &[u8; 1024]) -> io::Result<()> {
    let scored = match score_of(rec) {
        Some(Ok(scored)) => scored,
        Some(Err(number)) => return print!(rt; "refused with {number}"),
        None => return print!(rt; "refused, with a value beside it"),
    };
    if let Ok(readings) = listing_of(rec)
        && readings > 1
    {
        print!(rt; "{readings} readings, number {}: ", scored.reading)?;
    }
    let score = scored.score;
    print!(rt; "{} han {} fu, {}", score.han, score.fu, score.paid.total)
}

// Writes the answer to the record's payment.
fn print_payment(rt: &impl Print, rec: &[u8; 1024]) -> io::Result<()> {
    match payment_of(rec) {
        Ok(paid) => print!(rt; "{}", paid.total),
        Err(number) => print!(rt; "refused with {number}"),
    }
}

// Writes the answer to a record, and says whether each operation answers what it says.
fn answer(rt: &impl Print, rec: &[u8; 1024]) -> io::Result<bool> {
    if rec[216] == 0 {
        print_win(rt, rec)?;
        return Ok(same_hand(rec));
    }
    print_payment(rt, rec)?;
    Ok(same_points(rec))
}

// Plays a record, and writes its line: its text, and the answer.
fn play(rt: &impl Print, rec: &[u8; 1024], tally: &mut Tally) -> io::Result<()> {
    let size = usize::from(rec[0]);
    if size < 128 {
        rt.write_all(&rec[1..1 + size])?;
    }
    print!(rt; ": ")?;
    let agrees = answer(rt, rec)?;
    println!(rt; "{}", if agrees { "" } else { " DIFFERS" })?;
    tally.record(agrees);
    Ok(())
}

// Opens the file, plays it and writes the tally.
fn main(rt: HostRuntime) -> io::Result<()> {
    let Some(mut file) = stored::open(&rt, "hands") else {
        return Ok(());
    };
    let tally = stored::run(&mut file, |rec, tally| play(&rt, rec, tally))?;
    println!(rt; "{} played\n{} differ", tally.records, tally.differ)
}
