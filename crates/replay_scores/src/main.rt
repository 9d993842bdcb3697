// Replays a stored sample of the reference library's answers for one reading each (data/scores): tallies, waits, han, fu, yakuman.
//
// The file is a row of records of 160 bytes:
//   0         kind of the reading: 1 seven pairs, 2 thirteen orphans, 3 standard
//   1         tile of the pair, or the doubled tile
//   2..14     four melds, each its tile, its kind and its source
//   14..21    the tiles of seven pairs
//   21..55    the counts of hand and calls together
//   55..90    the win: type, winning tile, round wind, seat wind, eight flags as 0 or 1: riichi, double riichi, ippatsu, rinshan, chankan,
//             last tile, tenhou, chiihou; the room's fu for a pair that is both round and seat wind; and the indicators of dora and of ura,
//             each how many are shown and ten tiles
//   90        1 where the hand is open
//   91..138   the answer's 47 tallies
//   138..144  its 6 waits
//   144       the han of its yaku, without dora
//   145       its fu
//   146       1 where it has a yakuman
// The other bytes are zero.
#![tactic(auto)]

use std::io;
use structure::HandStructure;

// What is counted: the readings with a yakuman, and those without any han.
#[derive(Clone, Copy, Default)]
struct Kinds {
    yakuman: u64,
    without: u64,
}

type Tally = stored::Tally<Kinds>;

// An answer about a reading.
#[derive(Clone, Copy, PartialEq, Eq)]
struct Answer {
    tallies: [u8; 47],
    waits: [u8; 6],
    han: u8,
    fu: u8,
    is_yakuman: bool,
}

// The answer of the record.
fn stored_answer(rec: &[u8; 160]) -> Answer {
    Answer {
        tallies: *stored::part(rec, 91),
        waits: *stored::part(rec, 138),
        han: rec[144],
        fu: rec[145],
        is_yakuman: rec[146] == 1,
    }
}

// The reading of a record.
fn reading_of(rec: &[u8; 160]) -> HandStructure {
    let pair = tile::Tile(rec[1]);
    let melds = stored::melds_at(rec, 2);
    let pairs = *stored::part(rec, 14);
    match rec[0] {
        1 => HandStructure::Chiitoitsu { pairs },
        2 => HandStructure::Kokushi { pair },
        _ => HandStructure::Standard { pair, melds },
    }
}

// The answer of the library.
fn answer_of(rec: &[u8; 160]) -> Answer {
    let hand = reading_of(rec);
    let win = stored::win_at(rec, 55);
    let opened = rec[90] == 1;
    let tiles = tile_yaku::tile_yaku(stored::part(rec, 21), win.winning_tile);
    let found = yaku::detect_yaku_with_context(hand, tiles, win, opened);
    let tallies = found.tallies;
    let waits = wait::detect_wait_types(hand, tile::Tile(win.winning_tile));
    Answer {
        tallies,
        waits,
        han: found.han,
        fu: fu::calculate_fu(hand, win, opened),
        is_yakuman: found.is_yakuman,
    }
}

// Replays a record.
fn replay(rec: &[u8; 160], tally: &mut Tally) {
    let answer = answer_of(rec);
    stored::count(&mut tally.kinds.yakuman, answer.is_yakuman);
    stored::count(&mut tally.kinds.without, answer.han == 0);
    tally.record(answer == stored_answer(rec));
}

// Writes the tally.
fn print(rt: &impl Print, tally: &Tally) -> io::Result<()> {
    let kinds = &tally.kinds;
    print!(rt;
        "{} readings replayed: {} with a yakuman, ",
        tally.records, kinds.yakuman
    )?;
    println!(rt; "{} with 0 han\n{} differ", kinds.without, tally.differ)
}

// Opens the file, replays it and writes the tally.
fn main(rt: HostRuntime) -> io::Result<()> {
    let Some(mut file) = stored::open(&rt, "scores") else {
        return Ok(());
    };
    let tally = stored::run(&mut file, |rec, tally| {
        replay(rec, tally);
        Ok(())
    })?;
    print(&rt, &tally)
}
