// For the comparison with agari only: what the layers below the operations answer for one reading that is handed in.
#![tactic(auto)]

use structure::HandStructure;

// A reading in plain fields: kind 1 seven pairs, 2 thirteen orphans, else a pair and four melds.
#[repr(C)]
#[derive(Clone, Copy)]
pub struct Reading {
    pub kind: u8,
    pub pair: u8,
    pub melds: [meld::Meld; 4],
    pub pairs: [u8; 7],
}

// Its tallies, waits, han and fu, and whether there is a yakuman.
#[repr(C)]
#[derive(Clone, Copy)]
pub struct ReadingScore {
    pub tallies: [u8; 47],
    pub waits: [u8; 6],
    pub han: u8,
    pub fu: u8,
    pub is_yakuman: bool,
}

impl From<Reading> for HandStructure {
    // The reading as the code has it.
    fn from(r: Reading) -> HandStructure {
        let pair = tile::Tile(r.pair);
        let melds = r.melds;
        let pairs = r.pairs;
        match r.kind {
            1 => HandStructure::Chiitoitsu { pairs },
            2 => HandStructure::Kokushi { pair },
            _ => HandStructure::Standard { pair, melds },
        }
    }
}

// Nothing found, for counts that are not 34 long.
fn nothing() -> ReadingScore {
    ReadingScore {
        tallies: [0; 47],
        waits: [0; 6],
        han: 0,
        fu: 0,
        is_yakuman: false,
    }
}

// The score of a reading; `counts` are the tiles of hand and calls together.
#[unsafe(no_mangle)]
pub extern "C" fn probe_reading(
    reading: Reading,
    counts: &[u8],
    win: context::GameContext,
    opened: bool,
) -> ReadingScore {
    let Ok(counts) = <&[u8; 34]>::try_from(counts) else {
        return nothing();
    };
    let hand = HandStructure::from(reading);
    let tiles = tile_yaku::tile_yaku(counts, win.winning_tile);
    let found = yaku::detect_yaku_with_context(hand, tiles, win, opened);
    let tallies = found.tallies;
    ReadingScore {
        tallies,
        waits: wait::detect_wait_types(hand, tile::Tile(win.winning_tile)),
        han: found.han,
        fu: fu::calculate_fu(hand, win, opened),
        is_yakuman: found.is_yakuman,
    }
}
