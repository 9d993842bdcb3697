// Dora (context.rs of agari, and total_han_with_dora of its yaku.rs): the tile that an indicator names, how many of these tiles hand and calls
// hold together, and the han with them. Red fives (aka) and set-aside Norths (nuki) are not counted here: both are 0.
#![tactic(auto)]

ghost use Rattle.std.specs.Prelude.{◌≡◌, true, false, ◌≤◌};
ghost use Rattle.context.specs.Context.{shown, indicators_in};
ghost use Rattle.hand.specs.Counts.{held, AtMostFour};
ghost use Rattle.dora.specs.Dora.{dora_of, count_of, dora_in, AtMostForty, dora_total, total_han};

use context::{GameContext, Indicators};
use tile::Tile;

// How many dora are there: by the indicators shown, and by those below them. That neither is above 40 stands in the contracts (`AtMostForty`)
// and not in the type: the definitions (`dora_in`, `no_dora`) build this record for any counts, and a ghost field would be a field of it there.
#[derive(Clone, Copy)]
pub struct DoraCount {
    pub regular: u8,
    pub ura: u8,
}

// The dora of each tile as indicator: behind each stands the indicator's name.
const DORA: [u8; 34] = [
    1, // man 1
    2, // man 2
    3, // man 3
    4, // man 4
    5, // man 5
    6, // man 6
    7, // man 7
    8, // man 8
    0, // man 9
    10, // pin 1
    11, // pin 2
    12, // pin 3
    13, // pin 4
    14, // pin 5
    15, // pin 6
    16, // pin 7
    17, // pin 8
    9, // pin 9
    19, // sou 1
    20, // sou 2
    21, // sou 3
    22, // sou 4
    23, // sou 5
    24, // sou 6
    25, // sou 7
    26, // sou 8
    18, // sou 9
    28, // East
    29, // South
    30, // West
    27, // North
    32, // White
    33, // Green
    31, // Red
];

// The tile that an indicator names as dora; a number above 33 stays.
pub fn indicator_to_dora(indicator: Tile) -> Tile
    ensures { result.0 ≡ dora_of indicator.0 }
{
    match DORA.get(indicator.0 as usize) {
        Some(dora) => Tile(*dora),
        None => indicator,
    }
}

// How many there are of the tile that an indicator names.
fn held_by(counts: &[u8; 34], t: u8) -> u8
    ensures { result ≡ held counts.now (dora_of t) }
{
    let dora = indicator_to_dora(Tile(t));
    counts.get(dora.0 as usize).copied().unwrap_or(0)
}

// How many dora the indicators give: each adds what is held of its tile, and one that is there twice adds twice.
fn count_of(counts: &[u8; 34], i: Indicators) -> u8
    requires { AtMostFour counts.now × (i.count ≤ 10) }
    ensures { (result ≡ count_of (held counts.now) (shown i)) × (result ≤ 40) }
{
    let shown = &i.tiles[..i.count as usize];
    shown.iter().map(|t| held_by(counts, *t)).sum()
}

// How many dora hand and calls hold together, by sort: those below count after a riichi.
#[tactic(auto, unfolding(crate::specs::Dora::dora_in))]
pub fn count_dora_detailed(counts: &[u8; 34], w: GameContext) -> DoraCount
    requires { AtMostFour counts.now × (indicators_in w ≡ true) }
    ensures { (result ≡ dora_in (held counts.now) w) × AtMostForty result }
{
    let regular = count_of(counts, w.dora_indicators);
    if !w.is_riichi {
        return DoraCount { regular, ura: 0 };
    }
    let ura = count_of(counts, w.ura_dora_indicators);
    DoraCount { regular, ura }
}

impl DoraCount {
    // Both sorts together.
    pub fn total(self) -> u8
        requires { AtMostForty self }
        ensures { result ≡ dora_total self }
    {
        self.regular + self.ura
    }
}

// The han of the yaku with dora; a yakuman takes none.
#[tactic(auto, unfolding(crate::specs::Dora::total_han))]
pub fn total_han_with_dora(d: DoraCount, is_yakuman: bool, han: u8) -> u8
    requires { AtMostForty d × (is_yakuman ≡ false → han ≤ 175) }
    ensures { result ≡ total_han d is_yakuman han }
{
    if is_yakuman {
        return han;
    }
    han + d.total()
}
