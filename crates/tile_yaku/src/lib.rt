// Yaku that ask every tile of the hand, calls included (yaku.rs of agari): found once for a hand, whatever its readings.
#![tactic(auto)]

ghost use Rattle.std.specs.Prelude.{◌≡◌, not, cond, ◌<◌, eqb, leb};
ghost use Rattle.lists.specs.Fold.{all_below};
ghost use Rattle.tile.specs.Tile.{is_green, is_honor, is_simple, is_terminal};
ghost use Rattle.hand.specs.Counts.{held};
ghost use Rattle.tile_yaku.specs.Tiles.{some, one_suit, chinitsu, gate, nine_gates, pure_wait, tile_yaku};

use tile::Tile;

// What all tiles together are.
#[derive(Clone, Copy)]
pub struct TileYaku {
    pub tanyao: bool,
    pub honroutou: bool,
    pub honitsu: bool,
    pub chinitsu: bool,
    pub tsuuiisou: bool,
    pub chinroutou: bool,
    pub ryuuiisou: bool,
    pub nine_gates: bool,
    pub pure_wait: bool,
}

// Which sorts of tiles are there: simples, terminals, honors, and tiles that are not green.
#[derive(Clone, Copy)]
pub struct Sorts {
    pub simple: bool,
    pub terminal: bool,
    pub honor: bool,
    pub other_than_green: bool,
}

// The sorts of tiles there are.
fn sorts_of(counts: &[u8; 34]) -> Sorts
    ensures { result ≡ record {
      simple = some is_simple (held counts.now);
      terminal = some is_terminal (held counts.now);
      honor = some is_honor (held counts.now);
      other_than_green = some (λ t. not (is_green t)) (held counts.now);
    } }
{
    let mut simple = false;
    let mut terminal = false;
    let mut honor = false;
    let mut other_than_green = false;
    for t in 0..34u8 {
        let there = 1 <= counts[t as usize];
        let tile = Tile(t);
        simple |= there & tile.is_simple();
        terminal |= there & tile.is_terminal();
        honor |= there & tile.is_honor();
        other_than_green |= there & !tile.is_green();
    }
    Sorts {
        simple,
        terminal,
        honor,
        other_than_green,
    }
}

// Are there tiles of exactly one suit? It leaves both loops at the first tile of a second one.
fn check_flush(counts: &[u8; 34]) -> bool
    ensures { result ≡ one_suit (held counts.now) }
{
    let mut only = None;
    'suits: for suit in 0..3 {
        for n in 0..9 {
            if counts[suit * 9 + n] > 0 {
                if only.is_some_and(|first| first < suit) {
                    only = None;
                    break 'suits;
                }
                only = Some(suit);
            }
        }
    }
    only.is_some()
}

// Nine gates in a suit: at least three of each terminal and one of each other number, and no tile of another suit.
// It leaves both loops at the first tile that does not fit.
fn gates_of(counts: &[u8; 34], of: usize) -> bool
    requires { of < 3 }
    ensures { result ≡ all_below 27 (gate (held counts.now) of) }
{
    let mut good = true;
    'suits: for suit in 0..3 {
        for n in 0..9 {
            if !fits_gate(counts[suit * 9 + n], suit == of, (n == 0) | (n == 8)) {
                good = false;
                break 'suits;
            }
        }
    }
    good
}

// Does a count fit nine gates: three of a terminal and one of another number in the suit, none outside it?
fn fits_gate(count: u8, in_suit: bool, terminal: bool) -> bool
    ensures { result ≡ cond in_suit (leb (cond terminal 3 1) count) (eqb count 0) }
{
    if in_suit {
        if terminal {
            return 3 <= count;
        }
        return 1 <= count;
    }
    count == 0
}

// Nine gates: 14 tiles of one suit, at least three of each terminal and one of each other number. Only a full flush has them.
fn check_chuuren_poutou(counts: &[u8; 34], full_flush: bool) -> bool
    requires { full_flush ≡ chinitsu (held counts.now) }
    ensures { result ≡ nine_gates (held counts.now) }
{
    if !full_flush {
        return false;
    }
    if !(0..3).any(|suit| gates_of(counts, suit)) {
        return false;
    }
    hand::sum_range(counts, 0, 34) == 14
}

// Is the winning tile the one over nine gates? A number above 33 is no tile, of which there are none.
#[tactic(auto, unfolding(crate::specs::Tiles::pure_wait))]
fn is_pure_wait(counts: &[u8; 34], t: u8) -> bool
    ensures { result ≡ pure_wait (held counts.now) t }
{
    let held = counts.get(t as usize).copied().unwrap_or(0);
    if Tile(t).is_terminal() {
        held == 4
    } else {
        held == 2
    }
}

// What all tiles together are; t is the winning tile.
pub fn tile_yaku(counts: &[u8; 34], t: u8) -> TileYaku
    ensures { result ≡ tile_yaku (held counts.now) t }
{
    let Sorts {
        simple,
        terminal,
        honor,
        other_than_green,
    } = sorts_of(counts);
    let flush = check_flush(counts);
    let full_flush = flush & !honor;
    TileYaku {
        tanyao: !terminal & !honor,
        honroutou: !simple,
        honitsu: flush & honor,
        chinitsu: full_flush,
        tsuuiisou: !simple & !terminal,
        chinroutou: !simple & !honor,
        ryuuiisou: !other_than_green,
        nine_gates: check_chuuren_poutou(counts, full_flush),
        pure_wait: is_pure_wait(counts, t),
    }
}
