// Fu of a reading (scoring.rs of agari).
#![tactic(auto)]

ghost use Rattle.std.specs.Prelude.{◌≡◌, cond, ◌&&◌, ◌||◌, ◌+◌, ◌*◌, ◌/◌, ◌≤◌, max, eqb};
ghost use Rattle.lists.specs.Fold.{any, sum};
ghost use Rattle.structure.specs.Structure.{reading_of};
ghost use Rattle.wait.specs.Wait.{closed_run, edge, middle};
ghost use Rattle.wait.specs.Concealed.{spared};
ghost use Rattle.fu.specs.Fu.{meld_fu, pair_fu, wait_fu, base_fu, round_up_to10, at_least30, fu};

// The fu of a meld; `kept` where a closed sequence holds the winning tile.
pub fn meld_fu_with_context(m: meld::Meld, w: context::GameContext, kept: bool) -> u8
    ensures { (result ≡ meld_fu w kept m) × (result ≤ 32) }
{
    if m.is_sequence() {
        return 0;
    }
    let tile = tile::Tile(m.tile);
    let base = if tile.is_terminal_or_honor() { 4 } else { 2 };
    let kan = if m.is_kan() { 4 } else { 1 };
    let hidden = if wait::is_concealed_set(m, w, kept) {
        2
    } else {
        1
    };
    base * (kan * hidden)
}

// The fu of four melds.
pub fn melds_fu(ms: [meld::Meld; 4], w: context::GameContext, kept: bool) -> u8
    ensures { (result ≡ sum (meld_fu w kept) ms) × (result ≤ 128) }
{
    ms.iter().map(|m| meld_fu_with_context(*m, w, kept)).sum()
}

// The fu of a pair: 2 for each time that it counts, but for a wind that is both round and seat wind what the room's setting says.
pub fn pair_fu(pair: u8, w: context::GameContext) -> u8
    ensures { (result ≡ pair_fu w pair) × (result ≤ 4) }
{
    if (pair == w.round_wind) & (pair == w.seat_wind) {
        return if w.double_wind_fu == 2 { 2 } else { 4 };
    }
    2 * wait::weight(w, pair)
}

// Can the tile have completed one of the melds at an edge or in the middle?
fn any_close(ms: [meld::Meld; 4], t: u8) -> bool
    ensures { result ≡ (any (closed_run edge t) ms || any (closed_run middle t) ms) }
{
    structure::any_meld(ms, |m| wait::is_penchan(m, t) | wait::is_kanchan(m, t))
}

// The fu of the wait: 2 on the pair, on an edge or in the middle.
pub fn wait_fu(ms: [meld::Meld; 4], pair: u8, w: context::GameContext) -> u8
    ensures { (result ≡ wait_fu w pair ms) × (result ≤ 2) }
{
    let t = w.winning_tile;
    if (t == pair) | any_close(ms, t) { 2 } else { 0 }
}

// The fu that every hand has: 20, and 2 for a tsumo or 10 for a closed ron.
fn base_fu(w: context::GameContext, opened: bool) -> u8
    ensures { (result ≡ base_fu w opened) × (result ≤ 30) }
{
    let ron = if opened { 0 } else { 10 };
    20 + if w.is_tsumo() { 2 } else { ron }
}

// Fu rounded up to 10; an open hand has at least 30.
pub fn rounded_fu(n: u8, opened: bool) -> u8
    requires { n ≤ 164 }
    ensures { result ≡ at_least30 opened (round_up_to10 n) }
{
    let up = (n + 9) / 10 * 10;
    if opened {
        return up.max(30);
    }
    up
}

// The fu of a pair and four melds that are no pinfu, before rounding.
pub fn raw_fu(ms: [meld::Meld; 4], pair: u8, w: context::GameContext, opened: bool) -> u8
    ensures { (result ≡ base_fu w opened + sum (meld_fu w (spared w ms)) ms + pair_fu w pair + wait_fu w pair ms) × (result ≤ 164) }
{
    let kept = wait::winning_tile_in_closed_sequence(ms, w);
    let melds = melds_fu(ms, w, kept);
    base_fu(w, opened) + melds + pair_fu(pair, w) + wait_fu(ms, pair, w)
}

// The fu of a reading: 25 for seven pairs, 30 for thirteen orphans; pinfu has 20 by tsumo and 30 by ron.
#[tactic(auto, unfolding(crate::specs::Fu::fu, crate::specs::Fu::standard_fu))]
pub fn calculate_fu(h: structure::HandStructure, w: context::GameContext, opened: bool) -> u8
    ensures { result ≡ fu w opened (reading_of h) }
{
    match h {
        structure::HandStructure::Standard { pair, melds } => {
            if wait::is_pinfu(h, w, opened) {
                return if w.is_tsumo() { 20 } else { 30 };
            }
            rounded_fu(raw_fu(melds, pair.0, w, opened), opened)
        }
        structure::HandStructure::Chiitoitsu { pairs: _ } => 25,
        structure::HandStructure::Kokushi { pair: _ } => 30,
    }
}
