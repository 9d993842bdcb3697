// Waits (wait.rs of agari): what the winning tile completed, pinfu, and which triplets are concealed.
#![tactic(auto)]

ghost use Rattle.std.specs.Prelude.{◌≡◌, ◌+◌, ◌*◌, ◌≤◌, Bool};
ghost use Rattle.lists.specs.Fold.{count};
ghost use Rattle.meld.specs.declared.Meld.{Meld};
ghost use Rattle.structure.specs.Structure.{reading_of};
ghost use Rattle.wait.specs.Wait.{within, two_sided, edge, middle, closed_run, closed_triplet, waits, weight, pinfu};
ghost use Rattle.wait.specs.Concealed.{spared, concealed};

use structure::{all_melds, any_meld};

// How many of the four melds pass the test. All four are asked, with no jump between them: `filter` with `count` takes longer.
pub fn count_melds<F: Fn(meld::Meld) -> bool>(ms: [meld::Meld; 4], test: F) -> u8
    requires { F.IsAlwaysCallable test }
    ensures tally { (p : Meld → Bool) → ((m : Meld) (b : Bool) → F.post test m b → b ≡ p m) → result ≡ count p ms }
    ensures bound { result ≤ 4 }
{
    let mut n = 0;
    for m in ms {
        n += u8::from(test(m));
    }
    n
}

// The tile that a closed sequence starts at; for any other meld a number above every tile.
fn closed_start(m: meld::Meld) -> u32
    ensures { result ≡ m.kind * 256 + m.tile }
{
    u32::from(m.kind) * 256 + u32::from(m.tile)
}

// Ryanmen: is the tile at an end of a closed sequence, where a tile at the other end would have served too?
pub fn is_ryanmen(m: meld::Meld, t: u8) -> bool
    ensures { result ≡ closed_run two_sided t m }
{
    let s = closed_start(m);
    let tile = u32::from(t);
    ((tile == s) & !(t % 9 == 6)) | ((tile == s + 2) & !(t % 9 == 2))
}

// Kanchan: is it in the middle of a closed sequence?
pub fn is_kanchan(m: meld::Meld, t: u8) -> bool
    ensures { result ≡ closed_run middle t m }
{
    u32::from(t) == closed_start(m) + 1
}

// Penchan: is it the 7 of a closed 789 or the 3 of a closed 123?
pub fn is_penchan(m: meld::Meld, t: u8) -> bool
    ensures { result ≡ closed_run edge t m }
{
    let s = closed_start(m);
    let tile = u32::from(t);
    ((tile == s) & (t % 9 == 6)) | ((tile == s + 2) & (t % 9 == 2))
}

// Shanpon: is it the tile of a closed triplet?
pub fn is_shanpon(m: meld::Meld, t: u8) -> bool
    ensures { result ≡ closed_triplet t m }
{
    (m.kind == 2) & (t == m.tile)
}

// Is it one of the three tiles of a closed sequence?
fn holds(m: meld::Meld, t: u8) -> bool
    ensures { result ≡ closed_run within t m }
{
    let s = closed_start(m);
    let tile = u32::from(t);
    (s <= tile) & (tile < s + 3)
}

// Does any of the closed sequences hold the winning tile?
pub fn winning_tile_in_closed_sequence(ms: [meld::Meld; 4], w: context::GameContext) -> bool
    ensures { result ≡ spared w ms }
{
    any_meld(ms, |m| holds(m, w.winning_tile))
}

// Is it a closed kan, or a closed triplet that no ron completed? With `kept` a triplet of the ron tile counts too.
pub fn is_concealed_set(m: meld::Meld, w: context::GameContext, kept: bool) -> bool
    ensures { result ≡ concealed w kept m }
{
    (m.kind == 4) | ((m.kind == 2) & (w.is_tsumo() | (!(w.winning_tile == m.tile) | kept)))
}

// A tally for each wait that the winning tile can have completed: Ryanmen, Kanchan, Penchan, Shanpon, Tanki, Kokushi13. Of
// thirteen orphans Kokushi13 on the pair's tile, else Tanki, which agari has the other way round.
pub fn detect_wait_types(h: structure::HandStructure, winning_tile: tile::Tile) -> [u8; 6]
    ensures { result ≡ waits winning_tile.0 (reading_of h) }
{
    let t = winning_tile.0;
    match h {
        structure::HandStructure::Standard { pair, melds } => [
            count_melds(melds, |m| is_ryanmen(m, t)),
            count_melds(melds, |m| is_kanchan(m, t)),
            count_melds(melds, |m| is_penchan(m, t)),
            count_melds(melds, |m| is_shanpon(m, t)),
            u8::from(t == pair.0),
            0,
        ],
        structure::HandStructure::Chiitoitsu { pairs } => {
            let paired = pairs.contains(&t);
            [0, 0, 0, 0, u8::from(paired), 0]
        }
        structure::HandStructure::Kokushi { pair } => {
            let doubled = t == pair.0;
            [0, 0, 0, 0, u8::from(!doubled), u8::from(doubled)]
        }
    }
}

// How often an honor counts: a dragon once, a wind once as round wind and once as seat wind.
pub fn weight(w: context::GameContext, t: u8) -> u8
    ensures { (result ≡ weight w t) × (result ≤ 3) }
{
    let tile = tile::Tile(t);
    u8::from(tile.is_dragon()) + (u8::from(t == w.round_wind) + u8::from(t == w.seat_wind))
}

// Is it pinfu: a closed hand of sequences, a pair that counts nothing, and a two-sided wait?
pub fn is_pinfu(h: structure::HandStructure, w: context::GameContext, opened: bool) -> bool
    ensures { result ≡ pinfu w opened (reading_of h) }
{
    let structure::HandStructure::Standard { pair, melds } = h else {
        return false;
    };
    let t = w.winning_tile;
    !opened
        & (all_melds(melds, |m| m.is_sequence())
            & ((weight(w, pair.0) == 0) & any_meld(melds, |m| is_ryanmen(m, t))))
}
