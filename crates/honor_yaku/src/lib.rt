// Yaku of winds and dragons (yaku.rs of agari). Each check takes its case apart and otherwise answers no at that line.
#![tactic(auto)]

ghost use Rattle.std.specs.Prelude.{◌≡◌, ◌≤◌};
ghost use Rattle.lists.specs.Fold.{any, count};
ghost use Rattle.tile.specs.Tile.{is_dragon, is_honor, is_wind};
ghost use Rattle.structure.specs.Structure.{reading_of};
ghost use Rattle.meld_yaku.specs.Melds.{set_of};
ghost use Rattle.meld_yaku.specs.Standard.{of_standard};
ghost use Rattle.honor_yaku.specs.Honors.{yakuhai_of, dragons, winds, shousangen, daisangen, shousuushii, daisuushii};

use meld_yaku::{has_set, is_set_of};
use structure::any_meld;
use wait::count_melds;

// How many triplets and kans of dragons there are.
fn count_dragons(ms: [meld::Meld; 4]) -> u8
    ensures { result ≡ dragons ms }
{
    count_melds(
        ms,
        |m| m.is_triplet_or_kan() & tile::Tile(m.tile).is_dragon(),
    )
}

// How many triplets and kans of winds there are.
fn count_winds(ms: [meld::Meld; 4]) -> u8
    ensures { result ≡ winds ms }
{
    count_melds(ms, |m| m.is_triplet_or_kan() & tile::Tile(m.tile).is_wind())
}

// The tally of an honor: its triplets and kans, each as often as the honor counts.
pub fn check_yakuhai(h: structure::HandStructure, w: context::GameContext, t: u8) -> u8
    ensures { (result ≡ yakuhai_of w (reading_of h) t) × (result ≤ 12) }
{
    let structure::HandStructure::Standard { pair: _, melds } = h else {
        return 0;
    };
    count_melds(melds, |m| is_set_of(m, t)) * wait::weight(w, t)
}

// Is one of the melds a triplet or kan of an honor?
fn has_honor_set(ms: [meld::Meld; 4]) -> bool
    ensures { result ≡ any (set_of is_honor) ms }
{
    any_meld(
        ms,
        |m| m.is_triplet_or_kan() & tile::Tile(m.tile).is_honor(),
    )
}

// The tallies of the seven honors.
#[derive(Clone, Copy, Default)]
pub struct Yakuhai {
    pub east: u8,
    pub south: u8,
    pub west: u8,
    pub north: u8,
    pub white: u8,
    pub green: u8,
    pub red: u8,
}

// The tallies of the seven honors: all 0 at once where no meld is a triplet or kan of an honor.
pub fn check_all_yakuhai(h: structure::HandStructure, w: context::GameContext) -> Yakuhai
    ensures { result ≡ record {
      east = yakuhai_of w (reading_of h) 27;
      south = yakuhai_of w (reading_of h) 28;
      west = yakuhai_of w (reading_of h) 29;
      north = yakuhai_of w (reading_of h) 30;
      white = yakuhai_of w (reading_of h) 31;
      green = yakuhai_of w (reading_of h) 32;
      red = yakuhai_of w (reading_of h) 33;
    } }
{
    let structure::HandStructure::Standard { pair: _, melds } = h else {
        return Yakuhai::default();
    };
    if !has_honor_set(melds) {
        return Yakuhai::default();
    }
    Yakuhai {
        east: check_yakuhai(h, w, 27),
        south: check_yakuhai(h, w, 28),
        west: check_yakuhai(h, w, 29),
        north: check_yakuhai(h, w, 30),
        white: check_yakuhai(h, w, 31),
        green: check_yakuhai(h, w, 32),
        red: check_yakuhai(h, w, 33),
    }
}

// Shousangen: two dragon sets and a pair of the third.
pub fn check_shousangen(h: structure::HandStructure) -> bool
    ensures { result ≡ of_standard (λ p ms. shousangen p ms) (reading_of h) }
{
    let structure::HandStructure::Standard { pair, melds } = h else {
        return false;
    };
    pair.is_dragon() & (count_dragons(melds) == 2)
}

// Daisangen: three dragon sets.
pub fn check_daisangen(h: structure::HandStructure) -> bool
    ensures { result ≡ of_standard (λ p ms. daisangen ms) (reading_of h) }
{
    let structure::HandStructure::Standard { pair: _, melds } = h else {
        return false;
    };
    count_dragons(melds) == 3
}

// Shousuushii: three wind sets and a pair of the fourth.
pub fn check_shousuushii(h: structure::HandStructure) -> bool
    ensures { result ≡ of_standard (λ p ms. shousuushii p ms) (reading_of h) }
{
    let structure::HandStructure::Standard { pair, melds } = h else {
        return false;
    };
    (count_winds(melds) == 3) & (pair.is_wind() & !has_set(melds, pair.0))
}

// Daisuushii: four wind sets.
pub fn check_daisuushii(h: structure::HandStructure) -> bool
    ensures { result ≡ of_standard (λ p ms. daisuushii ms) (reading_of h) }
{
    let structure::HandStructure::Standard { pair: _, melds } = h else {
        return false;
    };
    count_winds(melds) == 4
}
