// Yaku of triplets and kans (yaku.rs of agari). Each check takes its case apart and otherwise answers no at that line.
#![tactic(auto)]

ghost use Rattle.std.specs.Prelude.{◌≡◌, not, ◌&&◌, ◌%◌, cond, eqb, leb};
ghost use Rattle.lists.specs.Fold.{all, any, count};
ghost use Rattle.meld.specs.Meld.{is_triplet_or_kan};
ghost use Rattle.structure.specs.Structure.{reading_of};
ghost use Rattle.wait.specs.Concealed.{concealed};
ghost use Rattle.meld_yaku.specs.Melds.{set_of, three_suits};
ghost use Rattle.meld_yaku.specs.Standard.{of_standard};
ghost use Rattle.set_yaku.specs.Sets.{toitoi, kans, san_ankou, sanshoku_doukou, suuankou};

use meld_yaku::{has_set, three_suits};
use structure::all_melds;
use wait::count_melds;

// How many triplets and kans are concealed; with `kept` a triplet of the ron tile too.
fn count_concealed(ms: [meld::Meld; 4], w: context::GameContext, kept: bool) -> u8
    ensures { result ≡ count (concealed w kept) ms }
{
    count_melds(ms, |m| wait::is_concealed_set(m, w, kept))
}

// Are there three triplets or kans or more? Most hands have fewer, and many yaku need them.
pub fn has_three_sets(h: structure::HandStructure) -> bool
    ensures { result ≡ of_standard (λ p ms. leb 3 (count is_triplet_or_kan ms)) (reading_of h) }
{
    let structure::HandStructure::Standard { pair: _, melds } = h else {
        return false;
    };
    3 <= count_melds(melds, |m| m.is_triplet_or_kan())
}

// Toitoi: triplets and kans only.
pub fn check_toitoi(h: structure::HandStructure) -> bool
    ensures { result ≡ of_standard (λ p ms. toitoi ms) (reading_of h) }
{
    let structure::HandStructure::Standard { pair: _, melds } = h else {
        return false;
    };
    all_melds(melds, |m| m.is_triplet_or_kan())
}

// Is there a triplet or kan of the tile's number in each suit?
fn sets_of_number(ms: [meld::Meld; 4], t: u8) -> bool
    ensures { result ≡ all (λ u. any (set_of (eqb u)) ms) (three_suits (t % 9)) }
{
    let line = three_suits(t);
    line.iter().all(|u| has_set(ms, *u))
}

// Sanshoku doukou: the same triplet in all three suits. That takes three of the four melds, so one of the first two is among them.
pub fn check_sanshoku_doukou(h: structure::HandStructure) -> bool
    ensures { result ≡ of_standard (λ p ms. sanshoku_doukou ms) (reading_of h) }
{
    let structure::HandStructure::Standard { pair: _, melds } = h else {
        return false;
    };
    melds[..2].iter().any(|m| sets_of_number(melds, m.tile))
}

// San ankou: three concealed triplets or kans.
pub fn check_sanankou(h: structure::HandStructure, w: context::GameContext) -> bool
    ensures { result ≡ of_standard (λ p ms. san_ankou w ms) (reading_of h) }
{
    let structure::HandStructure::Standard { pair: _, melds } = h else {
        return false;
    };
    count_concealed(melds, w, wait::winning_tile_in_closed_sequence(melds, w)) == 3
}

// San kantsu and suu kantsu: so many kans.
pub fn check_kantsu(h: structure::HandStructure, n: u8) -> bool
    ensures { result ≡ of_standard (λ p ms. eqb (kans ms) n) (reading_of h) }
{
    let structure::HandStructure::Standard { pair: _, melds } = h else {
        return false;
    };
    count_melds(melds, |m| m.is_kan()) == n
}

// The yaku of three triplets or kans, the four together.
#[derive(Clone, Copy, Default)]
pub struct SetYaku {
    pub toitoi: bool,
    pub sanshoku_doukou: bool,
    pub sanankou: bool,
    pub sankantsu: bool,
}

// Toitoi, Sanshoku doukou, San ankou and San kantsu: all no at once where there are fewer than three triplets and kans.
pub fn check_sets(h: structure::HandStructure, w: context::GameContext) -> SetYaku
    ensures { result ≡ record {
      toitoi = of_standard (λ p ms. toitoi ms) (reading_of h);
      sanshoku_doukou = of_standard (λ p ms. sanshoku_doukou ms) (reading_of h);
      sanankou = of_standard (λ p ms. san_ankou w ms) (reading_of h);
      sankantsu = of_standard (λ p ms. eqb (kans ms) 3) (reading_of h);
    } }
{
    if !has_three_sets(h) {
        return SetYaku::default();
    }
    SetYaku {
        toitoi: check_toitoi(h),
        sanshoku_doukou: check_sanshoku_doukou(h),
        sanankou: check_sanankou(h, w),
        sankantsu: check_kantsu(h, 3),
    }
}

// Suuankou: four concealed triplets or kans, won on the pair's tile (`on_pair` yes, Suuankou tanki) or on another one (no).
pub fn check_suuankou(h: structure::HandStructure, w: context::GameContext, on_pair: bool) -> bool
    ensures { result ≡ of_standard (λ p ms. suuankou w ms && cond on_pair (eqb w.winning_tile p) (not (eqb w.winning_tile p))) (reading_of h) }
{
    let structure::HandStructure::Standard { pair, melds } = h else {
        return false;
    };
    (count_concealed(melds, w, false) == 4) & ((w.winning_tile == pair.0) == on_pair)
}
