// Yaku of sequences (yaku.rs of agari). Each check takes its case apart and otherwise answers no at that line.
#![tactic(auto)]

ghost use Rattle.std.specs.Prelude.{◌≡◌, not, ◌&&◌, [], ◌∷◌, ◌+◌, ◌*◌, ◌/◌, ◌%◌, ◌≤◌, eqb, leb, ltb};
ghost use Rattle.lists.specs.Fold.{all, any};
ghost use Rattle.tile.specs.Tile.{is_start};
ghost use Rattle.meld.specs.Meld.{is_sequence};
ghost use Rattle.structure.specs.Structure.{reading_of};
ghost use Rattle.meld_yaku.specs.Melds.{run_from, three_suits};
ghost use Rattle.meld_yaku.specs.Standard.{of_standard};
ghost use Rattle.sequence_yaku.specs.Sequences.{ittsu, sanshoku_doujun, peikou};

// Is it a sequence from the tile?
fn is_run_from(m: meld::Meld, t: u8) -> bool
    ensures { result ≡ run_from t m }
{
    m.is_sequence() & (t == m.tile)
}

// Is one of the melds a sequence from the tile?
fn has_run(ms: [meld::Meld; 4], t: u8) -> bool
    ensures { result ≡ any (run_from t) ms }
{
    structure::any_meld(ms, |m| is_run_from(m, t))
}

// Are two melds the same sequence, from a tile where one can start?
fn is_same_run(a: meld::Meld, b: meld::Meld) -> bool
    ensures { result ≡ ((is_sequence a && is_start a.tile) && run_from a.tile b) }
{
    let t = tile::Tile(a.tile);
    (a.is_sequence() & t.is_start()) & is_run_from(b, a.tile)
}

// How many pairs of identical sequences there are: each meld makes a pair where an odd number of those after it are the same.
fn count_peikou(ms: [meld::Meld; 4]) -> u8
    ensures { (result ≡ peikou ms) × (result ≤ 3) }
{
    let [a, b, c, d] = ms;
    let first = is_same_run(a, b) ^ (is_same_run(a, c) ^ is_same_run(a, d));
    let second = is_same_run(b, c) ^ is_same_run(b, d);
    u8::from(first) + (u8::from(second) + u8::from(is_same_run(c, d)))
}

// Iipeikou: one pair of identical sequences.
pub fn check_iipeikou(h: structure::HandStructure, opened: bool) -> bool
    ensures { result ≡ of_standard (λ p ms. not opened && eqb (peikou ms) 1) (reading_of h) }
{
    let structure::HandStructure::Standard { pair: _, melds } = h else {
        return false;
    };
    !opened & (count_peikou(melds) == 1)
}

// Ryanpeikou: two pairs of identical sequences.
pub fn check_ryanpeikou(h: structure::HandStructure, opened: bool) -> bool
    ensures { result ≡ of_standard (λ p ms. not opened && leb 2 (peikou ms)) (reading_of h) }
{
    let structure::HandStructure::Standard { pair: _, melds } = h else {
        return false;
    };
    !opened & (2 <= count_peikou(melds))
}

// Is there a sequence at the tile's number in each suit? A sequence starts at 1 to 7.
fn runs_of_number(ms: [meld::Meld; 4], t: u8) -> bool
    ensures { result ≡ (ltb (t % 9) 7 && all (λ u. any (run_from u) ms) (three_suits (t % 9))) }
{
    let line = meld_yaku::three_suits(t);
    (t % 9 < 7) & line.iter().all(|u| has_run(ms, *u))
}

// Sanshoku doujun: the same sequence in all three suits. That takes three of the four melds, so one of the first two is among them.
pub fn check_sanshoku(h: structure::HandStructure) -> bool
    ensures { result ≡ of_standard (λ p ms. sanshoku_doujun ms) (reading_of h) }
{
    let structure::HandStructure::Standard { pair: _, melds } = h else {
        return false;
    };
    melds[..2].iter().any(|m| runs_of_number(melds, m.tile))
}

// Are 123, 456 and 789 of the tile's suit there?
fn straight_of_suit(ms: [meld::Meld; 4], t: u8) -> bool
    ensures { result ≡ (ltb (t / 9) 3 && all (λ u. any (run_from u) ms) ((t / 9 * 9) ∷ (t / 9 * 9 + 3) ∷ (t / 9 * 9 + 6) ∷ [])) }
{
    let suit = t / 9;
    if 3 <= suit {
        return false;
    }
    let first = suit * 9;
    [first, first + 3, first + 6]
        .iter()
        .all(|u| has_run(ms, *u))
}

// Ittsu: 123, 456 and 789 of one suit. That takes three of the four melds, so one of the first two is among them.
pub fn check_ittsu(h: structure::HandStructure) -> bool
    ensures { result ≡ of_standard (λ p ms. ittsu ms) (reading_of h) }
{
    let structure::HandStructure::Standard { pair: _, melds } = h else {
        return false;
    };
    melds[..2].iter().any(|m| straight_of_suit(melds, m.tile))
}
