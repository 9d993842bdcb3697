// The tallies of a reading and their han (yaku.rs of agari: detect_yaku_with_context).
#![tactic(auto)]

ghost use Rattle.std.specs.Prelude.{◌≡◌, false, cond, ◌++◌, map, ◌*◌, ◌≤◌, replicate};
ghost use Rattle.lists.specs.Fold.{one};
ghost use Rattle.structure.specs.Structure.{reading_of};
ghost use Rattle.meld_yaku.specs.Standard.{of_standard};
ghost use Rattle.yaku.specs.Tally.{is_chiitoitsu, unless_orphans, orphans_won, one_han, more_han, yakuman, is_yakuman, ordinary, tallies};
ghost use Rattle.yaku.specs.Han.{han_of, dot, han};

pub mod names;

// What is found of a reading: a tally for each yaku, their han, and whether there is a yakuman among them.
#[derive(Clone, Copy)]
pub struct YakuResult {
    pub tallies: [u8; 47],
    pub han: u8,
    pub is_yakuman: bool,
}

// Is it seven pairs?
fn is_chiitoitsu(h: structure::HandStructure) -> bool
    ensures { result ≡ is_chiitoitsu (reading_of h) }
{
    let structure::HandStructure::Chiitoitsu { pairs: _ } = h else {
        return false;
    };
    true
}

// The answer to a question of the tiles; no for thirteen orphans.
fn unless_orphans(q: bool, h: structure::HandStructure) -> bool
    ensures { result ≡ unless_orphans q (reading_of h) }
{
    match h {
        structure::HandStructure::Standard { pair: _, melds: _ } => q,
        structure::HandStructure::Chiitoitsu { pairs: _ } => q,
        structure::HandStructure::Kokushi { pair: _ } => false,
    }
}

// The answer to a question of the tiles; no unless they are a pair and four melds.
fn if_standard(q: bool, h: structure::HandStructure) -> bool
    ensures { result ≡ of_standard (λ p ms. q) (reading_of h) }
{
    let structure::HandStructure::Standard { pair: _, melds: _ } = h else {
        return false;
    };
    q
}

// Are they thirteen orphans, won on the doubled tile (`doubled` yes) or on another one (no)?
fn orphans_won(h: structure::HandStructure, w: context::GameContext, doubled: bool) -> bool
    ensures { result ≡ orphans_won w doubled (reading_of h) }
{
    let structure::HandStructure::Kokushi { pair } = h else {
        return false;
    };
    (w.winning_tile == pair.0) == doubled
}

// The tallies of one han, Riichi to HouteiRaoyui.
fn one_han(
    h: structure::HandStructure,
    s: tile_yaku::TileYaku,
    w: context::GameContext,
    opened: bool,
) -> [u8; 17]
    ensures { result ≡ one_han w opened s (reading_of h) }
{
    let tsumo = w.is_tsumo();
    let riichi = w.is_riichi & !opened;
    let rinshan = w.is_rinshan & tsumo;
    let honors = honor_yaku::check_all_yakuhai(h, w);
    [
        u8::from(riichi & !w.is_double_riichi),
        u8::from(riichi & (w.is_ippatsu & !rinshan)),
        u8::from(tsumo & !opened),
        u8::from(unless_orphans(s.tanyao, h)),
        u8::from(wait::is_pinfu(h, w, opened)),
        u8::from(sequence_yaku::check_iipeikou(h, opened)),
        honors.east,
        honors.south,
        honors.west,
        honors.north,
        honors.white,
        honors.green,
        honors.red,
        u8::from(rinshan),
        u8::from(w.is_chankan & !tsumo),
        u8::from(w.is_last_tile & (tsumo & !w.is_rinshan)),
        u8::from(w.is_last_tile & !tsumo),
    ]
}

// The tallies of more han, DoubleRiichi to Chinitsu.
fn more_han(
    h: structure::HandStructure,
    s: tile_yaku::TileYaku,
    w: context::GameContext,
    opened: bool,
) -> [u8; 15]
    ensures { result ≡ more_han w opened s (reading_of h) }
{
    let sets = set_yaku::check_sets(h, w);
    [
        u8::from((w.is_riichi & !opened) & w.is_double_riichi),
        u8::from(sets.toitoi),
        u8::from(sequence_yaku::check_sanshoku(h)),
        u8::from(sets.sanshoku_doukou),
        u8::from(sequence_yaku::check_ittsu(h)),
        u8::from(is_chiitoitsu(h)),
        u8::from(end_yaku::check_chanta(h)),
        u8::from(sets.sanankou),
        u8::from(sets.sankantsu),
        u8::from(unless_orphans(s.honroutou, h)),
        u8::from(honor_yaku::check_shousangen(h)),
        u8::from(unless_orphans(s.honitsu, h)),
        u8::from(end_yaku::check_junchan(h)),
        u8::from(sequence_yaku::check_ryanpeikou(h, opened)),
        u8::from(unless_orphans(s.chinitsu, h)),
    ]
}

// May there be a yakuman? It takes a first draw, rare tiles, thirteen orphans, or three triplets or kans.
fn may_be_yakuman(
    h: structure::HandStructure,
    s: tile_yaku::TileYaku,
    w: context::GameContext,
    opened: bool,
) -> bool
    ensures { result ≡ false → is_yakuman w opened s (reading_of h) ≡ false }
{
    let tiles = (s.tsuuiisou | s.chinroutou) | (s.ryuuiisou | (!opened & s.nine_gates));
    let orphans = orphans_won(h, w, true) | orphans_won(h, w, false);
    (w.is_tenhou | w.is_chiihou) | (tiles | (orphans | set_yaku::has_three_sets(h)))
}

// The tallies of yakuman, Tenhou to JunseiChuurenPoutou.
fn yakuman_tallies(
    h: structure::HandStructure,
    s: tile_yaku::TileYaku,
    w: context::GameContext,
    opened: bool,
) -> [u8; 15]
    ensures { result ≡ map one (yakuman w opened s (reading_of h)) }
{
    if !may_be_yakuman(h, s, w, opened) {
        return [0; 15];
    }
    let tsumo = w.is_tsumo();
    let dealer = w.is_dealer();
    [
        u8::from(w.is_tenhou & (tsumo & (!opened & dealer))),
        u8::from(w.is_chiihou & (tsumo & (!opened & !dealer))),
        u8::from(orphans_won(h, w, false)),
        u8::from(set_yaku::check_suuankou(h, w, false)),
        u8::from(honor_yaku::check_daisangen(h)),
        u8::from(honor_yaku::check_shousuushii(h)),
        u8::from(honor_yaku::check_daisuushii(h)),
        u8::from(unless_orphans(s.tsuuiisou, h)),
        u8::from(unless_orphans(s.chinroutou, h)),
        u8::from(if_standard(s.ryuuiisou, h)),
        u8::from(if_standard(!opened & (s.nine_gates & !s.pure_wait), h)),
        u8::from(set_yaku::check_kantsu(h, 4)),
        u8::from(orphans_won(h, w, true)),
        u8::from(set_yaku::check_suuankou(h, w, true)),
        u8::from(if_standard(!opened & (s.nine_gates & s.pure_wait), h)),
    ]
}

// All tallies, from those of yakuman: a yakuman leaves every other yaku out.
fn all_tallies(
    h: structure::HandStructure,
    s: tile_yaku::TileYaku,
    w: context::GameContext,
    opened: bool,
    yakuman: [u8; 15],
    is_yakuman: bool,
) -> [u8; 47]
    ensures { result ≡ cond is_yakuman (replicate 32 0) (ordinary w opened s (reading_of h)) ++ yakuman }
{
    let mut all = [0u8; 47];
    lists::put_all(&mut all, 32, &yakuman);
    if is_yakuman {
        return all;
    }
    let one_han = one_han(h, s, w, opened);
    let more_han = more_han(h, s, w, opened);
    lists::put_all(&mut all, 0, &one_han);
    lists::put_all(&mut all, 17, &more_han);
    all
}

// The han of each entry of the tallies in a closed hand.
const HAN_CLOSED: [u8; 47] = [
    1, // Riichi
    1, // Ippatsu
    1, // MenzenTsumo
    1, // Tanyao
    1, // Pinfu
    1, // Iipeikou
    1, // Yakuhai(East)
    1, // Yakuhai(South)
    1, // Yakuhai(West)
    1, // Yakuhai(North)
    1, // Yakuhai(White)
    1, // Yakuhai(Green)
    1, // Yakuhai(Red)
    1, // RinshanKaihou
    1, // Chankan
    1, // HaiteiRaoyue
    1, // HouteiRaoyui
    2, // DoubleRiichi
    2, // Toitoi
    2, // SanshokuDoujun
    2, // SanshokuDoukou
    2, // Ittsu
    2, // Chiitoitsu
    2, // Chanta
    2, // SanAnkou
    2, // SanKantsu
    2, // Honroutou
    2, // Shousangen
    3, // Honitsu
    3, // Junchan
    3, // Ryanpeikou
    6, // Chinitsu
    13, // Tenhou
    13, // Chiihou
    13, // KokushiMusou
    13, // Suuankou
    13, // Daisangen
    13, // Shousuushii
    26, // Daisuushii
    13, // Tsuuiisou
    13, // Chinroutou
    13, // Ryuuiisou
    13, // ChuurenPoutou
    13, // SuuKantsu
    26, // Kokushi13Wait
    26, // SuuankouTanki
    26, // JunseiChuurenPoutou
];

// The han of each entry of the tallies in an open hand; 0 where the yaku needs a closed one.
const HAN_OPEN: [u8; 47] = [
    0, // Riichi
    0, // Ippatsu
    0, // MenzenTsumo
    1, // Tanyao
    0, // Pinfu
    0, // Iipeikou
    1, // Yakuhai(East)
    1, // Yakuhai(South)
    1, // Yakuhai(West)
    1, // Yakuhai(North)
    1, // Yakuhai(White)
    1, // Yakuhai(Green)
    1, // Yakuhai(Red)
    1, // RinshanKaihou
    1, // Chankan
    1, // HaiteiRaoyue
    1, // HouteiRaoyui
    0, // DoubleRiichi
    2, // Toitoi
    1, // SanshokuDoujun
    2, // SanshokuDoukou
    1, // Ittsu
    2, // Chiitoitsu
    1, // Chanta
    2, // SanAnkou
    2, // SanKantsu
    2, // Honroutou
    2, // Shousangen
    2, // Honitsu
    2, // Junchan
    0, // Ryanpeikou
    5, // Chinitsu
    0, // Tenhou
    0, // Chiihou
    0, // KokushiMusou
    0, // Suuankou
    13, // Daisangen
    13, // Shousuushii
    26, // Daisuushii
    13, // Tsuuiisou
    13, // Chinroutou
    13, // Ryuuiisou
    0, // ChuurenPoutou
    13, // SuuKantsu
    0, // Kokushi13Wait
    0, // SuuankouTanki
    0, // JunseiChuurenPoutou
];

// The han of each entry of the tallies.
fn han_table(opened: bool) -> [u8; 47]
    ensures { result ≡ han_of opened }
{
    if opened {
        return HAN_OPEN;
    }
    HAN_CLOSED
}

// A value as often as its tally says.
fn times(value: u8, tally: u8) -> u32
    ensures { (result ≡ value * tally) × (result ≤ 65025) }
{
    u32::from(value) * u32::from(tally)
}

// The sum of each value as often as its tally says.
fn sum_of(values: [u8; 47], tallies: [u8; 47]) -> u32
    ensures { result ≡ dot values tallies }
{
    let mut han = 0;
    for i in 0..47 {
        han += times(values[i], tallies[i]);
    }
    han
}

// What is found of a reading.
pub fn detect_yaku_with_context(
    h: structure::HandStructure,
    s: tile_yaku::TileYaku,
    w: context::GameContext,
    opened: bool,
) -> YakuResult
    ensures { (result.tallies ≡ tallies w opened s (reading_of h)) × ((result.han ≡ han w opened s (reading_of h)) × (result.is_yakuman ≡ is_yakuman w opened s (reading_of h))) }
{
    let yakuman = yakuman_tallies(h, s, w, opened);
    let is_yakuman = lists::any_above_zero(&yakuman);
    let tallies = all_tallies(h, s, w, opened, yakuman, is_yakuman);
    let han = sum_of(han_table(opened), tallies);
    YakuResult {
        tallies: tallies,
        han: han as u8,
        is_yakuman: is_yakuman,
    }
}
