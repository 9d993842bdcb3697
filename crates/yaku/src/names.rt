// The names of the yaku (Yaku of yaku.rs of agari) in its order, the three local ones left out: their han, and their places in the tallies.
ghost use Rattle.std.specs.Prelude.{◌≡◌};
ghost use Rattle.yaku.specs.Names.{han_closed, han_open, is_yakuman_name, honor_place, place};

#[derive(Clone, Copy)]
pub enum Yaku {
    Riichi,
    Ippatsu,
    MenzenTsumo,
    Tanyao,
    Pinfu,
    Iipeikou,
    Yakuhai(tile::Tile),
    RinshanKaihou,
    Chankan,
    HaiteiRaoyue,
    HouteiRaoyui,
    DoubleRiichi,
    Toitoi,
    SanshokuDoujun,
    SanshokuDoukou,
    Ittsu,
    Chiitoitsu,
    Chanta,
    SanAnkou,
    SanKantsu,
    Honroutou,
    Shousangen,
    Honitsu,
    Junchan,
    Ryanpeikou,
    Chinitsu,
    Tenhou,
    Chiihou,
    KokushiMusou,
    Suuankou,
    Daisangen,
    Shousuushii,
    Daisuushii,
    Tsuuiisou,
    Chinroutou,
    Ryuuiisou,
    ChuurenPoutou,
    SuuKantsu,
    Kokushi13Wait,
    SuuankouTanki,
    JunseiChuurenPoutou,
}

// The place of an honor's Yakuhai, East's first; 47, where no tally stands, for a tile that is no honor.
fn honor_place(t: tile::Tile) -> usize
    ensures { result ≡ honor_place t.0 }
{
    if t.is_honor() {
        return (t.0 as usize) - 21;
    }
    47
}

impl Yaku {
    // Its place in the tallies, Yakuhai apart for each honor; 47 for a Yakuhai of a tile that is no honor.
    pub fn place(self) -> usize
        ensures { result ≡ place self }
    {
        match self {
            Yaku::Riichi => 0,
            Yaku::Ippatsu => 1,
            Yaku::MenzenTsumo => 2,
            Yaku::Tanyao => 3,
            Yaku::Pinfu => 4,
            Yaku::Iipeikou => 5,
            Yaku::Yakuhai(t) => honor_place(t),
            Yaku::RinshanKaihou => 13,
            Yaku::Chankan => 14,
            Yaku::HaiteiRaoyue => 15,
            Yaku::HouteiRaoyui => 16,
            Yaku::DoubleRiichi => 17,
            Yaku::Toitoi => 18,
            Yaku::SanshokuDoujun => 19,
            Yaku::SanshokuDoukou => 20,
            Yaku::Ittsu => 21,
            Yaku::Chiitoitsu => 22,
            Yaku::Chanta => 23,
            Yaku::SanAnkou => 24,
            Yaku::SanKantsu => 25,
            Yaku::Honroutou => 26,
            Yaku::Shousangen => 27,
            Yaku::Honitsu => 28,
            Yaku::Junchan => 29,
            Yaku::Ryanpeikou => 30,
            Yaku::Chinitsu => 31,
            Yaku::Tenhou => 32,
            Yaku::Chiihou => 33,
            Yaku::KokushiMusou => 34,
            Yaku::Suuankou => 35,
            Yaku::Daisangen => 36,
            Yaku::Shousuushii => 37,
            Yaku::Daisuushii => 38,
            Yaku::Tsuuiisou => 39,
            Yaku::Chinroutou => 40,
            Yaku::Ryuuiisou => 41,
            Yaku::ChuurenPoutou => 42,
            Yaku::SuuKantsu => 43,
            Yaku::Kokushi13Wait => 44,
            Yaku::SuuankouTanki => 45,
            Yaku::JunseiChuurenPoutou => 46,
        }
    }

    // The han in a closed hand; 13 for each time that a yakuman counts.
    pub fn han(self) -> u8
        ensures { result ≡ han_closed self }
    {
        let at = self.place();
        if 47 <= at {
            return 1;
        }
        crate::HAN_CLOSED[at]
    }

    // The han in an open hand; 0 where the yaku needs a closed one.
    pub fn han_open(self) -> u8
        ensures { result ≡ han_open self }
    {
        let at = self.place();
        if 47 <= at {
            return 1;
        }
        crate::HAN_OPEN[at]
    }

    // Is this a yakuman? They stand last.
    pub fn is_yakuman(self) -> bool
        ensures { result ≡ is_yakuman_name self }
    {
        let at = self.place();
        (32 <= at) & (at < 47)
    }
}
