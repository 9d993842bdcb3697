// The win (context.rs of agari): how it was won, the winning tile, the winds, the flags, a setting of the room, and the indicators of dora.
#![tactic(auto)]

ghost use Rattle.std.specs.Prelude.{◌≡◌};
ghost use Rattle.context.specs.Context.{is_tsumo, is_dealer, is_setting, in_range, are_indicators, indicators_in, none_shown, ren_indicators, ren_win};

use tile::{Renaming, Tile};

// Indicators of dora: how many are shown, and the tiles. What stands behind the count is not read.
#[repr(C)]
#[derive(Clone, Copy)]
pub struct Indicators {
    pub count: u8,
    pub tiles: [u8; 10],
}

impl Indicators {
    // Are there ten at most, and is each that is shown a tile?
    pub fn are_indicators(self) -> bool
        ensures { result ≡ are_indicators self }
    {
        let Some(shown) = self.tiles.get(..self.count as usize) else {
            return false;
        };
        shown.iter().all(|t| *t < 34)
    }

    // The indicators under a renaming: each of the ten places is renamed; a number above 33 stays.
    pub fn renamed(self, by: Renaming) -> Indicators
        ensures { result ≡ ren_indicators by self }
    {
        Indicators {
            count: self.count,
            tiles: self.tiles.map(|t| Tile(t).renamed(by).0),
        }
    }
}

#[repr(C)]
#[derive(Clone, Copy)]
pub struct GameContext {
    // 0 ron, 1 tsumo
    pub win_type: u8,
    pub winning_tile: u8,
    // 27 to 30: East, South, West, North
    pub round_wind: u8,
    pub seat_wind: u8,
    pub is_riichi: bool,
    pub is_double_riichi: bool,
    pub is_ippatsu: bool,
    pub is_rinshan: bool,
    pub is_chankan: bool,
    pub is_last_tile: bool,
    pub is_tenhou: bool,
    pub is_chiihou: bool,
    // the room's fu for a pair that is both round and seat wind: 4 or 2
    pub double_wind_fu: u8,
    // the tiles shown on the wall, and those below them, which count after a riichi
    pub dora_indicators: Indicators,
    pub ura_dora_indicators: Indicators,
}

impl GameContext {
    // Was it won by self-draw?
    pub fn is_tsumo(self) -> bool
        ensures { result ≡ is_tsumo self }
    {
        self.win_type == 1
    }

    // Is the winner the dealer: is East the seat wind?
    pub fn is_dealer(self) -> bool
        ensures { result ≡ is_dealer self }
    {
        self.seat_wind == 27
    }

    // Is the setting for the pair of the double wind four or two?
    fn has_setting(self) -> bool
        ensures { result ≡ is_setting self.double_wind_fu }
    {
        (self.double_wind_fu == 4) | (self.double_wind_fu == 2)
    }

    // Are the win type, both winds and the room's setting in range?
    pub fn is_in_range(self) -> bool
        ensures { result ≡ in_range self }
    {
        (self.win_type < 2)
            & (Tile(self.round_wind).is_wind()
                & (Tile(self.seat_wind).is_wind() & self.has_setting()))
    }

    // Is no indicator shown, of either sort?
    pub fn shows_none(self) -> bool
        ensures { result ≡ none_shown self }
    {
        (self.dora_indicators.count == 0) & (self.ura_dora_indicators.count == 0)
    }

    // Are there ten indicators at most of either sort, and is each that is shown a tile?
    pub fn has_indicators(self) -> bool
        ensures { result ≡ indicators_in self }
    {
        if self.shows_none() {
            return true;
        }
        self.dora_indicators.are_indicators() & self.ura_dora_indicators.are_indicators()
    }

    // The win under a renaming: the winning tile, both winds and the indicators are renamed.
    pub fn renamed(self, by: Renaming) -> GameContext
        ensures { result ≡ ren_win by self }
    {
        GameContext {
            winning_tile: Tile(self.winning_tile).renamed(by).0,
            round_wind: Tile(self.round_wind).renamed(by).0,
            seat_wind: Tile(self.seat_wind).renamed(by).0,
            dora_indicators: self.dora_indicators.renamed(by),
            ura_dora_indicators: self.ura_dora_indicators.renamed(by),
            ..self
        }
    }
}
