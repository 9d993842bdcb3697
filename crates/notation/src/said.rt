// What the words say: the hand, its calls and the win.
ghost use Rattle.std.specs.Prelude.{◌≡◌, true, false, ◌&&◌, cond, ◌+◌, ◌%◌, ◌<◌, length, IfOk, OnOk, unwrap_or};
ghost use Rattle.context.specs.Context.{in_range};
ghost use Rattle.call_words.specs.Calls.{with_call};
ghost use Rattle.rules.specs.Rules.{game};
ghost use Rattle.notation.specs.Said.{TilesAdded, WonOn, IndicatorsAdded, SourceSaid, GameSaid, wind_tile, win_of};
ghost use Rattle.notation.specs.Table.{played_by, is_three, any_across, seated_at};

use crate::faults::{Fault, Misread, Stop, Wrong, of_hand_tiles};
use crate::pieces::{self, Part};
use crate::{indicators, seats};
use known_words::{Asked, Flag, Source, Wind, Word};

// How and on which tile the hand was won.
#[derive(Clone, Copy)]
pub struct Won {
    pub tsumo: bool,
    pub tile: u8,
}

// What has been said so far.
#[derive(Clone, Copy)]
pub struct Said {
    // the tiles not called, the winning tile included
    pub counts: [u8; 34],
    // the calls as at a table of four: `seated` turns them to that of the game
    pub calls: checks::Calls,
    // of each call that is kept, whether it was said whom it came from
    pub sourced: [bool; 4],
    pub won: Option<Won>,
    pub round: Option<Wind>,
    pub seat: Option<Wind>,
    // whether the room gives two fu for a pair that is both round and seat wind, or four
    pub double_wind_two: Option<bool>,
    pub game: Option<rules::Variant>,
    // by the order of `Flag`
    pub flags: [bool; 8],
    // the word for the last tile was haitei, or houtei
    pub haitei: bool,
    pub houtei: bool,
    // the indicators of dora, and those of ura
    pub dora: context::Indicators,
    pub ura: context::Indicators,
    // how many tiles were said in the hand
    pub tiles: usize,
    // what the next word is to say
    pub wanted: Option<Asked>,
    // the places in its argument where the last word begins and ends
    pub from: usize,
    pub end: usize,
}

// What is wrong with the word for the last tile, if anything is: haitei is drawn, houtei discarded.
fn last_tile_fault(tsumo: bool, haitei: bool, houtei: bool) -> Option<Fault> {
    if haitei & !tsumo {
        return Some(Fault::HaiteiRon);
    }
    if houtei & tsumo {
        return Some(Fault::HouteiTsumo);
    }
    None
}

// The wind that a word names.
fn wind_in(word: &[u8]) -> Result<Wind, Wrong> {
    match known_words::wind_named(word) {
        Some(wind) => Ok(wind),
        None => Err(Wrong::from(Fault::NoWind)),
    }
}

// The wind of a number, 0 for East; past North it begins anew. So a caller that holds a byte for the round or the seat can say it, whatever the byte.
pub fn wind_of(n: u8) -> Wind
    ensures { wind_tile result ≡ 27 + n % 4 }
{
    match n % 4 {
        0 => Wind::East,
        1 => Wind::South,
        2 => Wind::West,
        _ => Wind::North,
    }
}

// The room's fu for a pair that is both round and seat wind: two, or four.
fn double_wind_fu(two: bool) -> u8
    ensures { result ≡ cond two 2 4 }
{
    if two { 2 } else { 4 }
}

impl Said {
    // Before the first word.
    pub fn nothing() -> Said {
        let none = meld::Meld {
            tile: 0,
            kind: 0,
            source: 0,
        };
        Said {
            counts: [0; 34],
            calls: checks::Calls {
                count: 0,
                melds: [none, none, none, none],
            },
            sourced: [false; 4],
            won: None,
            round: None,
            seat: None,
            double_wind_two: None,
            game: None,
            flags: [false; 8],
            haitei: false,
            houtei: false,
            dora: indicators::none(),
            ura: indicators::none(),
            tiles: 0,
            wanted: None,
            from: 0,
            end: 0,
        }
    }

    // ---- tiles, calls and the winning tile

    // Tiles of the hand.
    fn with_tiles(self, word: &[u8]) -> Result<Said, Wrong>
        ensures { IfOk result (λ said. TilesAdded self word.now said) }
    {
        if let Err(bad) = tile_words::check_tiles(word) {
            return Err(of_hand_tiles(word, bad));
        }
        let tiles = self.tiles.saturating_add(tile_words::named_in(word));
        if 136 < tiles {
            return Err(Wrong::from(Fault::TooMany));
        }
        let mut counts = self.counts;
        tile_words::add_tiles(&mut counts, word);
        let mut said = self;
        said.counts = counts;
        said.tiles = tiles;
        Ok(said)
    }

    // A call that was found in a word.
    fn with_call(self, m: meld::Meld) -> Said
        ensures { result.calls ≡ with_call self.calls m }
    {
        let calls = self.calls;
        let mut said = self;
        said.calls = call_words::with_call(calls, m);
        said
    }

    // Whom the last call came from, 1 to 3 seats onward from the player who called. It is said once of each call.
    fn with_source(self, source: u8) -> Result<Said, Wrong>
        ensures { IfOk result (λ said. SourceSaid self source said) }
    {
        let calls = self.calls;
        let mut sourced = self.sourced;
        if calls.count == 0 {
            return Err(Wrong::from(Fault::NoCallBefore));
        }
        let last = calls.count - 1;
        if sourced.get(last).copied().unwrap_or(false) {
            return Err(Wrong::from(Fault::Twice));
        }
        if !call_words::can_come_from(calls, source) {
            return Err(Wrong::from(Fault::NoSeat));
        }
        call_words::put(&mut sourced, last, true);
        let mut said = self;
        said.calls = call_words::with_source(calls, source);
        said.sourced = sourced;
        Ok(said)
    }

    // The tiles of a call of a kind, or of any open one; the fault is for tiles that make none.
    fn called(self, word: &[u8], kind: Option<u8>, no_call: Fault) -> Result<Said, Wrong> {
        tile_words::check_tiles(word)?;
        match call_words::call_in(word, kind) {
            Some(m) => Ok(self.with_call(m)),
            None => Err(Wrong::from(no_call)),
        }
    }

    // The winning tile.
    fn won_on(self, word: &[u8], tsumo: bool) -> Result<Said, Wrong>
        ensures { IfOk result (λ said. WonOn self word.now tsumo said) }
    {
        tile_words::check_tiles(word)?;
        if tile_words::named_in(word) != 1 {
            return Err(Wrong::from(Fault::OneTile));
        }
        let Some(tile) = tile_words::tile_at(word, 0) else {
            return Err(Wrong::from(Fault::OneTile));
        };
        let mut said = self;
        said.won = Some(Won { tsumo, tile });
        Ok(said)
    }

    // ---- the pieces of a word that is not known

    // A call in brackets, by the tiles between them: of a kind, or any open one.
    fn bracketed(
        self,
        piece: Part,
        tiles: &[u8],
        kind: Option<u8>,
        no_call: Fault,
    ) -> Result<Said, Misread> {
        if let Err(bad) = tile_words::check_tiles(tiles) {
            return Err(Wrong::from(bad).in_piece(piece.from.saturating_add(1), tiles));
        }
        self.called(tiles, kind, no_call)
            .map_err(|wrong| wrong.in_piece(piece.from, piece.text))
    }

    // A piece of a word: a call in round brackets for an open call or in square ones for a closed kan, or tiles.
    fn with_piece(self, piece: Part) -> Result<Said, Misread> {
        match piece.text {
            [b'(', tiles @ .., b')'] => self.bracketed(piece, tiles, None, Fault::NoOpenCall),
            [b'[', tiles @ .., b']'] => self.bracketed(piece, tiles, Some(4), Fault::NoClosedKan),
            [b'(' | b'[', ..] => {
                Err(Wrong::from(Fault::Unclosed).in_piece(piece.from, piece.text))
            }
            [b')' | b']', ..] => Err(Wrong::from(Fault::Loose).in_piece(piece.from, piece.text)),
            tiles => self
                .with_tiles(tiles)
                .map_err(|wrong| wrong.in_piece(piece.from, piece.text)),
        }
    }

    // All pieces of a word.
    fn with_pieces(self, word: &[u8]) -> Result<Said, Misread> {
        let mut said = self;
        for piece in pieces::pieces_of(word) {
            said = said.with_piece(piece)?;
        }
        Ok(said)
    }

    // ---- winds, flags and other circumstances

    // The wind of the round.
    fn with_round(mut self, wind: Wind) -> Said {
        self.round = Some(wind);
        self
    }

    // The wind of the seat.
    fn with_seat(mut self, wind: Wind) -> Said {
        self.seat = Some(wind);
        self
    }

    // The dealer, who sits East.
    fn as_dealer(self) -> Result<Said, Wrong> {
        if self.seat.is_some() {
            return Err(Wrong::from(Fault::Twice));
        }
        Ok(self.with_seat(Wind::East))
    }

    // The room's fu for the pair of the double wind: two, or four.
    fn with_double_wind(mut self, two: bool) -> Result<Said, Wrong> {
        if self.double_wind_two.is_some() {
            return Err(Wrong::from(Fault::Twice));
        }
        self.double_wind_two = Some(two);
        Ok(self)
    }

    // The game. It is said once.
    fn with_game(self, game: rules::Variant) -> Result<Said, Wrong>
        ensures { IfOk result (λ said. GameSaid self game said) }
    {
        if self.game.is_some() {
            return Err(Wrong::from(Fault::Twice));
        }
        let mut said = self;
        said.game = Some(game);
        Ok(said)
    }

    // A flag. Double riichi is riichi too.
    fn with_flag(mut self, flag: Flag) -> Said {
        self.flags[flag as usize] = true;
        if flag == Flag::DoubleRiichi {
            self.flags[Flag::Riichi as usize] = true;
        }
        self
    }

    // The last tile: haitei where it is drawn, houtei where it is discarded.
    fn with_last_tile(self, drawn: bool) -> Said {
        let mut said = self.with_flag(Flag::LastTile);
        if drawn {
            said.haitei = true;
        } else {
            said.houtei = true;
        }
        said
    }

    // The word behind double.
    fn with_riichi(self, word: &[u8]) -> Result<Said, Wrong> {
        if known_words::known(word) != Some(Word::Flags(Flag::Riichi)) {
            return Err(Wrong::from(Fault::NoRiichi));
        }
        Ok(self.with_flag(Flag::DoubleRiichi))
    }

    // The tiles behind dora or ura: the indicators as they are shown.
    fn with_indicators(self, word: &[u8], is_ura: bool) -> Result<Said, Wrong>
        ensures { IfOk result (λ said. IndicatorsAdded self word.now is_ura said) }
    {
        tile_words::check_tiles(word)?;
        let dora = self.dora;
        let ura = self.ura;
        let mut said = self;
        if is_ura {
            said.ura = indicators::with_word(ura, word);
            return Ok(said);
        }
        said.dora = indicators::with_word(dora, word);
        Ok(said)
    }

    // ---- words

    // A word that asks for another behind it. Ron and tsumo, round and seat are said once.
    fn asking(mut self, asked: Asked) -> Result<Said, Wrong> {
        match asked {
            Asked::Ron | Asked::Tsumo if self.won.is_some() => Err(Wrong::from(Fault::TwoWins)),
            Asked::Round if self.round.is_some() => Err(Wrong::from(Fault::Twice)),
            Asked::Seat if self.seat.is_some() => Err(Wrong::from(Fault::Twice)),
            _ => {
                self.wanted = Some(asked);
                Ok(self)
            }
        }
    }

    // A known word.
    fn with_known(self, known: Word) -> Result<Said, Wrong> {
        match known {
            Word::Asks(asked) => self.asking(asked),
            Word::Flags(flag) => Ok(self.with_flag(flag)),
            Word::Dealer => self.as_dealer(),
            Word::Haitei => Ok(self.with_last_tile(true)),
            Word::Houtei => Ok(self.with_last_tile(false)),
            Word::DoubleWindTwo => self.with_double_wind(true),
            Word::DoubleWindFour => self.with_double_wind(false),
            Word::CallFrom(source) => self.with_source(source as u8),
            Word::ThreePlayers => self.with_game(rules::Variant::Sanma),
            Word::FourPlayers => self.with_game(rules::Variant::Yonma),
            Word::Help | Word::Nothing => Ok(self),
        }
    }

    // A word that may be anything.
    fn with_any(self, word: &[u8]) -> Result<Said, Stop> {
        match known_words::known(word) {
            Some(Word::Help) => Err(Stop::Help),
            Some(known) => self
                .with_known(known)
                .map_err(|wrong| Stop::from(wrong.in_piece(0, word))),
            None => Ok(self.with_pieces(word)?),
        }
    }

    // The word that the one before asked for.
    fn with_asked(self, word: &[u8], asked: Asked) -> Result<Said, Wrong> {
        match asked {
            Asked::Chi => self.called(word, Some(1), Fault::NoChi),
            Asked::Pon => self.called(word, Some(3), Fault::NoPon),
            Asked::Kan => self.called(word, Some(5), Fault::NoKan),
            Asked::ClosedKan => self.called(word, Some(4), Fault::NoKan),
            Asked::AddedKan => self.called(word, Some(6), Fault::NoKan),
            Asked::Ron => self.won_on(word, false),
            Asked::Tsumo => self.won_on(word, true),
            Asked::Round => Ok(self.with_round(wind_in(word)?)),
            Asked::Seat => Ok(self.with_seat(wind_in(word)?)),
            Asked::Riichi => self.with_riichi(word),
            Asked::Dora => self.with_indicators(word, false),
            Asked::Ura => self.with_indicators(word, true),
        }
    }

    // One word more, without blanks.
    fn with_word(mut self, word: &[u8]) -> Result<Said, Stop> {
        let Some(asked) = self.wanted else {
            return self.with_any(word);
        };
        self.wanted = None;
        self.with_asked(word, asked)
            .map_err(|wrong| Stop::from(wrong.in_piece(0, word)))
    }

    // A word of an argument.
    fn take_word(mut self, word: Part) -> Result<Said, Stop> {
        self.from = word.from;
        self.end = word.from.saturating_add(word.text.len());
        let mut buffer = [0u8; 512];
        self.with_word(word.joined(&mut buffer))
            .map_err(|stop| word.placed(stop))
    }

    // One argument more, with any number of words.
    pub fn take(self, argument: &[u8]) -> Result<Said, Stop> {
        if pieces::LONGEST < argument.len() {
            return Err(Stop::from(Wrong::from(Fault::TooLong).in_piece(0, argument)));
        }
        let mut said = self;
        for word in pieces::words_of(argument) {
            said = said.take_word(word)?;
        }
        Ok(said)
    }

    // After the last argument: nothing may be missing, nobody sits across where three play, and the word for the last tile fits the win.
    pub fn finished(self) -> Result<Said, Stop>
        ensures same { IfOk result (λ said. said ≡ self) }
        ensures across { OnOk result ((is_three self.game && any_across self.calls) ≡ false) }
    {
        if self.wanted.is_some() {
            return Err(Stop::Misread(Misread {
                fault: Fault::Unfinished,
                from: self.from,
                end: self.end,
                at: self.from,
            }));
        }
        let Some(won) = self.won else {
            return Err(Stop::from(Misread::of_all(Fault::NoWin)));
        };
        let calls = self.calls;
        if self.is_three() & seats::any_across(calls) {
            return Err(Stop::from(Misread::of_all(Fault::NoAcross)));
        }
        match last_tile_fault(won.tsumo, self.haitei, self.houtei) {
            Some(fault) => Err(Stop::from(Misread::of_all(fault))),
            None => Ok(self),
        }
    }

    // The game that is played: with four players, where none was said.
    pub fn game(self) -> rules::Variant
        ensures { result ≡ played_by self.game }
    {
        self.game.unwrap_or(rules::Variant::Yonma)
    }

    // Do three play?
    fn is_three(self) -> bool
        ensures { result ≡ is_three self.game }
    {
        matches!(self.game, Some(rules::Variant::Sanma))
    }

    // The calls at the table of the game.
    pub fn seated(self) -> checks::Calls
        ensures { result ≡ seated_at (game (played_by self.game)) self.calls }
    {
        let calls = self.calls;
        seats::seated(calls, self.game())
    }

    // The wind of the round: East, where none was said.
    pub fn round_wind(self) -> Wind
        ensures { result ≡ unwrap_or self.round Wind.East }
    {
        self.round.unwrap_or(Wind::East)
    }

    // The wind of the seat: South, where none was said.
    pub fn seat_wind(self) -> Wind
        ensures { result ≡ unwrap_or self.seat Wind.South }
    {
        self.seat.unwrap_or(Wind::South)
    }

    // The win. Its type, its winds and the room's setting are always in range.
    pub fn win(self) -> context::GameContext
        ensures value { result ≡ win_of self }
        ensures range { in_range result ≡ true }
    {
        let flags = self.flags;
        let dora = self.dora;
        let ura = self.ura;
        let won = self.won.unwrap_or(Won {
            tsumo: false,
            tile: 0,
        });
        context::GameContext {
            win_type: u8::from(won.tsumo),
            winning_tile: won.tile,
            round_wind: 27 + self.round_wind() as u8,
            seat_wind: 27 + self.seat_wind() as u8,
            is_riichi: flags[0],
            is_double_riichi: flags[1],
            is_ippatsu: flags[2],
            is_rinshan: flags[3],
            is_chankan: flags[4],
            is_last_tile: flags[5],
            is_tenhou: flags[6],
            is_chiihou: flags[7],
            double_wind_fu: double_wind_fu(self.double_wind_two.unwrap_or(false)),
            dora_indicators: dora,
            ura_dora_indicators: ura,
        }
    }
}
