// What can be wrong with the words.
ghost use Rattle.std.specs.Prelude.{◌≡◌};

use tile_words::BadTiles;

// Why the words are not taken.
#[derive(Clone, Copy, PartialEq, Eq)]
pub enum Fault {
    // a word of tiles that is not good
    Tiles(tile_words::Fault),
    // a word that is not known
    Unknown,
    // the tiles behind chi are no sequence
    NoChi,
    // the tiles behind pon are not three alike
    NoPon,
    // the tiles behind kan, ankan or kakan are not four alike
    NoKan,
    // the tiles in round brackets are no sequence, triplet or kan
    NoOpenCall,
    // the tiles in square brackets are not four alike
    NoClosedKan,
    // a bracket that is not closed
    Unclosed,
    // a closing bracket that nothing opens
    Loose,
    // the winning tile is not one tile
    OneTile,
    // a second ron or tsumo
    TwoWins,
    // the word behind round or seat is no wind
    NoWind,
    // the game, the round, the seat, the double wind setting or whom a call came from is said twice
    Twice,
    // an argument that is too long
    TooLong,
    // a word is missing behind the last
    Unfinished,
    // no winning tile
    NoWin,
    // the word behind double is not riichi
    NoRiichi,
    // haitei, the last tile of the wall, with a ron
    HaiteiRon,
    // houtei, the last discard, with a tsumo
    HouteiTsumo,
    // more tiles than a set has
    TooMany,
    // a word for whom a call came from, with no call before it
    NoCallBefore,
    // a call that cannot come from there
    NoSeat,
    // a call from across with three players
    NoAcross,
}

// What is wrong with a text, and the place in it of the character at fault; 0 where the fault is about no single character.
#[derive(Clone, Copy, PartialEq, Eq)]
pub(crate) struct Wrong {
    pub fault: Fault,
    pub at: usize,
}

impl From<Fault> for Wrong {
    fn from(fault: Fault) -> Wrong {
        Wrong { fault, at: 0 }
    }
}

impl From<BadTiles> for Wrong {
    fn from(bad: BadTiles) -> Wrong {
        Wrong {
            fault: Fault::Tiles(bad.fault),
            at: bad.at,
        }
    }
}

// A fault and its places: where the piece at fault begins, the place behind it, and that of the character at fault, which is where the piece begins
// if the fault is about no single character. They are places in a word, and then in the argument that the word stands in.
#[derive(Clone, Copy, PartialEq, Eq)]
pub struct Misread {
    pub fault: Fault,
    pub from: usize,
    pub end: usize,
    pub at: usize,
}

impl Misread {
    // A fault of all words together.
    pub fn of_all(fault: Fault) -> Misread
        ensures { result.fault ≡ fault }
    {
        Misread {
            fault,
            from: 0,
            end: 0,
            at: 0,
        }
    }
}

impl Wrong {
    // What is wrong with a piece, where it begins so many bytes behind the start of its word.
    pub(crate) fn in_piece(self, from: usize, piece: &[u8]) -> Misread {
        Misread {
            fault: self.fault,
            from,
            end: from.saturating_add(piece.len()),
            at: from.saturating_add(self.at),
        }
    }
}

// Why no more words are taken.
#[derive(Clone, Copy, PartialEq, Eq)]
pub enum Stop {
    // how the program is used was asked for
    Help,
    Misread(Misread),
}

impl From<Misread> for Stop {
    fn from(misread: Misread) -> Stop {
        Stop::Misread(misread)
    }
}

// What is wrong with a piece that should be tiles of the hand. One that does not begin with a number is rather an unknown word where a character names
// nothing, or where it has several letters and no number.
pub(crate) fn of_hand_tiles(piece: &[u8], bad: BadTiles) -> Wrong {
    match (bad.fault, piece) {
        (_, [b'0'..=b'9', ..]) => Wrong::from(bad),
        (tile_words::Fault::NoLetter, _) => Wrong::from(Fault::Unknown),
        (tile_words::Fault::BareSuit, [_, _, ..]) if !piece.iter().any(|c| c.is_ascii_digit()) => {
            Wrong::from(Fault::Unknown)
        }
        _ => Wrong::from(bad),
    }
}
