// Why the unit refuses: one name for each of its numbers.
ghost use Rattle.std.specs.Prelude.{◌≡◌};
ghost use Rattle.rules.specs.Refusals.{refusal_number};

// A refusal. Its number is what C is answered.
#[derive(Clone, Copy, Debug, PartialEq, Eq)]
pub enum Refusal {
    // the counts are not 34
    CountsLength = 1,
    // more than four calls
    TooManyCalls = 2,
    // a call is not a meld that can be called in this game
    NotACall = 3,
    // more than four of a tile in the hand, or a tile that is not in the wall
    CountAboveFour = 4,
    // hand and calls together hold more than four of a tile
    FiveOfAKind = 5,
    // the hand's tiles are not 14, less three for each call
    NumberOfTiles = 6,
    // the lent buffer is shorter than the records
    BufferTooShort = 7,
    // the win type, a wind or the room's setting is out of range
    OutOfRange = 8,
    // the winning tile is none, or not in the hand
    WinningTile = 9,
    // the hand has no reading
    NoReading = 10,
    // no reading has a yaku
    NoYaku = 11,
    // there are not more readings than the number that is asked for
    NoSuchReading = 12,
    // more basic points than any hand has
    BasicPoints = 13,
    // the indicators are out of order, or the game has none
    Indicators = 14,
    // a seat is none, or the discarder is the winner
    Seats = 15,
    // the book takes no deal more
    Book = 16,
}

impl From<Refusal> for u32 {
    ghost from_gives = { λ refusal n. n ≡ refusal_number refusal };

    // The number that C is answered.
    fn from(refusal: Refusal) -> u32 {
        refusal as u32
    }
}

impl From<Refusal> for u8 {
    ghost from_gives = { λ refusal n. n ≡ refusal_number refusal };

    // The number in the unit's own answers.
    fn from(refusal: Refusal) -> u8 {
        refusal as u8
    }
}
