// The characters of words of tiles, each by itself.
ghost use Rattle.std.specs.Prelude.{◌≡◌};
ghost use Rattle.tile_words.specs.Chars.{is_number, suit_of, west_or_white, honor_of, tile_of, is_silent, is_strange, below};

// Is the character one of 0 to 9?
pub fn is_number(c: u8) -> bool
    ensures { result ≡ is_number c }
{
    c.is_ascii_digit()
}

// The suit of a letter: 0 man, 1 pin, 2 sou, 3 honors. No other character has one. A suit stays a number: its tiles begin at nine times that.
#[tactic(auto, using(std::proofs::lemmas::Bool::Decides::nat_tests), unfolding(crate::specs::Chars::suit_of))]
pub fn suit_of(c: u8) -> Option<u8>
    ensures { result ≡ below 4 (suit_of c) }
{
    match c {
        b'm' | b'M' => Some(0),
        b'p' | b'P' => Some(1),
        b's' | b'S' => Some(2),
        b'z' | b'Z' => Some(3),
        _ => None,
    }
}

// The tile of w: White before h, else West.
fn west_or_white(next: u8) -> u8
    ensures { result ≡ west_or_white next }
{
    match next {
        b'h' | b'H' => 31,
        _ => 29,
    }
}

// The honor of a letter with the character behind it. No other character names one.
#[tactic(auto, using(std::proofs::lemmas::Bool::Decides::nat_tests), unfolding(crate::specs::Chars::honor_of))]
pub fn honor_of(c: u8, next: u8) -> Option<u8>
    ensures { result ≡ below 34 (honor_of c next) }
{
    match c {
        b'e' | b'E' => Some(27),
        b's' | b'S' => Some(28),
        b'w' | b'W' => Some(west_or_white(next)),
        b'n' | b'N' => Some(30),
        b'g' | b'G' => Some(32),
        b'r' | b'R' => Some(33),
        _ => None,
    }
}

// The tile of a number in a suit, where there is one. There is no 8 or 9 among the honors; 0 is how players write a red five, which is not counted.
#[tactic(auto, using(std::proofs::lemmas::Bool::Decides::nat_tests), unfolding(crate::specs::Chars::tile_of))]
pub fn tile_of(c: u8, suit: u8) -> Option<u8>
    ensures { result ≡ below 34 (tile_of c suit) }
{
    match (suit, c) {
        (0..=2, b'1'..=b'9') | (3, b'1'..=b'7') => Some(suit * 9 + (c - b'1')),
        _ => None,
    }
}

// Is c good behind b, though it names no tile: the letter of a suit right behind a number, or the h of wh?
pub fn is_silent(b: u8, c: u8) -> bool
    ensures { result ≡ is_silent b c }
{
    (is_number(b) & suit_of(c).is_some())
        | (((b == b'w') | (b == b'W')) & ((c == b'h') | (c == b'H')))
}

// Is the character neither the letter of a suit nor that of an honor? The 0 past the end of a word is no character.
pub fn is_strange(c: u8) -> bool
    ensures { result ≡ is_strange c }
{
    (0 < c) & (suit_of(c).is_none() & honor_of(c, 0).is_none())
}
