// Tiles (tile.rs of agari), by their numbers: 0 to 8 man 1 to 9, 9 to 17 pin, 18 to 26 sou,
// 27 to 33 East, South, West, North, White, Green, Red. A number above 33 is no tile: each question about it is answered no.
// And renamings of tiles, a term of the scope paper: one rule for all 34 tiles, under which a hand keeps its worth.
#![tactic(auto)]

ghost use Rattle.std.specs.Prelude.{◌≡◌};
ghost use Rattle.tile.specs.Tile.{is_suited, is_simple, is_terminal, is_terminal_or_honor, is_honor, is_dragon, is_wind, is_green, is_start, suit_of, value_of};
ghost use Rattle.tile.specs.Renaming.{three, order_to, wind_to, ren_number, ren_honor, ren};

#[derive(Clone, Copy)]
pub struct Tile(pub u8);

impl Tile {
    // Is this a tile of man, pin or sou?
    pub fn is_suited(self) -> bool
        ensures { result ≡ is_suited self.0 }
    {
        self.0 < 27
    }

    // Is this a simple tile (2 to 8 of any suit)?
    pub fn is_simple(self) -> bool
        ensures { result ≡ is_simple self.0 }
    {
        (self.0 < 27) & !((self.0 % 9 == 0) | (self.0 % 9 == 8))
    }

    // Is this a terminal (1 or 9 of a suit)?
    pub fn is_terminal(self) -> bool
        ensures { result ≡ is_terminal self.0 }
    {
        (self.0 < 27) & ((self.0 % 9 == 0) | (self.0 % 9 == 8))
    }

    // Is this a terminal or an honor?
    pub fn is_terminal_or_honor(self) -> bool
        ensures { result ≡ is_terminal_or_honor self.0 }
    {
        self.is_terminal() | self.is_honor()
    }

    // Is this an honor (a wind or a dragon)?
    pub fn is_honor(self) -> bool
        ensures { result ≡ is_honor self.0 }
    {
        (27 <= self.0) & (self.0 < 34)
    }

    // Is this a dragon (White, Green, Red)?
    pub fn is_dragon(self) -> bool
        ensures { result ≡ is_dragon self.0 }
    {
        (31 <= self.0) & (self.0 < 34)
    }

    // Is this a wind (East, South, West, North)?
    pub fn is_wind(self) -> bool
        ensures { result ≡ is_wind self.0 }
    {
        (27 <= self.0) & (self.0 < 31)
    }

    // Is this a green tile (sou 2, 3, 4, 6, 8 or Green)?
    pub fn is_green(self) -> bool
        ensures { result ≡ is_green self.0 }
    {
        ((19 <= self.0) & (self.0 < 22)) | ((self.0 == 23) | ((self.0 == 25) | (self.0 == 32)))
    }

    // Can a sequence start here (1 to 7 of a suit)?
    pub fn is_start(self) -> bool
        ensures { result ≡ is_start self.0 }
    {
        (self.0 < 27) & (self.0 % 9 < 7)
    }

    // The suit: 0 man, 1 pin, 2 sou; 3 where it is of no suit. A number and no Option, as the contract promises the one of `suit_of`.
    pub fn suit(self) -> u8
        ensures { result ≡ suit_of self.0 }
    {
        if self.0 < 27 { self.0 / 9 } else { 3 }
    }

    // The number in its suit, 1 to 9; 0 where it is of no suit: the one of `value_of`, likewise.
    pub fn value(self) -> u8
        ensures { result ≡ value_of self.0 }
    {
        if self.0 < 27 { self.0 % 9 + 1 } else { 0 }
    }

    // The tile under a renaming.
    pub fn renamed(self, by: Renaming) -> Tile
        ensures { result.0 ≡ ren by self.0 }
    {
        if self.0 < 27 {
            Tile(by.numbers.of(self.0))
        } else {
            Tile(by.honors.of(self.0))
        }
    }
}

// How three change places: man, pin and sou, or South, West and North. A name says what the three, a, b and c, become.
#[derive(Clone, Copy)]
pub enum Order {
    Abc,
    Acb,
    Bac,
    Bca,
    Cab,
    Cba,
}

// One of three numbers, by its place.
fn one_of(place: u8, a: u8, b: u8, c: u8) -> u8
    ensures { result ≡ three a b c place }
{
    match place {
        0 => a,
        1 => b,
        _ => c,
    }
}

impl Order {
    // The place, 0 to 2, that a place becomes.
    pub fn of(self, place: u8) -> u8
        ensures { result ≡ order_to self place }
    {
        match self {
            Order::Abc => one_of(place, 0, 1, 2),
            Order::Acb => one_of(place, 0, 2, 1),
            Order::Bac => one_of(place, 1, 0, 2),
            Order::Bca => one_of(place, 1, 2, 0),
            Order::Cab => one_of(place, 2, 0, 1),
            Order::Cba => one_of(place, 2, 1, 0),
        }
    }
}

// A renaming's part for the suits: each suit goes to a suit, and all numbers n stay or all become 10 - n.
#[derive(Clone, Copy)]
pub struct Numbers {
    pub suits: Order,
    pub mirror: bool,
}

// A renaming's part for the honors: White and Red stay or change places, and South, West and North change places in any way.
#[derive(Clone, Copy)]
pub struct Honors {
    pub dragons: bool,
    pub winds: Order,
}

// A renaming, in two parts that do not depend on each other.
#[derive(Clone, Copy)]
pub struct Renaming {
    pub numbers: Numbers,
    pub honors: Honors,
}

impl Numbers {
    // The tile number that a tile of a suit becomes.
    pub fn of(self, t: u8) -> u8
        ensures { result ≡ ren_number self t }
    {
        let suit = self.suits.of(t / 9);
        if self.mirror {
            return suit * 9 + (8 - t % 9);
        }
        suit * 9 + t % 9
    }
}

impl Honors {
    // The tile number that an honor becomes: White (31) and Red (33), or South to North (28 to 30); any other stays.
    pub fn of(self, t: u8) -> u8
        ensures { result ≡ ren_honor self t }
    {
        if self.dragons & ((t == 31) | (t == 33)) {
            return 64 - t;
        }
        if (28 <= t) & (t < 31) {
            return 28 + self.winds.of(t - 28);
        }
        t
    }
}
