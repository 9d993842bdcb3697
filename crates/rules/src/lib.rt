// Which game is played (Variant in rules.rs of agari), and what differs between the two: the tiles in the wall, whether a sequence may be called,
// how many players there are, and whether indicators of dora are shown.
#![tactic(auto)]

pub mod refusals;

ghost use Rattle.std.specs.Prelude.{◌≡◌};
ghost use Rattle.rules.specs.Rules.{game};

pub use refusals::Refusal;

// Four-player mahjong; or three-player mahjong: no man 2 to 8 and no chi.
#[derive(Clone, Copy, PartialEq, Eq)]
pub enum Variant {
    Yonma,
    Sanma,
}

impl Variant {
    // How many players sit at the table.
    pub fn players(self) -> u64
        ensures { result ≡ (game self).players }
    {
        match self {
            Variant::Yonma => 4,
            Variant::Sanma => 3,
        }
    }

    // Is this tile in the wall?
    pub fn in_wall(self, t: u8) -> bool
        ensures { result ≡ (game self).allowed t }
    {
        match self {
            Variant::Yonma => true,
            Variant::Sanma => (t < 1) | (7 < t),
        }
    }

    // May players call chi?
    pub fn allows_chi(self) -> bool
        ensures { result ≡ (game self).chi }
    {
        match self {
            Variant::Yonma => true,
            Variant::Sanma => false,
        }
    }

    // May indicators of dora be shown?
    pub fn allows_dora(self) -> bool
        ensures { result ≡ (game self).dora }
    {
        match self {
            Variant::Yonma => true,
            Variant::Sanma => false,
        }
    }
}
