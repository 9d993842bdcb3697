// A reading in the code (HandStructure of agari's hand.rs), and what its four melds are asked.
#![tactic(auto)]

ghost use Rattle.std.specs.Prelude.{◌≡◌, Bool};
ghost use Rattle.lists.specs.Fold.{all, any};
ghost use Rattle.meld.specs.declared.Meld.{Meld};

// A pair and four melds, seven pairs, or thirteen orphans by the tile that is doubled.
#[derive(Clone, Copy)]
pub enum HandStructure {
    Standard {
        pair: tile::Tile,
        melds: [meld::Meld; 4],
    },
    Chiitoitsu {
        pairs: [u8; 7],
    },
    Kokushi {
        pair: tile::Tile,
    },
}

// ---- questions of the four melds. All four are asked, with no jump between them: `any` and `all` of an iterator, which stop at the
// first meld that decides, make the yaku of a reading take twice as long.

// Does one of the four melds pass the test?
pub fn any_meld<F: Fn(meld::Meld) -> bool>(ms: [meld::Meld; 4], test: F) -> bool
    requires { F.IsAlwaysCallable test }
    ensures { (p : Meld → Bool) → ((m : Meld) (b : Bool) → F.post test m b → b ≡ p m) → result ≡ any p ms }
{
    ms.iter().fold(false, |found, m| found | test(*m))
}

// Does each of them?
pub fn all_melds<F: Fn(meld::Meld) -> bool>(ms: [meld::Meld; 4], test: F) -> bool
    requires { F.IsAlwaysCallable test }
    ensures { (p : Meld → Bool) → ((m : Meld) (b : Bool) → F.post test m b → b ≡ p m) → result ≡ all p ms }
{
    ms.iter().fold(true, |passed, m| passed & test(*m))
}
