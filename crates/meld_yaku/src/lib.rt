// One meld and four melds, asked by the yaku of a standard reading (set_yaku, honor_yaku, sequence_yaku, end_yaku).
#![tactic(auto)]

ghost use Rattle.std.specs.Prelude.{◌≡◌, ◌%◌, eqb};
ghost use Rattle.lists.specs.Fold.{any};
ghost use Rattle.meld_yaku.specs.Melds.{set_of, three_suits};

// Is it a triplet or kan of the tile?
pub fn is_set_of(m: meld::Meld, t: u8) -> bool
    ensures { result ≡ set_of (eqb t) m }
{
    m.is_triplet_or_kan() & (t == m.tile)
}

// Is one of the melds a triplet or kan of the tile?
pub fn has_set(ms: [meld::Meld; 4], t: u8) -> bool
    ensures { result ≡ any (set_of (eqb t)) ms }
{
    structure::any_meld(ms, |m| is_set_of(m, t))
}

// The tiles of the tile's number in man, pin and sou.
pub fn three_suits(t: u8) -> [u8; 3]
    ensures { result ≡ three_suits (t % 9) }
{
    let n = t % 9;
    [n, n + 9, n + 18]
}
