// Yaku of the ends of the suits and of honors in each group, Chanta and Junchan (yaku.rs of agari). Each check takes its case apart and
// otherwise answers no at that line.
#![tactic(auto)]

ghost use Rattle.std.specs.Prelude.{◌≡◌, not, ◌&&◌, ◌||◌, Bool, ℕ};
ghost use Rattle.lists.specs.Fold.{all, any};
ghost use Rattle.tile.specs.declared.Tile.{Tile};
ghost use Rattle.meld.specs.Meld.{is_sequence};
ghost use Rattle.structure.specs.Structure.{reading_of};
ghost use Rattle.meld_yaku.specs.Melds.{set_of};
ghost use Rattle.meld_yaku.specs.Standard.{of_standard};
ghost use Rattle.end_yaku.specs.Ends.{end_run, chanta, junchan};

use structure::{all_melds, any_meld};

// Is it 123 or 789?
fn is_end_run(m: meld::Meld) -> bool
    ensures { result ≡ end_run m }
{
    m.is_sequence() & ((m.tile % 9 == 0) | (m.tile % 9 == 6))
}

// Does each group hold a tile that passes the test, and is one of the melds a sequence? So the pair is of one, and each meld is 123, 789, or a
// triplet or kan of one.
fn has_ends<F: Fn(tile::Tile) -> bool>(ms: [meld::Meld; 4], pair: tile::Tile, test: F) -> bool
    requires { F.IsAlwaysCallable test }
    ensures ends { (q : ℕ → Bool) → ((t : Tile) (b : Bool) → F.post test t b → b ≡ q t.0) → result ≡ (q pair.0 && (any is_sequence ms && all (λ m. end_run m || set_of q m) ms)) }
{
    let sequence = any_meld(ms, |m| m.is_sequence());
    let each = all_melds(
        ms,
        |m| is_end_run(m) | (m.is_triplet_or_kan() & test(tile::Tile(m.tile))),
    );
    test(pair) & (sequence & each)
}

// Chanta: a terminal or honor in each group, and not Junchan.
pub fn check_chanta(h: structure::HandStructure) -> bool
    ensures { result ≡ of_standard (λ p ms. chanta p ms && not (junchan p ms)) (reading_of h) }
{
    let structure::HandStructure::Standard { pair, melds } = h else {
        return false;
    };
    has_ends(melds, pair, |t| t.is_terminal_or_honor())
        & !has_ends(melds, pair, |t| t.is_terminal())
}

// Junchan: a terminal in each group.
pub fn check_junchan(h: structure::HandStructure) -> bool
    ensures { result ≡ of_standard (λ p ms. junchan p ms) (reading_of h) }
{
    let structure::HandStructure::Standard { pair, melds } = h else {
        return false;
    };
    has_ends(melds, pair, |t| t.is_terminal())
}
