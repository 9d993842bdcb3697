// Whom calls came from, by the seats of the game's table. Words are taken for a table of four, where the left is three seats onward, as the game may be
// said behind the calls; then each call is turned to the table that is played at.
ghost use Rattle.std.specs.Prelude.{◌≡◌, ◌-◌};
ghost use Rattle.rules.specs.Rules.{game};
ghost use Rattle.notation.specs.Table.{any_across, at_table, seated_at};

// Does one of the calls that are kept come from across?
pub fn any_across(k: checks::Calls) -> bool
    ensures { result ≡ any_across k }
{
    let melds = k.melds;
    melds.iter().take(k.count).any(|m| m.source == 2)
}

// How many seats onward the player on the left sits: the last before one's own.
fn left_of(v: rules::Variant) -> u8
    ensures { result ≡ (game v).players - 1 }
{
    match v {
        rules::Variant::Yonma => 3,
        rules::Variant::Sanma => 2,
    }
}

// A call at the table of the game: from the left where it came from there, else as it is.
fn at_table(m: meld::Meld, v: rules::Variant) -> meld::Meld
    ensures { result ≡ at_table (game v) m }
{
    if m.source == 3 {
        return m.from_seat(left_of(v));
    }
    m
}

// The calls at the table of the game.
pub fn seated(k: checks::Calls, v: rules::Variant) -> checks::Calls
    ensures { result ≡ seated_at (game v) k }
{
    let melds = k.melds;
    checks::Calls {
        count: k.count,
        melds: melds.map(|m| at_table(m, v)),
    }
}
