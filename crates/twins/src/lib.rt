// Two tables at once: a win, and the same win renamed, each scored by the unit; and whether the two answers agree.
#![tactic(auto)]

ghost use Rattle.std.specs.Prelude.{◌≡◌, true, ◌<◌, ◌&&◌, eqb};
ghost use Rattle.tile.specs.Renaming.{ren, order_back, back};
ghost use Rattle.rules.specs.Rules.{game};
ghost use Rattle.context.specs.Context.{ren_win};
ghost use Rattle.hand.specs.Counts.{held};
ghost use Rattle.renamed.specs.Renamed.{ren_counts};
ghost use Rattle.win.specs.Win.{win_check_in, score_win_in, win_check, score_win};
ghost use Rattle.agreement.specs.Agreement.{StaysAllowed, NotGreen, Comparable};
ghost use Rattle.twins.specs.Twins.{ren_calls, level_number, kind_of, first_amount, second_amount, agrees};

// The order that undoes a change of places.
fn order_back(order: tile::Order) -> tile::Order
    ensures { result ≡ order_back order }
{
    match order {
        tile::Order::Abc => tile::Order::Abc,
        tile::Order::Acb => tile::Order::Acb,
        tile::Order::Bac => tile::Order::Bac,
        tile::Order::Bca => tile::Order::Cab,
        tile::Order::Cab => tile::Order::Bca,
        tile::Order::Cba => tile::Order::Cba,
    }
}

// The renaming that undoes a renaming.
fn back(by: tile::Renaming) -> tile::Renaming
    ensures { result ≡ back by }
{
    let numbers = by.numbers;
    let suits = numbers.suits;
    let honors = by.honors;
    let winds = honors.winds;
    tile::Renaming {
        numbers: tile::Numbers {
            suits: order_back(suits),
            mirror: numbers.mirror,
        },
        honors: tile::Honors {
            dragons: honors.dragons,
            winds: order_back(winds),
        },
    }
}

// How many of the renamed tile there are, 0 past the counts.
fn count_of(counts: &[u8], t: usize, by: tile::Renaming) -> u8
    requires { t < 34 }
    ensures { result ≡ held counts.now (ren by t) }
{
    let to = tile::Tile(t as u8).renamed(by);
    counts.get(usize::from(to.0)).copied().unwrap_or(0)
}

// The counts renamed: the count of a tile becomes the count of its renamed tile.
pub fn renamed_counts(counts: &[u8], by: tile::Renaming) -> [u8; 34]
    ensures { result ≡ ren_counts by counts.now }
{
    let undo = back(by);
    std::array::from_fn(|t| count_of(counts, t, undo))
}

// The calls renamed, in their order.
pub fn renamed_calls(k: checks::Calls, by: tile::Renaming) -> checks::Calls
    ensures { result ≡ ren_calls by k }
{
    let melds = k.melds;
    checks::Calls {
        count: k.count,
        melds: melds.map(|m| m.renamed(by)),
    }
}

// Is it the same level?
fn same_level(a: scoring::ScoreLevel, b: scoring::ScoreLevel) -> bool
    ensures { result ≡ eqb (level_number a) (level_number b) }
{
    a == b
}

// Is it the same kind of settlement with the same amounts?
fn same_payment(a: scoring::Payment, b: scoring::Payment) -> bool
    ensures { result ≡ (eqb (kind_of a) (kind_of b) && (eqb (first_amount a) (first_amount b) && eqb (second_amount a) (second_amount b))) }
{
    a == b
}

// Do two answers agree: the same number, han, dora, fu, level, basic points and payments?
fn same_answer(a: choice::ScoreAnswer, b: choice::ScoreAnswer) -> bool
    ensures { result ≡ agrees a b }
{
    let x = a.score;
    let y = b.score;
    let xd = x.dora;
    let yd = y.dora;
    (a.number == b.number)
        & ((x.han == y.han)
            & ((xd.regular == yd.regular)
                & ((xd.ura == yd.ura)
                    & ((x.fu == y.fu)
                        & (same_level(x.score_level, y.score_level)
                            & ((x.basic_points == y.basic_points)
                                & same_payment(x.payment, y.payment)))))))
}

// Scores a win of the game and the same win renamed, and says whether the two answers agree. Where each tile in the wall becomes one that is in it, the first
// passes the checks, neither hand is all green and, if an indicator is shown, suits alone are exchanged, they do.
pub fn agree_in(
    counts: &[u8],
    k: checks::Calls,
    w: context::GameContext,
    v: rules::Variant,
    by: tile::Renaming,
) -> bool
    ensures answer { result ≡ agrees (score_win_in (game v) (ren_counts by counts.now) (ren_calls by k) (ren_win by w)) (score_win_in (game v) counts.now k w) }
    ensures agreement { StaysAllowed (game v) by → win_check_in (game v) counts.now k w ≡ 0 → NotGreen counts.now k → NotGreen (ren_counts by counts.now) (ren_calls by k) → Comparable by w → result ≡ true }
{
    let first = win::score_win_in(counts, k, w, v);
    let renamed = renamed_counts(counts, by);
    let second = win::score_win_in(&renamed, renamed_calls(k, by), w.renamed(by), v);
    same_answer(second, first)
}

// With four players: where the first passes the checks, neither hand is all green and, if an indicator is shown, suits alone are exchanged, the two agree.
pub fn agree(counts: &[u8], k: checks::Calls, w: context::GameContext, by: tile::Renaming) -> bool
    ensures answer { result ≡ agrees (score_win (ren_counts by counts.now) (ren_calls by k) (ren_win by w)) (score_win counts.now k w) }
    ensures agreement { win_check counts.now k w ≡ 0 → NotGreen counts.now k → NotGreen (ren_counts by counts.now) (ren_calls by k) → Comparable by w → result ≡ true }
{
    agree_in(counts, k, w, rules::Variant::Yonma, by)
}
