// What decided between the scores of two readings. Without a yaku a reading is never chosen, whatever its score.
ghost use Rattle.std.specs.Prelude.{◌≡◌};
ghost use Rattle.rules.specs.Rules.{game};
ghost use Rattle.explained.specs.Decided.{first_of, decided_by};

// The rule by which one is preferred; `Order` where none tells them apart, so that the first listed is chosen.
#[derive(Clone, Copy)]
pub enum Decided {
    Total,
    Yakuman,
    Han,
    Fu,
    Order,
}

// The first rule by which they differ.
fn first_of(total: bool, yakuman: bool, han: bool, fu: bool) -> Decided
    ensures { result ≡ first_of total yakuman han fu }
{
    if total {
        return Decided::Total;
    }
    if yakuman {
        return Decided::Yakuman;
    }
    if han {
        return Decided::Han;
    }
    if fu {
        return Decided::Fu;
    }
    Decided::Order
}

// What decided between two scores with a yaku, in the game that is played.
#[tactic(auto, unfolding(crate::specs::Decided::decided_by))]
pub fn decided_by(
    x: reading_score::ScoringResult,
    y: reading_score::ScoringResult,
    v: rules::Variant,
) -> Decided
    ensures { result ≡ decided_by (game v).players x y }
{
    let xs = x.payment;
    let ys = y.payment;
    first_of(
        xs.total(v) != ys.total(v),
        x.is_yakuman != y.is_yakuman,
        x.han != y.han,
        x.fu != y.fu,
    )
}
