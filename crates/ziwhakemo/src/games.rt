// The operations of either game, their calls lent as a slice, with plain numbers for their answers.
ghost use Rattle.std.specs.Prelude.{◌≡◌, length};
ghost use Rattle.rules.specs.Rules.{game};
ghost use Rattle.unit.specs.Listing.{listing_in, written_in};
ghost use Rattle.lent.specs.Lent.{calls_of};
ghost use Rattle.win.specs.Win.{score_win_in, score_reading_in, name_waits_in};
ghost use Rattle.answers.specs.Answers.{listing_answer, score_values_at, waits_values};

// Lists the readings of a finished hand into the lent buffer.
pub fn list_values(
    counts: &[u8],
    calls: &[meld::Meld],
    v: rules::Variant,
    out: &mut [u8],
) -> answers::ListingAnswer
    ensures answer { result ≡ listing_answer (listing_in (game v) counts.now (calls_of calls.now) (length out.old)) }
    ensures buffer { out.new ≡ written_in (game v) counts.now (calls_of calls.now) out.old }
{
    answers::listing_of(unit::list_readings_in(counts, lent::gather(calls), v, out))
}

// Scores a win.
pub fn win_values(
    counts: &[u8],
    calls: &[meld::Meld],
    w: context::GameContext,
    v: rules::Variant,
) -> answers::ScoreValues
    ensures { result ≡ score_values_at (game v).players (score_win_in (game v) counts.now (calls_of calls.now) w) }
{
    answers::score_values(win::score_win_in(counts, lent::gather(calls), w, v), v)
}

// Scores reading number n, counted from 0.
pub fn reading_values(
    counts: &[u8],
    calls: &[meld::Meld],
    w: context::GameContext,
    v: rules::Variant,
    n: usize,
) -> answers::ScoreValues
    ensures { result ≡ score_values_at (game v).players (score_reading_in (game v) counts.now (calls_of calls.now) w n) }
{
    answers::score_values(
        win::score_reading_in(counts, lent::gather(calls), w, v, n),
        v,
    )
}

// Names the waits of reading number n, counted from 0.
pub fn waits_values(
    counts: &[u8],
    calls: &[meld::Meld],
    w: context::GameContext,
    v: rules::Variant,
    n: usize,
) -> answers::WaitsValues
    ensures { result ≡ waits_values (name_waits_in (game v) counts.now (calls_of calls.now) w n) }
{
    answers::waits_values(win::name_waits_in(counts, lent::gather(calls), w, v, n))
}
