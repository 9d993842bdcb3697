// The operations with three players, under names of their own. Level and basic points are the same for both games.
ghost use Rattle.std.specs.Prelude.{◌≡◌, length};
ghost use Rattle.rules.specs.Rules.{three};
ghost use Rattle.unit.specs.Listing.{listing_in, written_in};
ghost use Rattle.lent.specs.Lent.{calls_of};
ghost use Rattle.scoring.specs.Payment.{payment_answer};
ghost use Rattle.win.specs.Win.{score_win_in, score_reading_in, name_waits_in};
ghost use Rattle.answers.specs.Answers.{listing_answer, payment_values_at, score_values_at, waits_values};

use crate::games;

// Lists the readings of a finished hand into the lent buffer.
pub fn ziwhakemo_three_list_readings(
    counts: &[u8],
    calls: &[meld::Meld],
    out: &mut [u8],
) -> answers::ListingAnswer
    ensures answer { result ≡ listing_answer (listing_in three counts.now (calls_of calls.now) (length out.old)) }
    ensures buffer { out.new ≡ written_in three counts.now (calls_of calls.now) out.old }
{
    games::list_values(counts, calls, rules::Variant::Sanma, out)
}

// Who pays what for any basic points and any win type, 0 for ron and 1 for tsumo.
pub fn ziwhakemo_three_payment(
    basic_points: u32,
    is_dealer: bool,
    win_type: u8,
) -> answers::PaymentValues
    ensures { result ≡ payment_values_at 3 (payment_answer basic_points is_dealer win_type) }
{
    answers::payment_values(
        scoring::score_payment(basic_points, is_dealer, win_type),
        rules::Variant::Sanma,
    )
}

// Scores a win: the reading with a yaku that pays most at a table of three.
pub fn ziwhakemo_three_score_win(
    counts: &[u8],
    calls: &[meld::Meld],
    w: context::GameContext,
) -> answers::ScoreValues
    ensures { result ≡ score_values_at 3 (score_win_in three counts.now (calls_of calls.now) w) }
{
    games::win_values(counts, calls, w, rules::Variant::Sanma)
}

// Scores reading number n, counted from 0.
pub fn ziwhakemo_three_score_reading(
    counts: &[u8],
    calls: &[meld::Meld],
    w: context::GameContext,
    n: usize,
) -> answers::ScoreValues
    ensures { result ≡ score_values_at 3 (score_reading_in three counts.now (calls_of calls.now) w n) }
{
    games::reading_values(counts, calls, w, rules::Variant::Sanma, n)
}

// Names the waits of reading number n, counted from 0.
pub fn ziwhakemo_three_name_waits(
    counts: &[u8],
    calls: &[meld::Meld],
    w: context::GameContext,
    n: usize,
) -> answers::WaitsValues
    ensures { result ≡ waits_values (name_waits_in three counts.now (calls_of calls.now) w n) }
{
    games::waits_values(counts, calls, w, rules::Variant::Sanma, n)
}
