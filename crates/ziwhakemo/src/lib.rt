// The interface for C and Rust: each operation of the unit under a C name, with plain numbers for its answer (answers).
#![tactic(auto)]

ghost use Rattle.std.specs.Prelude.{◌≡◌, length};
ghost use Rattle.unit.specs.Listing.{listing, written};
ghost use Rattle.lent.specs.Lent.{calls_of};
ghost use Rattle.scoring.specs.Level.{level, basic_points};
ghost use Rattle.scoring.specs.Payment.{payment_answer};
ghost use Rattle.win.specs.Win.{score_win, score_reading, name_waits};
ghost use Rattle.answers.specs.Answers.{version, listing_answer, level_answer, payment_values, score_values, waits_values};

pub mod book;
pub mod games;
pub mod three;

// The version of this interface.
const VERSION: u32 = 8;

// The version of this interface, for a caller that was written for one.
pub fn ziwhakemo_version() -> u32
    ensures { result ≡ version }
{
    VERSION
}

// Lists the readings of a finished hand into the lent buffer.
pub fn ziwhakemo_list_readings(
    counts: &[u8],
    calls: &[meld::Meld],
    out: &mut [u8],
) -> answers::ListingAnswer
    ensures answer { result ≡ listing_answer (listing counts.now (calls_of calls.now) (length out.old)) }
    ensures buffer { out.new ≡ written counts.now (calls_of calls.now) out.old }
{
    games::list_values(counts, calls, rules::Variant::Yonma, out)
}

// The level of han and fu, with or without a yakuman.
pub fn ziwhakemo_score_level(han: u8, fu: u8, is_yakuman: bool) -> answers::LevelAnswer
    ensures { result ≡ level_answer (level han fu is_yakuman) }
{
    answers::level_of(scoring::determine_score_level(han, fu, is_yakuman))
}

// The basic points of han and fu, with or without a yakuman.
pub fn ziwhakemo_basic_points(han: u8, fu: u8, is_yakuman: bool) -> u32
    ensures { result ≡ basic_points han fu is_yakuman }
{
    scoring::calculate_basic_points(han, fu, is_yakuman)
}

// Who pays what for any basic points and any win type, 0 for ron and 1 for tsumo.
pub fn ziwhakemo_payment(basic_points: u32, is_dealer: bool, win_type: u8) -> answers::PaymentValues
    ensures { result ≡ payment_values (payment_answer basic_points is_dealer win_type) }
{
    answers::payment_values(
        scoring::score_payment(basic_points, is_dealer, win_type),
        rules::Variant::Yonma,
    )
}

// Scores a win: the reading with a yaku that pays most.
pub fn ziwhakemo_score_win(
    counts: &[u8],
    calls: &[meld::Meld],
    w: context::GameContext,
) -> answers::ScoreValues
    ensures { result ≡ score_values (score_win counts.now (calls_of calls.now) w) }
{
    games::win_values(counts, calls, w, rules::Variant::Yonma)
}

// Scores reading number n, counted from 0.
pub fn ziwhakemo_score_reading(
    counts: &[u8],
    calls: &[meld::Meld],
    w: context::GameContext,
    n: usize,
) -> answers::ScoreValues
    ensures { result ≡ score_values (score_reading counts.now (calls_of calls.now) w n) }
{
    games::reading_values(counts, calls, w, rules::Variant::Yonma, n)
}

// Names the waits of reading number n, counted from 0.
pub fn ziwhakemo_name_waits(
    counts: &[u8],
    calls: &[meld::Meld],
    w: context::GameContext,
    n: usize,
) -> answers::WaitsValues
    ensures { result ≡ waits_values (name_waits counts.now (calls_of calls.now) w n) }
{
    games::waits_values(counts, calls, w, rules::Variant::Yonma, n)
}
