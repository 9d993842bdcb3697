// Scoring a win, scoring a reading by its number, and naming its waits. Each operation has no `requires`, and its `ensures` says for every
// input what is answered.
#![tactic(auto)]

ghost use Rattle.std.specs.Prelude.{◌≡◌, true, IfOk};
ghost use Rattle.rules.specs.Rules.{game};
ghost use Rattle.rules.specs.Refusals.{number_beside};
ghost use Rattle.context.specs.Context.{indicators_in};
ghost use Rattle.dora.specs.Dora.{AtMostForty};
ghost use Rattle.win.specs.Win.{is_opened, tiles_together, dora_together, in_hand, indicated_in, win_check_in, score_win_in, score_reading_in, name_waits_in, score_win, score_reading, refused_waits, name_waits};

use rules::Refusal;

// The answer to naming waits: number 0 and a tally for each wait, Ryanmen, Kanchan, Penchan, Shanpon, Tanki, Kokushi13; or a refusal's number alone.
#[derive(Clone, Copy)]
pub struct WaitsAnswer {
    pub number: u8,
    pub waits: [u8; 6],
}

// Is some call made from another player?
pub fn is_opened(k: checks::Calls) -> bool
    ensures { result ≡ is_opened k }
{
    k.called().iter().any(|m| m.is_open())
}

// Is the tile in the hand?
fn in_hand(counts: &[u8; 34], t: u8) -> bool
    ensures { result ≡ in_hand counts.now t }
{
    if 34 <= t {
        return false;
    }
    0 < counts[t as usize]
}

// Are the indicators in order, and is none shown in a game without them?
fn is_indicated(w: context::GameContext, v: rules::Variant) -> bool
    ensures { result ≡ indicated_in (game v) w }
{
    w.has_indicators() & (v.allows_dora() | w.shows_none())
}

// The hand of a win that can be scored, or the first check that fails.
fn check_win<'a>(
    counts: &'a [u8],
    k: checks::Calls,
    w: context::GameContext,
    v: rules::Variant,
) -> Result<checks::CheckedHand<'a>, Refusal>
    ensures answer { number_beside result ≡ win_check_in (game v) counts.now k w }
    ensures hand { IfOk result (λ h. (h.counts.now ≡ counts.now) × (h.calls ≡ k)) }
{
    let shown = is_indicated(w, v);
    let hand = checks::check_hand(counts, k, v)?;
    if !w.is_in_range() {
        return Err(Refusal::OutOfRange);
    }
    if !shown {
        return Err(Refusal::Indicators);
    }
    if !in_hand(hand.counts, w.winning_tile) {
        return Err(Refusal::WinningTile);
    }
    Ok(hand)
}

// What all tiles together are.
fn tiles_together(hand: checks::CheckedHand, w: context::GameContext) -> tile_yaku::TileYaku
    ensures { result ≡ tiles_together hand.entry.counts.now hand.entry.calls w }
{
    let all = checks::with_calls(hand.counts, hand.calls);
    tile_yaku::tile_yaku(&all, w.winning_tile)
}

// The dora of hand and calls together, where the indicators are in order. Most often none is shown.
fn dora_together(hand: checks::CheckedHand, w: context::GameContext) -> dora::DoraCount
    requires { indicators_in w ≡ true }
    ensures { (result ≡ dora_together hand.entry.counts.now hand.entry.calls w) × AtMostForty result }
{
    if w.shows_none() {
        return dora::DoraCount { regular: 0, ura: 0 };
    }
    let whole = checks::with_calls(hand.counts, hand.calls);
    dora::count_dora_detailed(&whole, w)
}

// Scores a win of the game: the reading with a yaku that pays most at its table.
pub fn score_win_in(
    counts: &[u8],
    k: checks::Calls,
    w: context::GameContext,
    v: rules::Variant,
) -> choice::ScoreAnswer
    ensures { result ≡ score_win_in (game v) counts.now k w }
{
    let hand = match check_win(counts, k, w, v) {
        Ok(hand) => hand,
        Err(refusal) => return choice::refused(u8::from(refusal)),
    };
    let mut buffer = [0u8; hand::ALWAYS_ENOUGH];
    let n = unit::write_all(hand, &mut buffer);
    if n == 0 {
        return choice::refused(10);
    }
    let d = dora_together(hand, w);
    let s = tiles_together(hand, w);
    choice::choose(&buffer, n, s, d, w, is_opened(k), v)
}

// Scores a win with four players.
pub fn score_win(counts: &[u8], k: checks::Calls, w: context::GameContext) -> choice::ScoreAnswer
    ensures { result ≡ score_win counts.now k w }
{
    score_win_in(counts, k, w, rules::Variant::Yonma)
}

// Scores reading number n of the game, counted from 0.
pub fn score_reading_in(
    counts: &[u8],
    k: checks::Calls,
    w: context::GameContext,
    v: rules::Variant,
    n: usize,
) -> choice::ScoreAnswer
    ensures { result ≡ score_reading_in (game v) counts.now k w n }
{
    let hand = match check_win(counts, k, w, v) {
        Ok(hand) => hand,
        Err(refusal) => return choice::refused(u8::from(refusal)),
    };
    let mut buffer = [0u8; hand::ALWAYS_ENOUGH];
    let readings = unit::write_all(hand, &mut buffer);
    if readings <= n {
        return choice::refused(12);
    }
    let h = records::reading_at(&buffer, records::place_of(&buffer, n));
    let d = dora_together(hand, w);
    choice::scored(
        n,
        reading_score::calculate_score(h, tiles_together(hand, w), d, w, is_opened(k)),
    )
}

// Scores reading number n with four players.
pub fn score_reading(
    counts: &[u8],
    k: checks::Calls,
    w: context::GameContext,
    n: usize,
) -> choice::ScoreAnswer
    ensures { result ≡ score_reading counts.now k w n }
{
    score_reading_in(counts, k, w, rules::Variant::Yonma, n)
}

// A refusal to name waits.
fn refused_waits(number: u8) -> WaitsAnswer
    ensures { result ≡ refused_waits number }
{
    WaitsAnswer {
        number: number,
        waits: [0, 0, 0, 0, 0, 0],
    }
}

// Names the waits of reading number n of the game, counted from 0.
pub fn name_waits_in(
    counts: &[u8],
    k: checks::Calls,
    w: context::GameContext,
    v: rules::Variant,
    n: usize,
) -> WaitsAnswer
    ensures { result ≡ name_waits_in (game v) counts.now k w n }
{
    let hand = match check_win(counts, k, w, v) {
        Ok(hand) => hand,
        Err(refusal) => return refused_waits(u8::from(refusal)),
    };
    let mut buffer = [0u8; hand::ALWAYS_ENOUGH];
    let count = unit::write_all(hand, &mut buffer);
    if count <= n {
        return refused_waits(12);
    }
    let reading = records::reading_at(&buffer, records::place_of(&buffer, n));
    WaitsAnswer {
        number: 0,
        waits: wait::detect_wait_types(reading, tile::Tile(w.winning_tile)),
    }
}

// Names the waits of reading number n with four players.
pub fn name_waits(counts: &[u8], k: checks::Calls, w: context::GameContext, n: usize) -> WaitsAnswer
    ensures { result ≡ name_waits counts.now k w n }
{
    name_waits_in(counts, k, w, rules::Variant::Yonma, n)
}
