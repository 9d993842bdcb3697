// The unit's answers as plain numbers, for C: a struct for each answer, and the function that makes it.
#![tactic(auto)]

ghost use Rattle.std.specs.Prelude.{◌≡◌};
ghost use Rattle.rules.specs.Rules.{game};
ghost use Rattle.unit.specs.Listing.{answer_of};
ghost use Rattle.scoring.specs.Payment.{answer_of as payment_answered};
ghost use Rattle.answers.specs.Answers.{listing_answer, level_answer, paid, payment_values_at, settlement_beside, score_values_at, waits_values};

use rules::Refusal;

// The answer to a listing: number 0 where accepted, else the refusal; the count of readings; the count of bytes written.
#[repr(C)]
#[derive(Clone, Copy)]
pub struct ListingAnswer {
    pub number: u32,
    pub readings: usize,
    pub bytes: usize,
}

// The numbers of a listing.
pub fn listing_of(a: Result<unit::Listed, Refusal>) -> ListingAnswer
    ensures { result ≡ listing_answer (answer_of a) }
{
    match a {
        Ok(listed) => ListingAnswer {
            number: 0,
            readings: listed.readings,
            bytes: listed.bytes,
        },
        Err(refusal) => ListingAnswer {
            number: u32::from(refusal),
            readings: 0,
            bytes: 0,
        },
    }
}

// A level: 0 Normal, 1 Mangan, 2 Haneman, 3 Baiman, 4 Sanbaiman, 5 Yakuman, and how many times a yakuman counts.
#[repr(C)]
#[derive(Clone, Copy)]
pub struct LevelAnswer {
    pub level: u8,
    pub count: u8,
}

// The numbers of a level.
pub fn level_of(l: scoring::ScoreLevel) -> LevelAnswer
    ensures { result ≡ level_answer l }
{
    match l {
        scoring::ScoreLevel::Normal => LevelAnswer { level: 0, count: 0 },
        scoring::ScoreLevel::Mangan => LevelAnswer { level: 1, count: 0 },
        scoring::ScoreLevel::Haneman => LevelAnswer { level: 2, count: 0 },
        scoring::ScoreLevel::Baiman => LevelAnswer { level: 3, count: 0 },
        scoring::ScoreLevel::Sanbaiman => LevelAnswer { level: 4, count: 0 },
        scoring::ScoreLevel::Yakuman(n) => LevelAnswer { level: 5, count: n },
    }
}

// The settlements: none, beside a refusal; by ron; by tsumo of the dealer; by tsumo of another.
const NONE: u32 = 0;

const RON: u32 = 1;

const DEALER_TSUMO: u32 = 2;

const TSUMO: u32 = 3;

// A payment: number 0 where it is given, else the refusal; the settlement; what each non-dealer, the dealer and the discarder pays (0 for
// who does not), and the total.
#[repr(C)]
#[derive(Clone, Copy)]
pub struct PaymentValues {
    pub number: u32,
    pub settlement: u32,
    pub from_non_dealer: u32,
    pub from_dealer: u32,
    pub from_discarder: u32,
    pub total: u64,
}

// The values of a payment that is given, at the table of the game.
fn values_of(p: scoring::Payment, v: rules::Variant) -> PaymentValues
    ensures { result ≡ paid (game v).players p }
{
    let total = p.total(v);
    match p {
        scoring::Payment::Ron { from_discarder } => PaymentValues {
            number: 0,
            settlement: RON,
            from_non_dealer: 0,
            from_dealer: 0,
            from_discarder: from_discarder,
            total: total,
        },
        scoring::Payment::DealerTsumo { from_each } => PaymentValues {
            number: 0,
            settlement: DEALER_TSUMO,
            from_non_dealer: from_each,
            from_dealer: 0,
            from_discarder: 0,
            total: total,
        },
        scoring::Payment::Tsumo {
            from_dealer,
            from_non_dealer,
        } => PaymentValues {
            number: 0,
            settlement: TSUMO,
            from_non_dealer: from_non_dealer,
            from_dealer: from_dealer,
            from_discarder: 0,
            total: total,
        },
    }
}

// The values of the answer to who pays what at the table of the game.
pub fn payment_values(a: Result<scoring::Payment, Refusal>, v: rules::Variant) -> PaymentValues
    ensures { result ≡ payment_values_at (game v).players (payment_answered a) }
{
    match a {
        Ok(p) => values_of(p, v),
        Err(refused) => PaymentValues {
            number: u32::from(refused),
            settlement: NONE,
            from_non_dealer: 0,
            from_dealer: 0,
            from_discarder: 0,
            total: 0,
        },
    }
}

// A score: number 0, the settlement, the number of the reading, counted from 0, a tally for each yaku, han and
// fu, whether there is a yakuman, the level and how many times a yakuman counts, the dora of either sort, basic points, what each pays and the
// total; or a refusal's number alone.
#[repr(C)]
#[derive(Clone, Copy)]
pub struct ScoreValues {
    pub number: u32,
    pub settlement: u32,
    pub reading: usize,
    pub tallies: [u8; 47],
    pub han: u8,
    pub fu: u8,
    pub is_yakuman: bool,
    pub level: u8,
    pub yakuman_count: u8,
    pub regular_dora: u8,
    pub ura_dora: u8,
    pub basic_points: u32,
    pub from_non_dealer: u32,
    pub from_dealer: u32,
    pub from_discarder: u32,
    pub total: u64,
}

// The settlement beside an answer's number: none beside a refusal.
fn settlement_beside(number: u8, settlement: u32) -> u32
    ensures { result ≡ settlement_beside number settlement }
{
    if number == 0 { settlement } else { NONE }
}

// The values of a scored win or reading of the game.
pub fn score_values(a: choice::ScoreAnswer, v: rules::Variant) -> ScoreValues
    ensures { result ≡ score_values_at (game v).players a }
{
    let score = a.score;
    let tallies = score.tallies;
    let score_level = score.score_level;
    let payment = score.payment;
    let dora = score.dora;
    let level = level_of(score_level);
    let pays = values_of(payment, v);
    let settlement = settlement_beside(a.number, pays.settlement);
    ScoreValues {
        number: u32::from(a.number),
        settlement: settlement,
        reading: a.reading,
        tallies: tallies,
        han: score.han,
        fu: score.fu,
        is_yakuman: score.is_yakuman,
        level: level.level,
        yakuman_count: level.count,
        regular_dora: dora.regular,
        ura_dora: dora.ura,
        basic_points: score.basic_points,
        from_non_dealer: pays.from_non_dealer,
        from_dealer: pays.from_dealer,
        from_discarder: pays.from_discarder,
        total: pays.total,
    }
}

// The waits of a reading: number 0 and a tally for each of Ryanmen, Kanchan, Penchan, Shanpon, Tanki, Kokushi13; or a refusal's number
// alone.
#[repr(C)]
#[derive(Clone, Copy)]
pub struct WaitsValues {
    pub number: u32,
    pub waits: [u8; 6],
}

// The values of the waits of a reading.
pub fn waits_values(a: win::WaitsAnswer) -> WaitsValues
    ensures { result ≡ waits_values a }
{
    let waits = a.waits;
    WaitsValues {
        number: u32::from(a.number),
        waits: waits,
    }
}
