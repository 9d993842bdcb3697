// Level, basic points and payment of han and fu (scoring.rs of agari).
#![tactic(auto)]

ghost use Rattle.std.specs.Prelude.{◌≡◌, cond, ◌&&◌, ◌||◌, ◌+◌, ◌*◌, ◌/◌, ◌^◌, ◌≤◌, max, min, eqb, leb};
ghost use Rattle.rules.specs.Rules.{game};
ghost use Rattle.scoring.specs.Level.{reaches_mangan, yakuman_count, level, basic_points};
ghost use Rattle.scoring.specs.Payment.{round_up_to100, payment, payment_answer, answer_of, total_at};

// Score limit levels. A yakuman carries how many times it counts.
#[derive(Clone, Copy, PartialEq, Eq)]
pub enum ScoreLevel {
    Normal,
    Mangan,
    Haneman,
    Baiman,
    Sanbaiman,
    Yakuman(u8),
}

// One case for each kind of settlement: a ron, a tsumo of the dealer, a tsumo of another player.
#[derive(Clone, Copy, PartialEq, Eq)]
pub enum Payment {
    Ron {
        from_discarder: u32,
    },
    DealerTsumo {
        from_each: u32,
    },
    Tsumo {
        from_dealer: u32,
        from_non_dealer: u32,
    },
}

// ---- level and basic points

// How many yakuman the han of yakuman make: one for each 13, at least one.
fn yakuman_count(han: u8) -> u8
    ensures { result ≡ yakuman_count han }
{
    (han / 13).max(1)
}

// Do han and fu reach mangan: 5 han, 4 han with 40 fu, 3 han with 70 fu?
fn reaches_mangan(han: u8, fu: u8) -> bool
    ensures { result ≡ reaches_mangan han fu }
{
    (5 <= han) | (((han == 4) & (40 <= fu)) | ((han == 3) & (70 <= fu)))
}

// The level of han and fu, with or without a yakuman.
#[tactic(auto, unfolding(crate::specs::Level::level))]
pub fn determine_score_level(han: u8, fu: u8, is_yakuman: bool) -> ScoreLevel
    ensures { result ≡ level han fu is_yakuman }
{
    if is_yakuman {
        return ScoreLevel::Yakuman(yakuman_count(han));
    }
    if 13 <= han {
        return ScoreLevel::Yakuman(1);
    }
    if 11 <= han {
        return ScoreLevel::Sanbaiman;
    }
    if 8 <= han {
        return ScoreLevel::Baiman;
    }
    if 6 <= han {
        return ScoreLevel::Haneman;
    }
    if reaches_mangan(han, fu) {
        return ScoreLevel::Mangan;
    }
    ScoreLevel::Normal
}

// fu times 2 to the power of han + 2, for at most 4 han.
fn fu_points(han: u8, fu: u8) -> u32
    requires { han ≤ 4 }
    ensures { result ≡ fu * 2 ^ (han + 2) }
{
    u32::from(fu) << (han + 2)
}

// The basic points of han and fu, with or without a yakuman.
#[tactic(auto, unfolding(crate::specs::Level::basic_points))]
pub fn calculate_basic_points(han: u8, fu: u8, is_yakuman: bool) -> u32
    ensures { result ≡ basic_points han fu is_yakuman }
{
    let level = determine_score_level(han, fu, is_yakuman);
    match level {
        ScoreLevel::Normal => fu_points(han, fu).min(2000),
        ScoreLevel::Mangan => 2000,
        ScoreLevel::Haneman => 3000,
        ScoreLevel::Baiman => 4000,
        ScoreLevel::Sanbaiman => 6000,
        ScoreLevel::Yakuman(n) => 8000 * u32::from(n),
    }
}

// ---- payment

// A payer's amount, rounded up to 100.
fn round_up_to_100(n: u32) -> u32
    requires { n ≤ 1000000 }
    ensures { result ≡ round_up_to100 n }
{
    (n + 99) / 100 * 100
}

// How many times the basic points a ron costs the discarder: four plus twice the dealer's 0 or 1.
fn ron_factor(is_dealer: bool) -> u32
    ensures { result ≡ cond is_dealer 6 4 }
{
    4 + 2 * (is_dealer as u32)
}

// Who pays what for basic points up to 152,000.
#[tactic(auto, unfolding(crate::specs::Payment::payment))]
pub fn calculate_payment(basic_points: u32, is_dealer: bool, is_tsumo: bool) -> Payment
    requires { basic_points ≤ 152000 }
    ensures { result ≡ payment is_tsumo is_dealer basic_points }
{
    if is_tsumo {
        let single = round_up_to_100(basic_points);
        let double = round_up_to_100(basic_points * 2);
        if is_dealer {
            return Payment::DealerTsumo { from_each: double };
        }
        return Payment::Tsumo {
            from_dealer: double,
            from_non_dealer: single,
        };
    }
    let multiplier = ron_factor(is_dealer);
    Payment::Ron {
        from_discarder: round_up_to_100(basic_points * multiplier),
    }
}

// Who pays what for any basic points and any win type, 0 for ron and 1 for tsumo. Refused are a win type above 1 and then basic points
// above 152,000.
#[tactic(auto, unfolding(crate::specs::Payment::payment_answer))]
pub fn score_payment(
    basic_points: u32,
    is_dealer: bool,
    win_type: u8,
) -> Result<Payment, rules::Refusal>
    ensures { answer_of result ≡ payment_answer basic_points is_dealer win_type }
{
    if 1 < win_type {
        return Err(rules::Refusal::OutOfRange);
    }
    if 152000 < basic_points {
        return Err(rules::Refusal::BasicPoints);
    }
    Ok(calculate_payment(basic_points, is_dealer, win_type == 1))
}

impl Payment {
    // All that the winner receives, at the table of the game that is played.
    pub fn total(self, v: rules::Variant) -> u64
        ensures { result ≡ total_at (game v).players self }
    {
        let players = v.players();
        match self {
            Payment::Ron { from_discarder } => u64::from(from_discarder),
            Payment::DealerTsumo { from_each } => u64::from(from_each) * (players - 1),
            Payment::Tsumo {
                from_dealer,
                from_non_dealer,
            } => u64::from(from_dealer) + u64::from(from_non_dealer) * (players - 2),
        }
    }
}
