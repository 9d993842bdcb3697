// Scores as a record has them, and the library's in the same form, so that `==` compares the two.
ghost use Rattle.std.specs.Prelude.{◌≡◌, ◌+◌, ◌≤◌, ◌==◌, length, slice_index, take, drop};
ghost use Rattle.std.specs.Int.{from_le_bytes, w32};

// A level: its place, 0 Normal to 5 Yakuman, and how many times a yakuman counts.
#[derive(Clone, Copy, PartialEq, Eq, Default)]
pub struct Level {
    pub place: u8,
    pub times: u8,
}

// The level in two bytes.
pub fn level_at(s: &[u8], at: usize) -> Level
    requires { at + 2 ≤ length s.now }
    ensures place { result.place ≡ slice_index s.now at }
    ensures times { result.times ≡ slice_index s.now (at + 1) }
{
    Level {
        place: s[at],
        times: s[at + 1],
    }
}

impl From<scoring::ScoreLevel> for Level {
    fn from(level: scoring::ScoreLevel) -> Level {
        let (place, times) = match level {
            scoring::ScoreLevel::Normal => (0, 0),
            scoring::ScoreLevel::Mangan => (1, 0),
            scoring::ScoreLevel::Haneman => (2, 0),
            scoring::ScoreLevel::Baiman => (3, 0),
            scoring::ScoreLevel::Sanbaiman => (4, 0),
            scoring::ScoreLevel::Yakuman(n) => (5, n),
        };
        Level { place, times }
    }
}

// What each non-dealer, the dealer and the discarder pays, 0 for who does not, and the total.
#[derive(Clone, Copy, PartialEq, Eq, Default)]
pub struct Paid {
    pub from_non_dealer: u32,
    pub from_dealer: u32,
    pub from_discarder: u32,
    pub total: u64,
}

// The payment in sixteen bytes.
pub fn paid_at(s: &[u8], at: usize) -> Paid
    requires { at + 16 ≤ length s.now }
    ensures non_dealer { result.from_non_dealer ≡ from_le_bytes w32 (take 4 (drop at s.now)) }
    ensures dealer { result.from_dealer ≡ from_le_bytes w32 (take 4 (drop (at + 4) s.now)) }
    ensures discarder { result.from_discarder ≡ from_le_bytes w32 (take 4 (drop (at + 8) s.now)) }
    ensures total { result.total ≡ from_le_bytes w32 (take 4 (drop (at + 12) s.now)) }
{
    Paid {
        from_non_dealer: crate::u32_at(s, at),
        from_dealer: crate::u32_at(s, at + 4),
        from_discarder: crate::u32_at(s, at + 8),
        total: u64::from(crate::u32_at(s, at + 12)),
    }
}

impl From<scoring::Payment> for Paid {
    fn from(p: scoring::Payment) -> Paid {
        let total = p.total(rules::Variant::Yonma);
        let (from_non_dealer, from_dealer, from_discarder) = match p {
            scoring::Payment::Ron { from_discarder } => (0, 0, from_discarder),
            scoring::Payment::DealerTsumo { from_each } => (from_each, 0, 0),
            scoring::Payment::Tsumo {
                from_dealer,
                from_non_dealer,
            } => (from_non_dealer, from_dealer, 0),
        };
        Paid {
            from_non_dealer,
            from_dealer,
            from_discarder,
            total,
        }
    }
}

// The score of a reading.
#[derive(Clone, Copy, PartialEq, Eq, Default)]
pub struct Score {
    pub tallies: [u8; 47],
    pub han: u8,
    pub fu: u8,
    pub is_yakuman: bool,
    pub level: Level,
    pub regular_dora: u8,
    pub ura_dora: u8,
    pub basic_points: u32,
    pub paid: Paid,
}

impl Score {
    // The score in these bytes: its tallies; han, fu, 1 where it has a yakuman, the level, the dora of both sorts; basic points and payment.
    pub fn of(tallies: &[u8; 47], numbers: &[u8; 7], points: &[u8; 20]) -> Score
        ensures tallies { result.tallies ≡ tallies.now }
        ensures han { result.han ≡ slice_index numbers.now 0 }
        ensures fu { result.fu ≡ slice_index numbers.now 1 }
        ensures is_yakuman { result.is_yakuman ≡ (slice_index numbers.now 2 == 1) }
        ensures level { result.level.place ≡ slice_index numbers.now 3 }
        ensures regular_dora { result.regular_dora ≡ slice_index numbers.now 5 }
        ensures ura_dora { result.ura_dora ≡ slice_index numbers.now 6 }
        ensures basic_points { result.basic_points ≡ from_le_bytes w32 (take 4 points.now) }
        ensures total { result.paid.total ≡ from_le_bytes w32 (take 4 (drop 16 points.now)) }
    {
        Score {
            tallies: *tallies,
            han: numbers[0],
            fu: numbers[1],
            is_yakuman: numbers[2] == 1,
            level: level_at(numbers, 3),
            regular_dora: numbers[5],
            ura_dora: numbers[6],
            basic_points: crate::u32_at(points, 0),
            paid: paid_at(points, 4),
        }
    }
}

impl From<reading_score::ScoringResult> for Score {
    fn from(x: reading_score::ScoringResult) -> Score {
        let tallies = x.tallies;
        Score {
            tallies,
            han: x.han,
            fu: x.fu,
            is_yakuman: x.is_yakuman,
            level: Level::from(x.score_level),
            regular_dora: x.dora.regular,
            ura_dora: x.dora.ura,
            basic_points: x.basic_points,
            paid: Paid::from(x.payment),
        }
    }
}
