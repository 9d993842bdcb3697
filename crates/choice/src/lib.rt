// The choice among the readings whose records stand in a buffer.
#![tactic(auto)]

ghost use Rattle.std.specs.Prelude.{◌≡◌, map, ◌≤◌};
ghost use Rattle.rules.specs.Rules.{game};
ghost use Rattle.dora.specs.Dora.{AtMostForty};
ghost use Rattle.records.specs.Buffer.{readings_in};
ghost use Rattle.reading_score.specs.Score.{score_of};
ghost use Rattle.choice.specs.Choice.{refused, scored, choice};

// The answer to a scored win or reading: number 0, the number of the reading and its score; or a refusal's number alone.
#[derive(Clone, Copy)]
pub struct ScoreAnswer {
    pub number: u8,
    pub reading: usize,
    pub score: reading_score::ScoringResult,
}

// A refusal.
pub fn refused(number: u8) -> ScoreAnswer
    ensures { result ≡ refused number }
{
    ScoreAnswer {
        number: number,
        reading: 0,
        score: reading_score::ScoringResult {
            tallies: [0; 47],
            han: 0,
            fu: 0,
            is_yakuman: false,
            score_level: scoring::ScoreLevel::Normal,
            basic_points: 0,
            payment: scoring::Payment::Ron { from_discarder: 0 },
            dora: dora::DoraCount { regular: 0, ura: 0 },
        },
    }
}

// A scored reading.
pub fn scored(reading: usize, x: reading_score::ScoringResult) -> ScoreAnswer
    ensures { result ≡ scored reading x }
{
    ScoreAnswer {
        number: 0,
        reading: reading,
        score: x,
    }
}

// The choice among n readings in the game that is played: the first of the greatest rank. 10 where there is none, 11 where none has a yaku.
pub fn choose(
    b: &[u8],
    n: usize,
    s: tile_yaku::TileYaku,
    d: dora::DoraCount,
    w: context::GameContext,
    opened: bool,
    v: rules::Variant,
) -> ScoreAnswer
    requires { (n ≤ 3000) × AtMostForty d }
    ensures { result ≡ choice (game v).players (map (score_of w opened s d) (readings_in b.now n 0)) }
{
    if n == 0 {
        return refused(10);
    }
    let mut best = 0;
    let mut found = refused(11);
    let mut at = 0;
    let mut i = 0;
    while i < n {
        let x = reading_score::calculate_score(records::reading_at(b, at), s, d, w, opened);
        let rank = reading_score::rank(x, v);
        if best < rank {
            best = rank;
            found = scored(i, x);
        }
        at += records::length_at(b, at);
        i += 1;
    }
    found
}
