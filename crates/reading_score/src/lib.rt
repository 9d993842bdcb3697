// The score of a reading (calculate_score of agari's scoring.rs, with the tallies of its yaku and the dora), and its rank in the choice.
#![tactic(auto)]

ghost use Rattle.std.specs.Prelude.{◌≡◌};
ghost use Rattle.rules.specs.Rules.{game};
ghost use Rattle.structure.specs.Structure.{reading_of};
ghost use Rattle.dora.specs.Dora.{AtMostForty};
ghost use Rattle.reading_score.specs.Score.{score_of, has_yaku, rank};

// All that is answered of a reading. The han are those of the yaku, and of the dora where there is no yakuman.
#[derive(Clone, Copy)]
pub struct ScoringResult {
    pub tallies: [u8; 47],
    pub han: u8,
    pub fu: u8,
    pub is_yakuman: bool,
    pub score_level: scoring::ScoreLevel,
    pub basic_points: u32,
    pub payment: scoring::Payment,
    pub dora: dora::DoraCount,
}

// The score of a reading; s is what all tiles together are, d the dora among them.
pub fn calculate_score(
    h: structure::HandStructure,
    s: tile_yaku::TileYaku,
    d: dora::DoraCount,
    w: context::GameContext,
    opened: bool,
) -> ScoringResult
    requires { AtMostForty d }
    ensures { result ≡ score_of w opened s d (reading_of h) }
{
    let yaku = yaku::detect_yaku_with_context(h, s, w, opened);
    let tallies = yaku.tallies;
    let yakuman = yaku.is_yakuman;
    let han = dora::total_han_with_dora(d, yakuman, yaku.han);
    let fu = fu::calculate_fu(h, w, opened);
    let basic = scoring::calculate_basic_points(han, fu, yakuman);
    ScoringResult {
        tallies,
        han,
        fu,
        is_yakuman: yakuman,
        score_level: scoring::determine_score_level(han, fu, yakuman),
        basic_points: basic,
        payment: scoring::calculate_payment(basic, w.is_dealer(), w.is_tsumo()),
        dora: d,
    }
}

// Is there a yaku? Dora is none.
fn has_yaku(x: ScoringResult) -> bool
    ensures { result ≡ has_yaku x }
{
    lists::any_above_zero(&x.tallies)
}

// The rank of a score in the choice: its total in the game that is played, then a yakuman before none, han, fu, as one number; 0 without a yaku.
pub fn rank(x: ScoringResult, v: rules::Variant) -> u64
    ensures { result ≡ rank (game v).players x }
{
    if !has_yaku(x) {
        return 0;
    }
    let total = x.payment.total(v);
    let yakuman = u64::from(x.is_yakuman);
    let han = u64::from(x.han);
    let fu = u64::from(x.fu);
    ((total * 2 + yakuman) * 256 + han) * 256 + fu + 1
}
