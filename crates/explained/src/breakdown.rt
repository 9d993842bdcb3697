// The parts of the fu of a reading (FuBreakdown of agari's scoring.rs, with what rounding adds in place of the sum before it).
ghost use Rattle.std.specs.Prelude.{◌≡◌};
ghost use Rattle.context.specs.Context.{is_tsumo};
ghost use Rattle.structure.specs.Structure.{reading_of};
ghost use Rattle.explained.specs.Breakdown.{only_base, pinfu_parts, counted_parts, breakdown, fu_at, meld_fu_at};

// The parts; they add up to the fu of the reading.
#[derive(Clone, Copy, Default)]
pub struct FuBreakdown {
    pub base: u8,
    pub menzen_ron: u8,
    pub tsumo: u8,
    pub melds: u8,
    pub pair: u8,
    pub wait: u8,
    pub rounding: u8,
}

// A base and nothing else.
fn only_base(n: u8) -> FuBreakdown
    ensures { result ≡ only_base n }
{
    FuBreakdown {
        base: n,
        ..FuBreakdown::default()
    }
}

// The parts of a pinfu: 20, and 10 by ron.
fn pinfu_parts(w: context::GameContext) -> FuBreakdown
    ensures { result ≡ pinfu_parts (is_tsumo w) }
{
    FuBreakdown {
        menzen_ron: if w.is_tsumo() { 0 } else { 10 },
        ..only_base(20)
    }
}

// The parts of a pair and four melds that are no pinfu.
#[tactic(auto, unfolding(crate::specs::Breakdown::counted_parts))]
fn counted_parts(
    ms: [meld::Meld; 4],
    pair: u8,
    w: context::GameContext,
    opened: bool,
) -> FuBreakdown
    ensures { result ≡ counted_parts w opened pair ms }
{
    let tsumo = w.is_tsumo();
    let kept = wait::winning_tile_in_closed_sequence(ms, w);
    let sum = fu::raw_fu(ms, pair, w, opened);
    let rounding = fu::rounded_fu(sum, opened) - sum;
    FuBreakdown {
        base: 20,
        menzen_ron: if tsumo | opened { 0 } else { 10 },
        tsumo: if tsumo { 2 } else { 0 },
        melds: fu::melds_fu(ms, w, kept),
        pair: fu::pair_fu(pair, w),
        wait: fu::wait_fu(ms, pair, w),
        rounding,
    }
}

// The parts of the fu of a reading: 25 for seven pairs, 30 for thirteen orphans; a pinfu has no parts but the base and the ron.
#[tactic(auto, unfolding(crate::specs::Breakdown::breakdown))]
pub fn fu_breakdown(
    h: structure::HandStructure,
    w: context::GameContext,
    opened: bool,
) -> FuBreakdown
    ensures { result ≡ breakdown w opened (reading_of h) }
{
    match h {
        structure::HandStructure::Standard { pair, melds } => {
            if wait::is_pinfu(h, w, opened) {
                return pinfu_parts(w);
            }
            counted_parts(melds, pair.0, w, opened)
        }
        structure::HandStructure::Chiitoitsu { pairs: _ } => only_base(25),
        structure::HandStructure::Kokushi { pair: _ } => only_base(30),
    }
}

// The fu of one of four melds, by its place.
fn fu_at(ms: [meld::Meld; 4], w: context::GameContext, i: usize) -> u8
    ensures { result ≡ fu_at w ms i }
{
    let Some(&m) = ms.get(i) else {
        return 0;
    };
    let kept = wait::winning_tile_in_closed_sequence(ms, w);
    fu::meld_fu_with_context(m, w, kept)
}

// The fu of a meld of a reading, by its place, 0 to 3; 0 for any other place, and in readings without melds.
#[tactic(auto, unfolding(crate::specs::Breakdown::meld_fu_at))]
pub fn meld_fu(h: structure::HandStructure, w: context::GameContext, i: usize) -> u8
    ensures { result ≡ meld_fu_at w i (reading_of h) }
{
    let structure::HandStructure::Standard { pair: _, melds } = h else {
        return 0;
    };
    fu_at(melds, w, i)
}
