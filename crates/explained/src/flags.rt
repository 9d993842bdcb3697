// Why a flag of the win counts nothing. The flags by number, in the order of GameContext: 0 riichi, 1 double riichi, 2 ippatsu, 3 rinshan,
// 4 chankan, 5 last tile, 6 tenhou, 7 chiihou. They stay numbers: `why_uncounted` answers for every number, and the laws
// `flag_tally` and `named_true` speak of each.
ghost use Rattle.std.specs.Prelude.{◌≡◌, cond};
ghost use Rattle.context.specs.Context.{is_tsumo};
ghost use Rattle.explained.specs.Flags.{declared, first_draw, is_set, reason, why_uncounted};

// It counts (unless a yakuman leaves it out), it is not set, or the first reason why it does not count.
#[derive(Clone, Copy)]
pub enum Uncounted {
    Counts,
    NotSet,
    Open,
    NoRiichi,
    ByRon,
    ByTsumo,
    Replacement,
    NotDealer,
    Dealer,
}

// A reason, if it holds, or else the rest.
fn unless(holds: bool, why: Uncounted, rest: Uncounted) -> Uncounted
    ensures { result ≡ cond holds why rest }
{
    if holds { why } else { rest }
}

// What goes with a riichi needs a closed hand and the riichi flag.
fn declared(w: context::GameContext, opened: bool, rest: Uncounted) -> Uncounted
    ensures { result ≡ declared opened w.is_riichi rest }
{
    unless(
        opened,
        Uncounted::Open,
        unless(!w.is_riichi, Uncounted::NoRiichi, rest),
    )
}

// A win on the first draw is by tsumo, with a closed hand.
fn first_draw(w: context::GameContext, opened: bool, rest: Uncounted) -> Uncounted
    ensures { result ≡ first_draw (is_tsumo w) opened rest }
{
    unless(
        !w.is_tsumo(),
        Uncounted::ByRon,
        unless(opened, Uncounted::Open, rest),
    )
}

// Is the flag with this number set?
#[tactic(auto, unfolding(crate::specs::Flags::is_set))]
fn is_set(w: context::GameContext, flag: usize) -> bool
    ensures { result ≡ is_set w flag }
{
    match flag {
        0 => w.is_riichi,
        1 => w.is_double_riichi,
        2 => w.is_ippatsu,
        3 => w.is_rinshan,
        4 => w.is_chankan,
        5 => w.is_last_tile,
        6 => w.is_tenhou,
        7 => w.is_chiihou,
        _ => false,
    }
}

// Why a flag that is set counts nothing.
#[tactic(auto, unfolding(crate::specs::Flags::reason))]
fn reason(w: context::GameContext, opened: bool, flag: usize) -> Uncounted
    ensures { result ≡ reason w opened flag }
{
    let tsumo = w.is_tsumo();
    let unreplaced = unless(
        w.is_rinshan & tsumo,
        Uncounted::Replacement,
        Uncounted::Counts,
    );
    match flag {
        0 => declared(w, opened, Uncounted::Counts),
        1 => declared(w, opened, Uncounted::Counts),
        2 => declared(w, opened, unreplaced),
        3 => unless(!tsumo, Uncounted::ByRon, Uncounted::Counts),
        4 => unless(tsumo, Uncounted::ByTsumo, Uncounted::Counts),
        5 => unreplaced,
        6 => first_draw(
            w,
            opened,
            unless(!w.is_dealer(), Uncounted::NotDealer, Uncounted::Counts),
        ),
        7 => first_draw(
            w,
            opened,
            unless(w.is_dealer(), Uncounted::Dealer, Uncounted::Counts),
        ),
        _ => Uncounted::NotSet,
    }
}

// Why the flag with this number counts nothing.
#[tactic(auto, unfolding(crate::specs::Flags::why_uncounted))]
pub fn why_uncounted(w: context::GameContext, opened: bool, flag: usize) -> Uncounted
    ensures { result ≡ why_uncounted w opened flag }
{
    unless(!is_set(w, flag), Uncounted::NotSet, reason(w, opened, flag))
}
