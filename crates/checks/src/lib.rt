// The checks 1 to 6, which a hand and its calls pass before they are read.
#![tactic(auto)]

pub mod checked;

ghost use Rattle.std.specs.Prelude.{◌≡◌, true, ◌||◌, cond, ℕ, ◌+◌, ◌<◌, ◌≤◌, eqb, leb, IfOk};
ghost use Rattle.lists.specs.Fold.{all};
ghost use Rattle.tile.specs.Tile.{tiles};
ghost use Rattle.rules.specs.Rules.{game, most};
ghost use Rattle.rules.specs.Refusals.{number_beside};
ghost use Rattle.meld.specs.Meld.{is_call, is_meld, uses};
ghost use Rattle.hand.specs.Counts.{held, AtMostFour};
ghost use Rattle.checks.specs.Checks.{called, together, in_wall, is_played, is_call_in, hand_check_in};

pub use checked::CheckedHand;

// The calls: how many there are, and the first four of them. With fewer than four the rest mean nothing; more than four are refused.
#[repr(C)]
#[derive(Clone, Copy)]
pub struct Calls {
    pub count: usize,
    pub melds: [meld::Meld; 4],
}

impl Calls {
    // The calls: the first of the four melds, as many as are called.
    pub fn called(&self) -> &[meld::Meld]
        ensures { result.now ≡ called self.now }
    {
        &self.melds[..self.count.min(4)]
    }
}

// Are all tiles of the meld in the wall: its lowest, and of a sequence the two after it?
fn is_in_wall(m: meld::Meld, v: rules::Variant) -> bool
    requires { m.tile < 34 }
    ensures { result ≡ in_wall (game v) m }
{
    v.in_wall(m.tile) & (!m.is_sequence() | (v.in_wall(m.tile + 1) & v.in_wall(m.tile + 2)))
}

// Can the meld be called in this game?
fn is_played(m: meld::Meld, v: rules::Variant) -> bool
    requires { m.tile < 34 }
    ensures { result ≡ is_played (game v) m }
{
    (v.allows_chi() | !m.is_sequence()) & ((u64::from(m.source) < v.players()) & is_in_wall(m, v))
}

// Is it a meld that is called, and can be called in this game? With four players each that is called can be.
fn is_call_in(m: meld::Meld, v: rules::Variant) -> bool
    ensures { result ≡ is_call_in (game v) m }
{
    if !m.is_call() {
        return false;
    }
    match v {
        rules::Variant::Yonma => true,
        rules::Variant::Sanma => is_played(m, v),
    }
}

// Is each call one that can be called?
fn are_calls(k: Calls, v: rules::Variant) -> bool
    requires { k.count ≤ 4 }
    ensures { result ≡ all (is_call_in (game v)) (called k) }
{
    k.called().iter().all(|m| is_call_in(*m, v))
}

// Are there at most four of each tile?
fn at_most_four(counts: &[u8; 34]) -> bool
    ensures { result ≡ all (λ t. leb (held counts.now t) 4) tiles }
{
    let mut good = true;
    for n in counts {
        good = good & (*n <= 4);
    }
    good
}

// Is there none of a tile that is not in the wall? Each tile is looked at.
fn none_absent(counts: &[u8; 34], v: rules::Variant) -> bool
    ensures { result ≡ all (λ t. (game v).allowed t || eqb (held counts.now t) 0) tiles }
{
    let mut good = true;
    for t in 0..34u8 {
        good = good & (v.in_wall(t) | (counts[t as usize] == 0));
    }
    good
}

// Is there no more of any tile than the wall has: four of each that is in it? With four players every tile is.
fn within_wall(counts: &[u8; 34], v: rules::Variant) -> bool
    ensures { result ≡ all (λ t. leb (held counts.now t) (most (game v) t)) tiles }
{
    let few = at_most_four(counts);
    match v {
        rules::Variant::Yonma => few,
        rules::Variant::Sanma => few & none_absent(counts, v),
    }
}

// Adds tiles of one kind to the counts.
fn add(counts: &mut [u8; 34], t: usize, n: u8)
    requires { (t < 34) × (held counts.old t + n < 256) }
    ensures { (u : ℕ) → held counts.new u ≡ held counts.old u + cond (eqb u t) n 0 }
{
    counts[t] += n;
}

// Adds the tiles of a meld to the counts.
fn add_meld(counts: &mut [u8; 34], m: meld::Meld)
    requires { (is_meld m ≡ true) × ((t : ℕ) → held counts.old t ≤ 16) }
    ensures { (t : ℕ) → held counts.new t ≡ held counts.old t + uses m t }
{
    let t = m.tile as usize;
    if m.is_sequence() {
        add(counts, t, 1);
        add(counts, t + 1, 1);
        add(counts, t + 2, 1);
        return;
    }
    if m.is_kan() {
        add(counts, t, 4);
        return;
    }
    add(counts, t, 3);
}

// The counts with the tiles of the calls added.
pub fn with_calls(counts: &[u8; 34], k: Calls) -> [u8; 34]
    requires { AtMostFour counts.now × ((k.count ≤ 4) × (all is_call (called k) ≡ true)) }
    ensures { (t : ℕ) → held result t ≡ together counts.now (called k) t }
{
    let mut sum = *counts;
    for m in k.called() {
        add_meld(&mut sum, *m);
    }
    sum
}

// Do hand and calls together hold at most four of each tile?
fn together_at_most_four(counts: &[u8; 34], k: Calls) -> bool
    requires { AtMostFour counts.now × ((k.count ≤ 4) × (all is_call (called k) ≡ true)) }
    ensures { result ≡ all (λ t. leb (together counts.now (called k) t) 4) tiles }
{
    if k.count == 0 {
        return true;
    }
    let sum = with_calls(counts, k);
    at_most_four(&sum)
}

// The first of the checks 2 to 6 that fails.
fn check_counts(counts: &[u8; 34], k: Calls, v: rules::Variant) -> Result<(), rules::Refusal>
    ensures { number_beside result ≡ hand_check_in (game v) counts.now k }
{
    if 4 < k.count {
        return Err(rules::Refusal::TooManyCalls);
    }
    if !are_calls(k, v) {
        return Err(rules::Refusal::NotACall);
    }
    if !within_wall(counts, v) {
        return Err(rules::Refusal::CountAboveFour);
    }
    if !together_at_most_four(counts, k) {
        return Err(rules::Refusal::FiveOfAKind);
    }
    if hand::sum_range(counts, 0, 34) + 3 * (k.count as u64) != 14 {
        return Err(rules::Refusal::NumberOfTiles);
    }
    Ok(())
}

// The hand and its calls, or the first check that fails.
pub fn check_hand<'a>(
    counts: &'a [u8],
    k: Calls,
    v: rules::Variant,
) -> Result<CheckedHand<'a>, rules::Refusal>
    ensures answer { number_beside result ≡ hand_check_in (game v) counts.now k }
    ensures hand { IfOk result (λ h. (h.counts.now ≡ counts.now) × (h.calls ≡ k)) }
{
    let Ok(counts) = <&[u8; 34]>::try_from(counts) else {
        return Err(rules::Refusal::CountsLength);
    };
    check_counts(counts, k, v)?;
    Ok(CheckedHand { counts, calls: k })
}
