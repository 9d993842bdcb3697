// What the programs share that run stored answers: the parts of a record, the answer that it has, what is counted, and the file. A file
// is a row of records of one length, numbers little-endian; `s` is a record, and `at` the place of a part in it.
#![tactic(auto)]

ghost use Rattle.std.specs.Prelude.{◌≡◌, ◌+◌, ◌≤◌, length, take, drop};
ghost use Rattle.std.specs.Int.{from_le_bytes, w16, w32};

mod answers;
mod files;
mod scores;
mod tallies;

pub use answers::{Scored, answer, chosen_at, is_written, scored_at, slot, slot_at};
pub use files::{Record, open, read_full, run};
pub use scores::{Level, Paid, Score, level_at, paid_at};
pub use tallies::{Refusals, Tally, count};

// The N bytes at a place.
pub fn part<const N: usize>(s: &[u8], at: usize) -> &[u8; N]
    requires { at + N ≤ length s.now }
    ensures { result.now ≡ take N (drop at s.now) }
{
    <&[u8; N]>::try_from(&s[at..at + N]).unwrap()
}

// The number in two bytes, the lower one first.
pub fn u16_at(s: &[u8], at: usize) -> usize
    requires { at + 2 ≤ length s.now }
    ensures value { result ≡ from_le_bytes w16 (take 2 (drop at s.now)) }
    ensures bound { result ≤ 65535 }
{
    usize::from(u16::from_le_bytes(*part(s, at)))
}

// The number in four bytes, the lowest one first.
pub fn u32_at(s: &[u8], at: usize) -> u32
    requires { at + 4 ≤ length s.now }
    ensures { result ≡ from_le_bytes w32 (take 4 (drop at s.now)) }
{
    u32::from_le_bytes(*part(s, at))
}

// The meld in three bytes, tile, kind and source.
pub fn meld_at(s: &[u8], at: usize) -> meld::Meld
    requires { at + 3 ≤ length s.now }
{
    let [tile, kind, source] = *part::<3>(s, at);
    meld::Meld { tile, kind, source }
}

// The four melds in twelve bytes.
pub fn melds_at(s: &[u8], at: usize) -> [meld::Meld; 4]
    requires { at + 12 ≤ length s.now }
{
    [
        meld_at(s, at),
        meld_at(s, at + 3),
        meld_at(s, at + 6),
        meld_at(s, at + 9),
    ]
}

// So many calls, with the four melds in twelve bytes.
pub fn calls_of(count: usize, s: &[u8], at: usize) -> checks::Calls
    requires { at + 12 ≤ length s.now }
{
    checks::Calls {
        count,
        melds: melds_at(s, at),
    }
}

// The calls in 14 bytes: their number in two, and the four melds.
pub fn calls_at(s: &[u8], at: usize) -> checks::Calls
    requires { at + 14 ≤ length s.now }
{
    calls_of(u16_at(s, at), s, at + 2)
}

// The indicators in eleven bytes: how many are shown, and ten tiles.
fn indicators_at(s: &[u8], at: usize) -> context::Indicators
    requires { at + 11 ≤ length s.now }
{
    context::Indicators {
        count: s[at],
        tiles: *part(s, at + 1),
    }
}

// The win in 35 bytes: type, winning tile, round wind, seat wind, eight flags as 0 or 1, the room's fu for the pair of the double wind, and the
// indicators of dora and of ura, eleven bytes each.
pub fn win_at(s: &[u8], at: usize) -> context::GameContext
    requires { at + 35 ≤ length s.now }
{
    context::GameContext {
        win_type: s[at],
        winning_tile: s[at + 1],
        round_wind: s[at + 2],
        seat_wind: s[at + 3],
        is_riichi: s[at + 4] == 1,
        is_double_riichi: s[at + 5] == 1,
        is_ippatsu: s[at + 6] == 1,
        is_rinshan: s[at + 7] == 1,
        is_chankan: s[at + 8] == 1,
        is_last_tile: s[at + 9] == 1,
        is_tenhou: s[at + 10] == 1,
        is_chiihou: s[at + 11] == 1,
        double_wind_fu: s[at + 12],
        dora_indicators: indicators_at(s, at + 13),
        ura_dora_indicators: indicators_at(s, at + 24),
    }
}
