// The calls as a lent slice of melds, taken out of it by value.
#![tactic(auto)]

ghost use Rattle.std.specs.Prelude.{◌≡◌};
ghost use Rattle.lent.specs.Lent.{call_at, calls_of};

// The call that stands at a place, or the meld of zeros past the end.
pub fn call_or_none(calls: &[meld::Meld], i: usize) -> meld::Meld
    ensures { result ≡ call_at calls.now i }
{
    calls.get(i).copied().unwrap_or(meld::Meld {
        tile: 0,
        kind: 0,
        source: 0,
    })
}

// How many calls are lent, and the first four of them, by value.
pub fn gather(calls: &[meld::Meld]) -> checks::Calls
    ensures { result ≡ calls_of calls.now }
{
    let melds = std::array::from_fn(|i| call_or_none(calls, i));
    checks::Calls {
        count: calls.len(),
        melds,
    }
}
