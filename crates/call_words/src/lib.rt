// Calls from words of tiles.
#![tactic(auto)]

ghost use Rattle.std.specs.Prelude.{◌≡◌, set};
ghost use Rattle.meld.specs.Meld.{is_open};
ghost use Rattle.call_words.specs.Calls.{made_of, is_kind, is_asked, IsLowest, IsCallOf, IsCallIn, with_call, last_call, with_source, can_come_from};

// The lowest tile that is there.
fn lowest(counts: &[u8; 34]) -> Option<usize>
    ensures { IsLowest counts.now result }
{
    counts.iter().position(|n| 0 < *n)
}

// Are the tiles exactly those of the meld?
fn is_made_of(m: meld::Meld, counts: &[u8; 34]) -> bool
    ensures { result ≡ made_of m counts.now }
{
    let mut good = true;
    for t in 0..34 {
        good &= counts[t as usize] == m.uses(t);
    }
    good
}

// The call of a kind that has exactly these tiles, from the left.
fn call_of(counts: &[u8; 34], kind: u8) -> Option<meld::Meld>
    ensures { IsCallOf (is_kind kind) counts.now result }
{
    let tile = lowest(counts)?;
    let m = meld::Meld::from_left(tile as u8, kind);
    if !m.is_call() {
        return None;
    }
    if !is_made_of(m, counts) {
        return None;
    }
    Some(m)
}

// The open call that has exactly these tiles, from the left: a kan, a triplet or a sequence.
fn open_call_of(counts: &[u8; 34]) -> Option<meld::Meld>
    ensures { IsCallOf is_open counts.now result }
{
    let kan = call_of(counts, 5);
    let triplet = call_of(counts, 3);
    let sequence = call_of(counts, 1);
    kan.or(triplet).or(sequence)
}

// The call that has exactly the tiles of a word, from the left: of a kind, or any open one where no kind is asked for. A kind is the number that a
// meld has in C and in the stored records.
pub fn call_in(word: &[u8], kind: Option<u8>) -> Option<meld::Meld>
    ensures { IsCallIn (is_asked kind) word.now result }
{
    let mut counts = [0u8; 34];
    tile_words::add_tiles(&mut counts, word);
    match kind {
        Some(kind) => call_of(&counts, kind),
        None => open_call_of(&counts),
    }
}

// Puts an element at a place; past the last place nothing changes.
pub fn put<T: Copy>(all: &mut [T], i: usize, x: T)
    ensures { all.new ≡ set all.old i x }
{
    if i < all.len() {
        all[i] = x;
    }
}

// The calls with one more. Each is counted, up to 1,000; four are kept.
pub fn with_call(k: checks::Calls, m: meld::Meld) -> checks::Calls
    ensures { result ≡ with_call k m }
{
    let mut melds = k.melds;
    put(&mut melds, k.count, m);
    checks::Calls {
        count: k.count.saturating_add(1).min(1000),
        melds: melds,
    }
}

// ---- whom the last call came from

// The last of the calls; a closed sequence, which is no call, where it was not kept.
fn last_call(k: checks::Calls) -> meld::Meld
    ensures { result ≡ last_call k }
{
    let none = meld::Meld {
        tile: 0,
        kind: 0,
        source: 0,
    };
    let melds = k.melds;
    melds
        .get(k.count.saturating_sub(1))
        .copied()
        .unwrap_or(none)
}

// Can the last of the calls come from a seat? Of more than four it is not asked.
pub fn can_come_from(k: checks::Calls, source: u8) -> bool
    ensures { result ≡ can_come_from source k }
{
    (4 < k.count) | last_call(k).from_seat(source).is_sourced()
}

// The calls, the last of them from a seat. Where it was not kept nothing changes.
pub fn with_source(k: checks::Calls, source: u8) -> checks::Calls
    ensures { result ≡ with_source source k }
{
    let mut melds = k.melds;
    put(
        &mut melds,
        k.count.saturating_sub(1),
        last_call(k).from_seat(source),
    );
    checks::Calls {
        count: k.count,
        melds: melds,
    }
}
