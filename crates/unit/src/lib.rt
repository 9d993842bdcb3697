// The operations of the unit. Each has no `requires`, and its `ensures` says for every input what is answered and what the lent bytes hold.
#![tactic(auto)]

ghost use Rattle.std.specs.Prelude.{◌≡◌, true, false, [], ◌+◌, ◌-◌, ◌%◌, ◌≤◌, eqb, length};
ghost use Rattle.std.proofs.lemmas.List.Edits.{sets};
ghost use Rattle.lists.specs.Fold.{all};
ghost use Rattle.tile.specs.Tile.{tiles};
ghost use Rattle.rules.specs.Rules.{game};
ghost use Rattle.meld.specs.Meld.{key};
ghost use Rattle.hand.specs.Counts.{held};
ghost use Rattle.hand.specs.Records.{records};
ghost use Rattle.hand.specs.Readings.{is_pairs, thirteen_orphans};
ghost use Rattle.search.specs.Slots.{put, slots_of};
ghost use Rattle.decompose.specs.Packed.{in_words};
ghost use Rattle.checks.specs.Checks.{called};
ghost use Rattle.unit.specs.Listing.{answer_of, listing, written, listing_in, written_in, hand_readings, hand_records};
ghost use Rattle.unit.specs.FirstPass.{specials, standard_records, Finds, FindsSpecial, readings_in, bytes_in, readings_found, bytes_found, seven_records, orphan_records};

use checks::CheckedHand;
use decompose::PairSearch;
use rules::Refusal;
use tile::Tile;

// What is listed: how many readings, and how many bytes their records have.
#[derive(Clone, Copy)]
pub struct Listed {
    pub readings: usize,
    pub bytes: usize,
}

// What is found of seven pairs and thirteen orphans: whether there are seven pairs, and the tile doubled in thirteen orphans.
#[derive(Clone, Copy, Default)]
pub struct FoundSpecial {
    pub seven: bool,
    pub orphan: Option<Tile>,
}

// What the first pass finds: seven pairs and thirteen orphans, and how many standard readings there are.
#[derive(Clone, Copy)]
pub struct Found {
    pub special: FoundSpecial,
    pub standard: usize,
}

impl FoundSpecial {
    // How many readings they are.
    fn readings(self) -> usize
        ensures { (result ≡ readings_in self) × (result ≤ 2) }
    {
        usize::from(self.seven) + usize::from(self.orphan.is_some())
    }

    // How many bytes their records need.
    fn bytes(self) -> usize
        ensures { (result ≡ bytes_in self) × (result ≤ 16) }
    {
        11 * usize::from(self.seven) + 5 * usize::from(self.orphan.is_some())
    }
}

impl Found {
    // How many readings there are.
    fn readings(self) -> usize
        requires { self.standard ≤ 2176 }
        ensures { result ≡ readings_found self }
    {
        self.standard + self.special.readings()
    }

    // How many bytes their records need.
    fn bytes(self) -> usize
        requires { self.standard ≤ 2176 }
        ensures { result ≡ bytes_found self }
    {
        self.standard * hand::STANDARD_BYTES + self.special.bytes()
    }
}

// Is no count odd? Each is looked at, without a branch.
fn none_odd(counts: &[u8; 34]) -> bool
    ensures { result ≡ all (λ t. eqb (held counts.now t % 2) 0) tiles }
{
    let mut good = true;
    for n in counts {
        good = good & (*n % 2 == 0);
    }
    good
}

// May they be seven pairs or thirteen orphans? A no is certain: of pairs no count is odd, and of orphans the first tile and the last are there.
fn may_be_special(counts: &[u8; 34]) -> bool
    ensures { (result ≡ false → is_pairs (held counts.now) ≡ false) × (result ≡ false → thirteen_orphans (held counts.now) ≡ []) }
{
    none_odd(counts) | ((counts[0] != 0) & (counts[33] != 0))
}

// Seven pairs and thirteen orphans. There are none beside a call, and a cheap question tells most other hands.
fn find_special(hand: CheckedHand) -> FoundSpecial
    ensures { FindsSpecial hand.entry.counts.now hand.entry.calls result }
{
    let counts = hand.counts;
    let count = hand.calls.count;
    if count != 0 {
        return FoundSpecial::default();
    }
    if !may_be_special(counts) {
        return FoundSpecial::default();
    }
    let kinds = special::kinds_present(counts);
    FoundSpecial {
        seven: special::is_chiitoitsu(counts, kinds),
        orphan: special::check_kokushi(counts, kinds),
    }
}

// How many melds the hand itself has beside its calls.
fn melds_needed(hand: CheckedHand) -> u32
    ensures { result ≡ 4 - hand.entry.calls.count }
{
    4 - hand.calls.count as u32
}

// The first pass: what there is to list.
fn find_readings(hand: CheckedHand, pairs: PairSearch) -> Found
    requires { in_words pairs.hand ≡ held hand.counts.now }
    ensures { Finds hand.entry.counts.now hand.entry.calls result }
{
    Found {
        special: find_special(hand),
        standard: pairs.count_standard(melds_needed(hand)),
    }
}

// The slots with a call put in.
fn with_call(slots: [u16; 4], m: &meld::Meld) -> [u16; 4]
    ensures { result ≡ put (key m.now) slots }
{
    search::put_in(slots, m.key())
}

// The calls in ascending order, in slots.
fn slots_of(k: checks::Calls) -> [u16; 4]
    ensures { result ≡ slots_of (called k) }
{
    k.called().iter().fold([65535; 4], with_call)
}

// Writes the record of seven pairs where there are some. Answers the place behind it.
fn write_seven(counts: &[u8; 34], seven: bool, out: &mut [u8]) -> usize
    requires { (seven ≡ true → is_pairs (held counts.now) ≡ true) × (length (seven_records counts.now seven) ≤ length out.old) }
    ensures { (result ≡ length (seven_records counts.now seven)) × (out.new ≡ sets out.old 0 (seven_records counts.now seven)) }
{
    if seven {
        return special::write_chiitoitsu(counts, out, 0);
    }
    0
}

// Writes the record of thirteen orphans where there are some. Answers the place behind it.
fn write_orphan(orphan: Option<Tile>, out: &mut [u8], at: usize) -> usize
    requires { at + length (orphan_records orphan) ≤ length out.old }
    ensures { (result ≡ at + length (orphan_records orphan)) × (out.new ≡ sets out.old at (orphan_records orphan)) }
{
    match orphan {
        Some(doubled) => special::write_kokushi(doubled.0, out, at),
        None => at,
    }
}

// What is written of seven pairs and thirteen orphans: how many readings, and the place behind their records.
#[derive(Clone, Copy)]
pub struct WrittenSpecial {
    pub readings: usize,
    pub end: usize,
}

// Writes the records of seven pairs and of thirteen orphans.
fn write_special(hand: CheckedHand, out: &mut [u8]) -> WrittenSpecial
    requires { length (records (specials hand.counts.now hand.calls)) ≤ length out.old }
    ensures { (result.readings ≡ length (specials hand.entry.counts.now hand.entry.calls)) × ((result.readings ≤ 2) × ((result.end ≡ length (records (specials hand.entry.counts.now hand.entry.calls))) × (out.new ≡ sets out.old 0 (records (specials hand.entry.counts.now hand.entry.calls))))) }
{
    let special = find_special(hand);
    let after_seven = write_seven(hand.counts, special.seven, out);
    WrittenSpecial {
        readings: special.readings(),
        end: write_orphan(special.orphan, out, after_seven),
    }
}

// The same where the first pass has found some, which is rare. They are found again, so that nothing of them is kept in between. Answers
// the place behind them.
fn write_found(hand: CheckedHand, special: FoundSpecial, out: &mut [u8]) -> usize
    requires { FindsSpecial hand.counts.now hand.calls special × (length (records (specials hand.counts.now hand.calls)) ≤ length out.old) }
    ensures { (result ≡ length (records (specials hand.entry.counts.now hand.entry.calls))) × (out.new ≡ sets out.old 0 (records (specials hand.entry.counts.now hand.entry.calls))) }
{
    if special.readings() == 0 {
        return 0;
    }
    let written = write_special(hand, out);
    written.end
}

// Writes the records of the standard readings. Answers the place behind them.
fn write_standards(hand: CheckedHand, pairs: PairSearch, out: &mut [u8], at: usize) -> usize
    requires { at + length (standard_records (in_words pairs.hand) hand.calls) ≤ length out.old }
    ensures { (result ≡ at + length (standard_records (in_words pairs.hand) hand.entry.calls)) × (out.new ≡ sets out.old at (standard_records (in_words pairs.hand) hand.entry.calls)) }
{
    pairs.write_standards(melds_needed(hand), slots_of(hand.calls), out, at)
}

// Writes the records of all readings, where the buffer has room for them. Answers how many they are.
pub fn write_all(hand: CheckedHand, out: &mut [u8]) -> usize
    requires { length (hand_records hand.counts.now hand.calls) ≤ length out.old }
    ensures { (result ≡ length (hand_readings hand.entry.counts.now hand.entry.calls)) × ((result ≤ 2178) × (out.new ≡ sets out.old 0 (hand_records hand.entry.counts.now hand.entry.calls))) }
{
    let special = write_special(hand, out);
    let start = special.end;
    let pairs = PairSearch::of(hand.counts);
    let end = write_standards(hand, pairs, out, start);
    (end - start) / hand::STANDARD_BYTES + special.readings
}

// Lists the readings of a finished hand of the game. A refusal leaves the buffer as it was.
pub fn list_readings_in(
    counts: &[u8],
    k: checks::Calls,
    v: rules::Variant,
    out: &mut [u8],
) -> Result<Listed, Refusal>
    ensures answer { answer_of result ≡ listing_in (game v) counts.now k (length out.old) }
    ensures buffer { out.new ≡ written_in (game v) counts.now k out.old }
{
    let hand = checks::check_hand(counts, k, v)?;
    let pairs = PairSearch::of(hand.counts);
    let found = find_readings(hand, pairs);
    let bytes = found.bytes();
    if out.len() < bytes {
        return Err(Refusal::BufferTooShort);
    }
    let start = write_found(hand, found.special, out);
    write_standards(hand, pairs, out, start);
    Ok(Listed {
        readings: found.readings(),
        bytes,
    })
}

// Lists the readings of a finished hand with four players.
pub fn list_readings(counts: &[u8], k: checks::Calls, out: &mut [u8]) -> Result<Listed, Refusal>
    ensures answer { answer_of result ≡ listing counts.now k (length out.old) }
    ensures buffer { out.new ≡ written counts.now k out.old }
{
    list_readings_in(counts, k, rules::Variant::Yonma, out)
}
