// The answers that a record has.
ghost use Rattle.std.specs.Prelude.{◌≡◌, ◌≢◌, ◌<◌, ◌+◌, ◌*◌, ◌≤◌, ◌↔◌, ◌++◌, IsTrue, IfSome, IfOk, length, take, drop, slice_index, Ok, Err, Some, None};

use crate::{Score, part};

// Does a buffer begin with these bytes, and is the rest as before?
pub fn is_written<const N: usize>(buf: &[u8; N], bytes: &[u8], before: &[u8; N]) -> bool
    requires { length bytes.now ≤ N }
    ensures { IsTrue result ↔ (buf.now ≡ bytes.now ++ drop (length bytes.now) before.now) }
{
    let mut right = *before;
    right[..bytes.len()].copy_from_slice(bytes);
    *buf == right
}

// A reading, by its number, and its score.
#[derive(Clone, Copy, PartialEq, Eq, Default)]
pub struct Scored {
    pub reading: usize,
    pub score: Score,
}

// The number of a reading and its score, as a record of `wins` has them: in one byte, and 74.
pub fn scored_at(s: &[u8], at: usize) -> Scored
    requires { at + 75 ≤ length s.now }
    ensures reading { result.reading ≡ slice_index s.now at }
    ensures tallies { result.score.tallies ≡ take 47 (drop (at + 1) s.now) }
{
    Scored {
        reading: usize::from(s[at]),
        score: Score::of(part(s, at + 1), part(s, at + 48), part(s, at + 55)),
    }
}

// The answer that a number and what is stored beside it stand for: 0 stands for the value, another number for a refusal, and no answer has
// a value beside a refusal.
pub fn answer<T: PartialEq + Default + Drop>(number: u32, value: T) -> Option<Result<T, u32>>
    ensures value { number ≡ 0 → result ≡ Some (Ok value) }
    ensures refusal { number ≢ 0 → IfSome result (λ a. a ≡ Err number) }
{
    if number == 0 {
        return Some(Ok(value));
    }
    (value == T::default()).then_some(Err(number))
}

// The slot of 96 bytes of a reading below 8, in a record of `hands`.
pub fn slot(rec: &[u8; 1024], k: usize) -> &[u8; 96]
    requires { k < 8 }
    ensures { result.now ≡ take 96 (drop (256 + 96 * k) rec.now) }
{
    part(rec, 256 + 96 * k)
}

// The score in the slot of a reading.
pub fn slot_at(rec: &[u8; 1024], k: usize) -> Scored
    requires { k < 8 }
    ensures reading { result.reading ≡ k }
    ensures tallies { result.score.tallies ≡ take 47 (take 96 (drop (256 + 96 * k) rec.now)) }
{
    let slot = slot(rec, k);
    Scored {
        reading: k,
        score: Score::of(part(slot, 0), part(slot, 53), part(slot, 60)),
    }
}

// The answer to the win of a record of `hands`: the score of the chosen reading or a refusal, and none where no slot has that reading.
pub fn chosen_at(rec: &[u8; 1024]) -> Option<Result<Scored, u32>>
    ensures refusal { slice_index rec.now 212 ≢ 0 → result ≡ Some (Err (slice_index rec.now 212)) }
    ensures chosen { IfSome result (λ a. IfOk a (λ x. x.reading ≡ slice_index rec.now 213)) }
    ensures none { slice_index rec.now 212 ≡ 0 → 8 ≤ slice_index rec.now 213 → result ≡ None }
{
    if rec[212] != 0 {
        return Some(Err(u32::from(rec[212])));
    }
    let chosen = usize::from(rec[213]);
    if chosen >= 8 {
        return None;
    }
    Some(Ok(slot_at(rec, chosen)))
}
