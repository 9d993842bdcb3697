// What the programs count. No file is so long that a number begins again at 0.
ghost use Rattle.std.specs.Prelude.{ℕ, ◌≡◌, ◌≢◌, ◌<◌, ◌+◌, ◌%◌, ◌^◌, if◌then◌else◌, slice_index};

use std::io;

// Counts one more where this is so.
pub fn count(n: &mut u64, so: bool)
    ensures { n.new ≡ (if so then (n.old + 1) % 2 ^ 64 else n.old) }
{
    if so {
        *n = n.wrapping_add(1);
    }
}

// Records, answers that differ, and what else a program counts.
#[derive(Clone, Copy, Default)]
pub struct Tally<K> {
    pub records: u64,
    pub differ: u64,
    pub kinds: K,
}

impl<K> Tally<K> {
    // Counts an answer, which agrees or differs.
    pub fn answer(&mut self, agrees: bool)
        ensures differ { self.new.differ ≡ (if agrees then self.old.differ else (self.old.differ + 1) % 2 ^ 64) }
        ensures records { self.new.records ≡ self.old.records }
        ensures kinds { self.new.kinds ≡ self.old.kinds }
    {
        count(&mut self.differ, !agrees);
    }

    // Counts a record, whose answer agrees or differs.
    pub fn record(&mut self, agrees: bool)
        ensures differ { self.new.differ ≡ (if agrees then self.old.differ else (self.old.differ + 1) % 2 ^ 64) }
        ensures records { self.new.records ≡ (self.old.records + 1) % 2 ^ 64 }
        ensures kinds { self.new.kinds ≡ self.old.kinds }
    {
        count(&mut self.records, true);
        self.answer(agrees);
    }
}

// How often each refusal came, by its number. There is none beyond 15.
#[derive(Clone, Copy, Default)]
pub struct Refusals {
    pub times: [u64; 16],
}

impl Refusals {
    // Counts a refusal.
    pub fn count(&mut self, number: u32)
        ensures here { number < 16 → slice_index self.new.times number ≡ (slice_index self.old.times number + 1) % 2 ^ 64 }
        ensures others { (i : ℕ) → i ≢ number → slice_index self.new.times i ≡ slice_index self.old.times i }
    {
        if number < 16 {
            count(&mut self.times[number as usize], true);
        }
    }

    // Writes how often each of these came.
    pub fn print(&self, rt: &impl Print, numbers: &[usize]) -> io::Result<()> {
        for (i, number) in numbers.iter().enumerate() {
            let comma = if i == 0 { "" } else { ", " };
            let times = self.times.get(*number).copied().unwrap_or(0);
            print!(rt; "{comma}{number}: {times}")?;
        }
        Ok(())
    }
}
