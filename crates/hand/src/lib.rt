// The hand (hand.rs of agari): what its readings are, in specs/, laws about them, in proofs/, and how many tiles it has.
#![tactic(auto)]

ghost use Rattle.std.specs.Prelude.{◌≡◌, ◌-◌, ◌*◌, ◌≤◌};
ghost use Rattle.lists.specs.Fold.{sum, up_from};
ghost use Rattle.hand.specs.Counts.{held};

// How many bytes the record of a standard reading has.
pub const STANDARD_BYTES: usize = 17;

// How many bytes the records of a hand never exceed.
pub const ALWAYS_ENOUGH: usize = 1915;

// How many tiles there are from one up to another.
pub fn sum_range(counts: &[u8; 34], from: usize, to: usize) -> u64
    requires { to ≤ 34 }
    ensures { (result ≡ sum (held counts.now) (up_from (to - from) from)) × (result ≤ 255 * 34) }
{
    let mut sum: u64 = 0;
    for i in from..to {
        sum += u64::from(counts[i]);
    }
    sum
}
