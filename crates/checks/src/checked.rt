// A hand that has passed the checks.
ghost use Rattle.std.specs.Prelude.{◌≡◌};
ghost use Rattle.checks.specs.Checks.{hand_check};

// The counts of a hand and its calls, which have passed the checks 1 to 6.
#[derive(Clone, Copy)]
pub struct CheckedHand<'a> {
    pub counts: &'a [u8; 34],
    pub calls: crate::Calls,
    ghost passed: { hand_check counts.now calls ≡ 0 },
}
