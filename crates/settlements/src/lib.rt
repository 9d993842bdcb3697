// How deals are settled: who pays whom what for a win and at a draw, who takes the sticks, and whether the counter rises.
#![tactic(auto)]

ghost use Rattle.std.specs.Prelude.{◌≡◌, cond, sum, ◌+◌, ◌*◌, ◌≤◌};
ghost use Rattle.seat_book.specs.Book.{Small};
ghost use Rattle.settlements.specs.Settlements.{owes, given, win_settlement, draw_settlement};

// For each repeat counter the discarder pays so much by ron.
const COUNTER_BY_RON: u64 = 300;

// For each repeat counter each payer pays so much by tsumo.
const COUNTER_BY_TSUMO: u64 = 100;

// Who won: the winner's seat and, where there is one, the discarder's. Without one the win is by tsumo, and what stands there is not read.
// C lends this, so that it is a flag and a byte and no Option.
#[repr(C)]
#[derive(Clone, Copy)]
pub struct Winner {
    pub seat: u8,
    pub has_discarder: bool,
    pub discarder: u8,
}

// What a seat owes: if it pays, the amount and so much for each repeat counter, else nothing.
fn owed(pays: bool, amount: u32, for_each: u64, counter: u8) -> u64
    requires { for_each ≤ 300 }
    ensures { (result ≡ cond pays (amount + for_each * counter) 0) × (result ≤ 5000000000) }
{
    if pays {
        u64::from(amount) + for_each * u64::from(counter)
    } else {
        0
    }
}

// What the seat s owes the winner: by ron the discarder pays, by tsumo everyone but the winner.
fn owes(p: scoring::Payment, counter: u8, w: Winner, d: seat_book::Deal, s: u8) -> u64
    ensures { (result ≡ owes p counter w d s) × (result ≤ 5000000000) }
{
    match p {
        scoring::Payment::Ron { from_discarder } => owed(
            s == w.discarder,
            from_discarder,
            COUNTER_BY_RON,
            counter,
        ),
        scoring::Payment::DealerTsumo { from_each } => owed(
            s != w.seat,
            from_each,
            COUNTER_BY_TSUMO,
            counter,
        ),
        scoring::Payment::Tsumo {
            from_dealer,
            from_non_dealer,
        } => {
            let amount = if s == d.dealer {
                from_dealer
            } else {
                from_non_dealer
            };
            owed(s != w.seat, amount, COUNTER_BY_TSUMO, counter)
        }
    }
}

// What the seats pay together.
fn all_of(pays: &[u64; 4]) -> u64
    requires { sum pays.now ≤ 20000000000 }
    ensures { result ≡ sum pays.now }
{
    pays.iter().sum()
}

// How a win is settled, the counter being the one before this deal.
pub fn win_settlement(
    p: scoring::Payment,
    counter: u8,
    w: Winner,
    d: seat_book::Deal,
) -> seat_book::Settlement
    ensures { (result ≡ win_settlement p counter w d) × Small result }
{
    let pays: [u64; 4] = std::array::from_fn(|s| owes(p, counter, w, d, s as u8));
    let gain = all_of(&pays);
    seat_book::Settlement {
        gets: std::array::from_fn(|s| if s == usize::from(w.seat) { gain } else { 0 }),
        pays,
        taker: Some(w.seat),
        raises: w.seat == d.dealer,
    }
}

// How a draw is settled: nobody gets or pays, and the sticks stay.
#[tactic(auto, unfolding(crate::specs::Settlements::draw_settlement))]
pub fn draw_settlement() -> seat_book::Settlement
    ensures { (result ≡ draw_settlement) × Small result }
{
    seat_book::Settlement {
        gets: [0; 4],
        pays: [0; 4],
        taker: None,
        raises: true,
    }
}
