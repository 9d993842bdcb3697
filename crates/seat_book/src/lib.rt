// The seat book: the points of four seats, the sticks on the table, the repeat counter and the deals booked; and what a settled deal makes of it.
#![tactic(auto)]

ghost use Rattle.std.specs.Prelude.{◌≡◌, true, ◌+◌, ◌≤◌, ◌<◌};
ghost use Rattle.lists.specs.Fold.{one};
ghost use Rattle.seat_book.specs.Points.{is_within, moved};
ghost use Rattle.seat_book.specs.Book.{new_book, has_room, declared_in, on_table, taken, seat_after, points_after, sticks_after, counter_after, settled, most_sticks, most_moved, Settles};

// What each seat starts with.
const START: i64 = 25000;

// The points of a riichi stick.
const STICK: u64 = 1000;

// A book takes so many deals.
const MOST_DEALS: u16 = 1024;

// A book that shows more sticks takes no deal.
const MOST_STICKS: u32 = 4096;

// A book in which a seat is beyond these points takes no deal.
const MOST_POINTS: i64 = 1000000000;

const LEAST_POINTS: i64 = -1000000000;

// The book of a table, as it is lent to each booking. With `reserved`, which every booking keeps, it has no padding: each of its 40 bytes
// belongs to a field.
#[repr(C)]
#[derive(Clone, Copy)]
pub struct SeatBook {
    pub points: [i64; 4],
    pub sticks: u32,
    pub deals: u16,
    pub counter: u8,
    pub reserved: u8,
}

// One deal: the dealer's seat, and which seats declared riichi.
#[repr(C)]
#[derive(Clone, Copy)]
pub struct Deal {
    pub dealer: u8,
    pub declared: [bool; 4],
}

// How a deal is settled: what each seat gets and pays besides its stick, the seat that takes all sticks (a number above 3 is no seat, so
// that nobody does), and whether the counter rises. What is had by seat is an array of its own, as it is in a book and a deal, which C lends.
#[derive(Clone, Copy)]
pub struct Settlement {
    pub gets: [u64; 4],
    pub pays: [u64; 4],
    pub taker: Option<u8>,
    pub raises: bool,
}

// A book in which nothing is booked.
pub fn new_book() -> SeatBook
    ensures { result ≡ new_book }
{
    SeatBook {
        points: [START; 4],
        sticks: 0,
        deals: 0,
        counter: 0,
        reserved: 0,
    }
}

// Is a seat within its limits?
fn is_within(p: i64) -> bool
    ensures { result ≡ is_within p }
{
    (LEAST_POINTS <= p) & (p <= MOST_POINTS)
}

// Does the book take another deal?
pub fn has_room(b: SeatBook) -> bool
    ensures { result ≡ has_room b }
{
    (b.deals < MOST_DEALS) & ((b.sticks <= MOST_STICKS) & b.points.iter().all(|p| is_within(*p)))
}

// The points after receiving and paying.
fn moved(p: i64, gets: u64, pays: u64) -> i64
    requires { (is_within p ≡ true) × ((gets ≤ 1000000000000) × (pays ≤ 1000000000000)) }
    ensures { result ≡ moved p gets pays }
{
    p + (gets as i64) - (pays as i64)
}

// How many seats declared riichi.
fn declared_in(d: Deal) -> u32
    ensures { (result ≡ declared_in d) × (result ≤ 4) }
{
    d.declared.iter().filter(|declares| **declares).count() as u32
}

// The sticks on the table once those of this deal lie there.
fn on_table(b: SeatBook, d: Deal) -> u32
    requires { b.sticks ≤ most_sticks }
    ensures { (result ≡ on_table b d) × (result ≤ 4100) }
{
    b.sticks + declared_in(d)
}

// The points of the sticks, for a seat that takes them.
fn taken(takes: bool, sticks: u32) -> u64
    requires { sticks ≤ 4100 }
    ensures { (result ≡ taken takes sticks) × (result ≤ 4100000) }
{
    if takes { STICK * u64::from(sticks) } else { 0 }
}

// The points of a seat after a deal: with the sticks if it takes them, and without its own if it declared.
fn seat_after(p: i64, gets: u64, pays: u64, takes: bool, declared: bool, sticks: u32) -> i64
    requires { (is_within p ≡ true) × ((gets ≤ most_moved) × ((pays ≤ most_moved) × (sticks ≤ 4100))) }
    ensures { result ≡ seat_after p gets pays takes declared sticks }
{
    let taken = taken(takes, sticks);
    let stick = STICK * u64::from(declared);
    moved(p, gets + taken, pays + stick)
}

// The sticks that are left after a deal.
fn sticks_after(taker: Option<u8>, sticks: u32) -> u32
    ensures { result ≡ sticks_after taker sticks }
{
    match taker {
        Some(seat) if seat < 4 => 0,
        _ => sticks,
    }
}

// The counter after a deal.
fn counter_after(raises: bool, counter: u8) -> u8
    requires { counter + one raises ≤ 255 }
    ensures { result ≡ counter_after raises counter }
{
    if raises { counter + 1 } else { 0 }
}

// The points of the seat s after a deal that is settled so, once all sticks lie on the table.
fn points_after(b: SeatBook, d: Deal, x: Settlement, sticks: u32, s: usize) -> i64
    requires { Settles b x × ((sticks ≡ on_table b d) × ((sticks ≤ 4100) × (s < 4))) }
    ensures { result ≡ points_after b d x s }
{
    seat_after(
        b.points[s],
        x.gets[s],
        x.pays[s],
        x.taker == Some(s as u8),
        d.declared[s],
        sticks,
    )
}

// The book after a deal that is settled so.
pub fn settle(b: SeatBook, d: Deal, x: Settlement) -> SeatBook
    requires { Settles b x }
    ensures { result ≡ settled b d x }
{
    let sticks = on_table(b, d);
    SeatBook {
        points: std::array::from_fn(|s| points_after(b, d, x, sticks, s)),
        sticks: sticks_after(x.taker, sticks),
        deals: b.deals + 1,
        counter: counter_after(x.raises, b.counter),
        reserved: b.reserved,
    }
}
