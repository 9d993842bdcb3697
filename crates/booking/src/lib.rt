// Bookings, with the book, the calls and the rest by value: a draw, and a win that the unit scores.
#![tactic(auto)]

ghost use Rattle.std.specs.Prelude.{◌≡◌, true, ◌<◌};
ghost use Rattle.seat_book.specs.Book.{has_room, Small};
ghost use Rattle.seat_book.specs.History.{refused};
ghost use Rattle.booking.specs.Booking.{seat_wind, type_of, seated, are_seats, raising, scored_outcome, win_outcome, draw_outcome, answer_of};

// Refused: a seat is above 3, or the discarder is the winner.
const NOT_SEATS: u32 = 15;

// Refused: the book takes no deal more, or this one would raise a counter of 255.
const NO_ROOM: u32 = 16;

// The counter runs to this.
const MOST_COUNTER: u8 = 255;

// East, the dealer's wind; South, West and North follow it.
const EAST: u8 = 27;

// The number, 0 where the deal is booked, and the book as the booking leaves it. Not a Result: `book_win` and `book_draw` promise number and book
// together (`answer_of`), the book of a refused deal too, and C is handed both.
#[derive(Clone, Copy)]
pub struct Booked {
    pub number: u32,
    pub book: seat_book::SeatBook,
}

// The seat wind of a seat, counted in turn order from the dealer's.
fn seat_wind(dealer: u8, seat: u8) -> u8
    requires { (dealer < 4) × (seat < 4) }
    ensures { result ≡ seat_wind dealer seat }
{
    EAST + (seat + 4 - dealer) % 4
}

// How it was won: by ron (0) where there is a discarder, else by tsumo (1).
fn type_of(has_discarder: bool) -> u8
    ensures { result ≡ type_of has_discarder }
{
    if has_discarder { 0 } else { 1 }
}

// The win with its type and its seat wind as the seats say.
fn seated(
    d: seat_book::Deal,
    won: settlements::Winner,
    w: context::GameContext,
) -> context::GameContext
    requires { (d.dealer < 4) × (won.seat < 4) }
    ensures { result ≡ seated d won w }
{
    context::GameContext {
        win_type: type_of(won.has_discarder),
        seat_wind: seat_wind(d.dealer, won.seat),
        ..w
    }
}

// Are the seats those of four players, and is the discarder, if there is one, another than the winner?
fn are_seats(d: seat_book::Deal, won: settlements::Winner) -> bool
    ensures { result ≡ are_seats d won }
{
    (d.dealer < 4)
        & ((won.seat < 4)
            & (!won.has_discarder | ((won.discarder < 4) & !(won.discarder == won.seat))))
}

// A refusal: the book as it was.
fn refuse(number: u32, b: seat_book::SeatBook, d: seat_book::Deal) -> Booked
    ensures { result ≡ answer_of b d (refused number) }
{
    Booked { number, book: b }
}

// A deal that is settled so, unless it would raise a counter that cannot rise.
fn settle(b: seat_book::SeatBook, d: seat_book::Deal, x: seat_book::Settlement) -> Booked
    requires { (has_room b ≡ true) × Small x }
    ensures { result ≡ answer_of b d (raising b x) }
{
    if x.raises & (b.counter == MOST_COUNTER) {
        return refuse(NO_ROOM, b, d);
    }
    let book = seat_book::settle(b, d, x);
    Booked { number: 0, book }
}

// A win that was scored, or that scoring refused.
fn book_scored(
    b: seat_book::SeatBook,
    d: seat_book::Deal,
    won: settlements::Winner,
    a: choice::ScoreAnswer,
) -> Booked
    requires { has_room b ≡ true }
    ensures { result ≡ answer_of b d (scored_outcome b d won a) }
{
    let number = a.number;
    if number != 0 {
        return refuse(u32::from(number), b, d);
    }
    let score = a.score;
    let payment = score.payment;
    settle(
        b,
        d,
        settlements::win_settlement(payment, b.counter, won, d),
    )
}

// Books a win. The book is looked at before the hand: one that takes no deal more has no win scored for it.
pub fn book_win(
    b: seat_book::SeatBook,
    counts: &[u8],
    k: checks::Calls,
    w: context::GameContext,
    d: seat_book::Deal,
    won: settlements::Winner,
) -> Booked
    ensures { result ≡ answer_of b d (win_outcome b counts.now k w d won) }
{
    if !are_seats(d, won) {
        return refuse(NOT_SEATS, b, d);
    }
    let takes_deal = seat_book::has_room(b);
    if !takes_deal {
        return refuse(NO_ROOM, b, d);
    }
    book_scored(b, d, won, win::score_win(counts, k, seated(d, won, w)))
}

// Books a draw.
pub fn book_draw(b: seat_book::SeatBook, d: seat_book::Deal) -> Booked
    ensures { result ≡ answer_of b d (draw_outcome b d) }
{
    if 4 <= d.dealer {
        return refuse(NOT_SEATS, b, d);
    }
    if !seat_book::has_room(b) {
        return refuse(NO_ROOM, b, d);
    }
    settle(b, d, settlements::draw_settlement())
}
