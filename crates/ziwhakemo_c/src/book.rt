// The seat book: lent to each booking and altered where it is kept. With four players.
ghost use Rattle.std.specs.Prelude.{◌≡◌};
ghost use Rattle.lent.specs.Lent.{calls_of};
ghost use Rattle.seat_book.specs.Book.{new_book};
ghost use Rattle.seat_book.specs.History.{number_of, book_after};
ghost use Rattle.booking.specs.Booking.{win_outcome, draw_outcome};

// A book in which nothing is booked.
#[unsafe(no_mangle)]
pub extern "C" fn ziwhakemo_new_book() -> seat_book::SeatBook
    ensures { result ≡ new_book }
{
    ziwhakemo::book::ziwhakemo_new_book()
}

// Books a deal that ends in a draw.
#[unsafe(no_mangle)]
pub extern "C" fn ziwhakemo_book_draw(book: &mut seat_book::SeatBook, deal: seat_book::Deal) -> u32
    ensures number { result ≡ number_of (draw_outcome book.old deal) }
    ensures book { book.new ≡ book_after book.old deal (draw_outcome book.old deal) }
{
    ziwhakemo::book::ziwhakemo_book_draw(book, deal)
}

// Books a deal that ends in a win: the unit scores it.
#[unsafe(no_mangle)]
pub extern "C" fn ziwhakemo_book_win(
    book: &mut seat_book::SeatBook,
    counts: &[u8],
    calls: &[meld::Meld],
    w: context::GameContext,
    deal: seat_book::Deal,
    winner: settlements::Winner,
) -> u32
    ensures number { result ≡ number_of (win_outcome book.old counts.now (calls_of calls.now) w deal winner) }
    ensures book { book.new ≡ book_after book.old deal (win_outcome book.old counts.now (calls_of calls.now) w deal winner) }
{
    ziwhakemo::book::ziwhakemo_book_win(book, counts, calls, w, deal, winner)
}
