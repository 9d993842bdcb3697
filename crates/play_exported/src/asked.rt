// What is lent to the operations, whether their answers are the stored ones, and what is counted.
ghost use Rattle.std.specs.Prelude.{◌+◌, ◌≤◌, length};

use std::{fmt, io};

// The version of the interface that is asked here.
const WRITTEN_FOR: u32 = 8;

// ---- what is lent

// Each byte of a buffer before a listing.
pub const FILLED: u8 = 165;

// How many of five melds are lent. More calls than five are lent as five, which are too many as well.
pub fn lent(count: usize) -> usize
    ensures { result ≤ 5 }
{
    count.min(5)
}

// The four melds in twelve bytes, the last of them twice.
pub fn five_at(s: &[u8], at: usize) -> [meld::Meld; 5]
    requires { at + 12 ≤ length s.now }
{
    let [a, b, c, d] = stored::melds_at(s, at);
    [a, b, c, d, d]
}

// ---- is an answer the stored one?

// The interface's number of the settlement beside an answer's number: none beside a refusal, else by win type and seat 1 ron, 2 tsumo of
// the dealer, 3 tsumo of another.
pub fn settlement(number: u8, dealer: bool, win_type: u8) -> u32 {
    match (number, win_type, dealer) {
        (0, 0, _) => 1,
        (0, _, true) => 2,
        (0, _, false) => 3,
        _ => 0,
    }
}

// The same of a win.
pub fn settlement_of(number: u8, w: context::GameContext) -> u32 {
    settlement(number, w.seat_wind == 27, w.win_type)
}

// The answer about a win or a reading, in the plain numbers of the C interface. A refusal has its number alone.
#[derive(Clone, Copy, PartialEq, Eq, Default)]
pub struct Values {
    pub number: u32,
    pub settlement: u32,
    pub scored: stored::Scored,
}

impl Values {
    // The refusal with this number.
    pub fn refused(number: u32) -> Values {
        Values {
            number,
            settlement: 0,
            scored: stored::Scored::default(),
        }
    }
}

impl From<answers::ScoreValues> for Values {
    fn from(v: answers::ScoreValues) -> Values {
        let tallies = v.tallies;
        let score = stored::Score {
            tallies,
            han: v.han,
            fu: v.fu,
            is_yakuman: v.is_yakuman,
            level: stored::Level {
                place: v.level,
                times: v.yakuman_count,
            },
            regular_dora: v.regular_dora,
            ura_dora: v.ura_dora,
            basic_points: v.basic_points,
            paid: stored::Paid {
                from_non_dealer: v.from_non_dealer,
                from_dealer: v.from_dealer,
                from_discarder: v.from_discarder,
                total: v.total,
            },
        };
        Values {
            number: v.number,
            settlement: v.settlement,
            scored: stored::Scored {
                reading: v.reading,
                score,
            },
        }
    }
}

// The payment of an answer.
fn paid_of(p: answers::PaymentValues) -> stored::Paid {
    stored::Paid {
        from_non_dealer: p.from_non_dealer,
        from_dealer: p.from_dealer,
        from_discarder: p.from_discarder,
        total: p.total,
    }
}

// Are these the waits, beside this number?
pub fn same_waits(waits: [u8; 6], number: u8, v: answers::WaitsValues) -> bool {
    (v.number == u32::from(number)) & (v.waits == waits)
}

// The length of the first record of a listing, in its first two bytes: that of seven pairs, of thirteen orphans, or of melds and a pair.
fn record_length(listing: &[u8]) -> Option<usize> {
    let [low, high, ..] = listing else {
        return None;
    };
    let length = usize::from(u16::from_le_bytes([*low, *high]));
    [11, 5, hand::STANDARD_BYTES]
        .contains(&length)
        .then_some(length)
}

// Does the buffer hold the records of so many readings in so many bytes, one after the other, each with its length first, and is the byte
// after them as before? A refused listing holds none.
pub fn same_records(buf: &[u8; hand::ALWAYS_ENOUGH + 1], readings: usize, bytes: usize) -> bool {
    if bytes > hand::ALWAYS_ENOUGH {
        return false;
    }
    let mut rest = &buf[..bytes];
    for _ in 0..readings {
        let Some(length) = record_length(rest) else {
            return false;
        };
        let Some(next) = rest.get(length..) else {
            return false;
        };
        rest = next;
    }
    rest.is_empty() & (buf[bytes] == FILLED)
}

// ---- what is counted

// The operations.
#[derive(Clone, Copy)]
pub enum Operation {
    List,
    Win,
    Reading,
    Waits,
    Level,
    Basic,
    Payment,
    Version,
}

impl Operation {
    const ALL: [Operation; 8] = [
        Operation::List,
        Operation::Win,
        Operation::Reading,
        Operation::Waits,
        Operation::Level,
        Operation::Basic,
        Operation::Payment,
        Operation::Version,
    ];
}

impl fmt::Display for Operation {
    fn fmt<W: fmt::Write>(&self, f: &mut fmt::Formatter<W>) -> fmt::Result {
        f.write_str(match self {
            Operation::List => "ziwhakemo_list_readings",
            Operation::Win => "ziwhakemo_score_win",
            Operation::Reading => "ziwhakemo_score_reading",
            Operation::Waits => "ziwhakemo_name_waits",
            Operation::Level => "ziwhakemo_score_level",
            Operation::Basic => "ziwhakemo_basic_points",
            Operation::Payment => "ziwhakemo_payment",
            Operation::Version => "ziwhakemo_version",
        })
    }
}

// How often an operation was asked, and how many of its answers differ.
#[derive(Clone, Copy, Default)]
pub struct Asked {
    times: u64,
    differ: u64,
}

// What is counted of each operation.
pub type Tally = stored::Tally<[Asked; 8]>;

// Writes the tally.
pub fn print(rt: &impl Print, tally: &Tally, what: &str) -> io::Result<()> {
    println!(rt; "{} {what}", tally.records)?;
    for (operation, asked) in Operation::ALL.iter().zip(&tally.kinds) {
        println!(rt;
            "{operation}: {} asked, {} differ",
            asked.times, asked.differ
        )?;
    }
    println!(rt; "{} answers differ", tally.differ)
}

// A row that is played: its name, where a difference is written, and the tally.
#[derive(Drop)]
pub struct Row<'a, R> {
    pub rt: &'a R,
    pub name: &'a [u8],
    pub tally: &'a mut Tally,
}

impl<R: Print> Row<'_, R> {
    // Counts the answer of an operation. Where it differs, the row is named.
    pub fn count(&mut self, operation: Operation, agrees: bool) -> io::Result<()> {
        let asked = &mut self.tally.kinds[operation as usize];
        stored::count(&mut asked.times, true);
        stored::count(&mut asked.differ, !agrees);
        self.tally.answer(agrees);
        if agrees {
            return Ok(());
        }
        print!(self.rt; "{operation} differs: ")?;
        self.rt.write_all(self.name)?;
        println!(self.rt; ", record {}", self.tally.records)
    }

    // Asks who pays what for the stored basic points.
    pub fn ask_payment(
        &mut self,
        points: &[u8; 20],
        number: u8,
        dealer: bool,
        win_type: u8,
    ) -> io::Result<()> {
        let p = ziwhakemo::ziwhakemo_payment(stored::u32_at(points, 0), dealer, win_type);
        let agrees = (p.number == u32::from(number))
            & (p.settlement == settlement(number, dealer, win_type))
            & (paid_of(p) == stored::paid_at(points, 4));
        self.count(Operation::Payment, agrees)
    }

    // Asks the level and the basic points of a han, a fu and a yakuman.
    pub fn ask_level(
        &mut self,
        numbers: &[u8; 3],
        level: stored::Level,
        basic: u32,
    ) -> io::Result<()> {
        let [han, fu, yakuman] = *numbers;
        let a = ziwhakemo::ziwhakemo_score_level(han, fu, yakuman == 1);
        let answer = stored::Level {
            place: a.level,
            times: a.count,
        };
        self.count(Operation::Level, answer == level)?;
        let points = ziwhakemo::ziwhakemo_basic_points(han, fu, yakuman == 1);
        self.count(Operation::Basic, points == basic)
    }

    // Asks the version.
    pub fn ask_version(&mut self) -> io::Result<()> {
        self.count(
            Operation::Version,
            ziwhakemo::ziwhakemo_version() == WRITTEN_FOR,
        )
    }
}
