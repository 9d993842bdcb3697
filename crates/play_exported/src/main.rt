// Plays the hands of `play` (data/hands), and of the wins of `replay_wins` (data/wins) and the listings of `replay` (data/listings) each
// sixteenth record, through the exported operations, the calls lent to them as slices, and says how often each was asked and how many
// answers differ from the stored ones; of a stored listing every byte of the buffer is compared too, of the others count and lengths of the
// records. A difference is written with the row's name.
#![tactic(auto)]

use asked::{Row, Tally};
use std::io;
use std::rt::Files;

mod asked;
mod hands;
mod listings;
mod wins;

// Opens a file, plays each of its records and writes the tally.
fn play_file<R, B, P>(rt: &R, path: &str, what: &str, play: P) -> io::Result<()>
where
    R: Files + Print + Eprint,
    B: stored::Record,
    P: FnMut(&B, &mut Tally) -> io::Result<()> + Drop,
    requires { P.IsAlwaysCallable play }
{
    let Some(mut file) = stored::open(rt, path) else {
        return Ok(());
    };
    let mut tally = stored::run(&mut file, play)?;
    let mut row = Row {
        rt,
        name: b"the version",
        tally: &mut tally,
    };
    row.ask_version()?;
    asked::print(rt, &tally, what)
}

// Plays the three files.
fn main(rt: HostRuntime) -> io::Result<()> {
    play_file(
        &rt,
        "hands",
        "hands and values played",
        |rec: &[u8; 1024], tally: &mut Tally| { hands::play(&rt, rec, tally) },
    )?;
    play_file(
        &rt,
        "wins",
        "wins replayed",
        |rec: &[u8; 256], tally: &mut Tally| { wins::replay(&rt, rec, tally) },
    )?;
    play_file(
        &rt,
        "listings",
        "listings replayed",
        |rec: &[u8; 256], tally: &mut Tally| { listings::replay(&rt, rec, tally) },
    )
}
