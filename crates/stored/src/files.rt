// The file of records.
ghost use Rattle.std.specs.Prelude.{◌<◌, ◌≤◌, length, IfOk};
ghost use Rattle.std.specs.Io.{ReadsAtMost};
ghost use Rattle.stored.specs.Runs.{Runs};

use crate::Tally;
use std::io::Read;
use std::rt::Files;
use std::{fs, io};

// Opens a file for reading: the file, or none and a message.
pub fn open<R: Files + Eprint>(rt: &R, path: &str) -> Option<R::File> {
    match fs::open(rt, path) {
        Ok(file) => Some(file),
        Err(e) => {
            let _ = eprintln!(rt; "{path}: {e}");
            None
        }
    }
}

// Reads until the record is full or the file ends, and says how many bytes of it were read. std's `read_exact` does not say that of a record
// which the end cuts off, so the loop is written out.
pub fn read_full<F: Read>(file: &mut F, rec: &mut [u8]) -> io::Result<usize>
    ensures { ReadsAtMost result rec.new }
{
    let mut done = 0;
    while done < rec.len() {
        let n = file.read(&mut rec[done..])?;
        if n == 0 {
            break;
        }
        done += n;
    }
    Ok(done)
}

// A record: an array of bytes.
pub trait Record: Default + Drop {
    // Its bytes.
    fn bytes(&mut self) -> &mut [u8];
}

impl<const N: usize> Record for [u8; N] {
    fn bytes(&mut self) -> &mut [u8] {
        &mut self[..]
    }
}

// The tally of a file, each of whose records `play` counts. One that the file's end cuts off differs. Nothing says that a file ends, so
// there is a number of records that no file reaches.
pub fn run<F, B, K, P>(file: &mut F, mut play: P) -> io::Result<Tally<K>>
where
    F: Read,
    B: Record,
    K: Copy + Default,
    P: FnMut(&B, &mut Tally<K>) -> io::Result<()> + Drop,
    requires { P.IsAlwaysCallable play }
    ensures { IfOk result (Runs P.FnMut play) }
{
    let mut tally = Tally::default();
    for _ in 0..1000000u64 {
        let mut rec = B::default();
        let length = rec.bytes().len();
        let n = read_full(file, rec.bytes())?;
        if n == 0 {
            break;
        }
        if n < length {
            tally.record(false);
            break;
        }
        play(&rec, &mut tally)?;
    }
    Ok(tally)
}
