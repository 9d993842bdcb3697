// Writing to standard output.
use std::io;

// Writes bytes.
pub fn say(rt: &impl Print, b: &[u8]) -> io::Result<()> {
    rt.write_all(b)
}

// Writes one byte.
pub fn say_byte(rt: &impl Print, b: u8) -> io::Result<()> {
    rt.write_all(&[b])
}

// Writes a number.
pub fn say_number(rt: &impl Print, n: u64) -> io::Result<()> {
    rt.print(n)
}

// Writes points, with a comma before the last three digits.
pub fn say_points(rt: &impl Print, n: u64) -> io::Result<()> {
    if n < 1000 {
        return say_number(rt, n);
    }
    say_number(rt, n / 1000)?;
    say_byte(rt, b',')?;
    say_number(rt, n / 100 % 10)?;
    say_number(rt, n / 10 % 10)?;
    say_number(rt, n % 10)
}

// Writes a comma before each entry of a list but the first.
pub fn say_comma(rt: &impl Print, first: bool) -> io::Result<()> {
    if !first {
        say(rt, b", ")?;
    }
    Ok(())
}

// Writes that a list is empty.
pub fn say_none(rt: &impl Print, empty: bool) -> io::Result<()> {
    if empty {
        say(rt, b"none")?;
    }
    Ok(())
}

// Writes bytes that came from outside: one that cannot be printed as a question mark.
pub fn say_plain(rt: &impl Print, b: &[u8]) -> io::Result<()> {
    for c in b {
        match c {
            b' '..=b'~' => say_byte(rt, *c)?,
            _ => say_byte(rt, b'?')?,
        }
    }
    Ok(())
}
