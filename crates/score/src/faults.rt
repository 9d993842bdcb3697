// What is written for each fault of the words, in the words of a referee, with what to type instead.
use notation::faults::{Fault, Misread};
use printed::text;
use std::env::Env;
use std::io;

// What a fault in tiles means, after the word at fault.
fn meaning_in_tiles(fault: tile_words::Fault) -> &'static [u8] {
    match fault {
        tile_words::Fault::NoLetter =>
            b"which is no suit: m, p, s or z follows numbers (honors: 1z to 7z, or e s w n wh g r)",
        tile_words::Fault::NoSuit =>
            b"has numbers without a suit: m, p, s or z belongs behind them, as in 123m",
        tile_words::Fault::BareSuit =>
            b"has a suit without numbers before it: numbers come first, as in 123m",
        tile_words::Fault::NoHonor =>
            b"has an honor that is none: 1z to 7z are East, South, West, North, White, Green, Red",
        tile_words::Fault::RedFive =>
            b"has a red five: none is counted, so the han would be too few; write 5 for 0, and add a han for each in the hand",
    }
}

// What a fault means, after the word at fault.
fn meaning(fault: Fault) -> &'static [u8] {
    match fault {
        Fault::Tiles(fault) => meaning_in_tiles(fault),
        Fault::Unknown => b"is not a known word; 'score help' lists them",
        Fault::NoChi => b"is no chi: three tiles in a row of one suit, as in chi 123m",
        Fault::NoPon => b"is no pon: three tiles alike, as in pon 111m",
        Fault::NoKan => b"is no kan: four tiles alike, as in kan 1111m",
        Fault::NoOpenCall =>
            b"is no open call: three in a row, three alike or four alike, as in (123m) (111m) (1111m)",
        Fault::NoClosedKan =>
            b"is no closed kan: four alike, as in [1111m]; other closed melds stand in the hand",
        Fault::Unclosed => b"has a bracket that is not closed",
        Fault::Loose => b"is a closing bracket that nothing opens",
        Fault::OneTile => b"is not one tile: the winning tile is one, as in ron 8s",
        Fault::TwoWins => b"is a second winning tile: ron or tsumo is said once",
        Fault::NoWind => b"is no wind: east, south, west or north, or e, s, w, n",
        Fault::Twice =>
            b"is said twice: there is one game, round wind, seat wind and double wind setting, and one player for each call",
        Fault::TooLong => b"is longer than 512 letters",
        Fault::Unfinished =>
            b"is the last word, and another belongs behind it, as in ron 8s, chi 123m, seat east",
        Fault::NoWin => b"no winning tile: say ron or tsumo, then the tile, as in ron 8s",
        Fault::NoRiichi => b"is not riichi: double is said as double riichi",
        Fault::HaiteiRon => b"haitei is the last tile by tsumo; the last discard by ron is houtei",
        Fault::HouteiTsumo =>
            b"houtei is the last discard by ron; the last tile by tsumo is haitei",
        Fault::TooMany => b"makes more than 136 tiles, and there are no more",
        Fault::NoCallBefore =>
            b"says who a call came from, and there is no call before it: it stands behind one, as in pon 111m across",
        Fault::NoSeat =>
            b"cannot be: a chi is called from the left alone, a closed kan from nobody",
        Fault::NoAcross =>
            b"with three players nobody sits across: a call comes from the left or from the right",
    }
}

// Writes a part of the word that was found at fault, in quotes.
fn say_part(rt: &impl Print, word: &[u8], from: usize, end: usize) -> io::Result<()> {
    let Some(part) = word.get(from..end) else {
        return Ok(());
    };
    text::say_byte(rt, b'\'')?;
    text::say_plain(rt, part)?;
    text::say_byte(rt, b'\'')
}

// Writes the character at a place of the word, in quotes.
fn say_letter(rt: &impl Print, word: &[u8], at: usize) -> io::Result<()> {
    let Some(letter) = word.get(at) else {
        return Ok(());
    };
    text::say_byte(rt, b'\'')?;
    text::say_plain(rt, &[*letter])?;
    text::say_byte(rt, b'\'')
}

// Writes the word that was found at fault in an argument, and of a letter that names nothing that letter.
fn say_word(rt: &(impl Env + Print), argument: usize, misread: Misread) -> io::Result<()> {
    let mut word = [0u8; 512];
    let n = rt.arg(argument, &mut word).unwrap_or(0);
    say_part(rt, &word[..n], misread.from, misread.end)?;
    text::say_byte(rt, b' ')?;
    if misread.fault == Fault::Tiles(tile_words::Fault::NoLetter) {
        text::say(rt, b"has ")?;
        say_letter(rt, &word[..n], misread.at)?;
        text::say(rt, b", ")?;
    }
    Ok(())
}

// Writes what is wrong with the words: which argument is at fault, by its number, and why.
pub fn say_bad_input(rt: &(impl Env + Print), argument: usize, misread: Misread) -> io::Result<()> {
    text::say(rt, b"bad input: ")?;
    match misread.fault {
        Fault::TooLong => {
            text::say(rt, b"word ")?;
            text::say_number(rt, argument as u64)?;
            text::say_byte(rt, b' ')?;
        }
        // faults of all words together
        Fault::NoWin | Fault::NoAcross | Fault::HaiteiRon | Fault::HouteiTsumo => {}
        _ => say_word(rt, argument, misread)?,
    }
    text::say(rt, meaning(misread.fault))?;
    text::say(rt, b"\n")
}
