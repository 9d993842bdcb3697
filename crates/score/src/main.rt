// For referees, and for a first look: every reading of a finished hand with its waits, yaku, fu, han, level and payment, and the answer
// of scoring the win. The words stand in its arguments; without any it writes how to use it. Nothing is said about unfinished hands.
// The exit status says only whether all of it could be written: the last line says how it ended. Whatever the arguments are, it begins
// with 'answer: reading', 'answer: refused', 'bad input' or 'help'.
#![tactic(auto)]

mod answer;
mod calls;
mod faults;
mod flags;
mod hand_line;
mod readings;
mod usage;

use notation::faults::{Fault, Misread, Stop};
use notation::said::Said;
use printed::text;
use std::env::{Env, FillError};
use std::io;

// How many arguments there are, the program's own name among them.
fn arg_count(rt: &impl Env) -> usize {
    for i in 0..usize::MAX {
        if let Err(FillError::NotPresent) = rt.arg(i, &mut []) {
            return i;
        }
    }
    usize::MAX
}

// Takes the argument with a number. One that is empty says nothing.
fn take_argument(rt: &impl Env, said: Said, i: usize) -> Result<Said, Stop> {
    let mut argument = [0u8; 512];
    match rt.arg(i, &mut argument) {
        Ok(n) => said.take(&argument[..n]),
        Err(FillError::TooLong) => Err(Stop::from(Misread::of_all(Fault::TooLong))),
        Err(FillError::NotPresent) => Ok(said),
    }
}

// Takes all arguments. Where they cannot be taken, the number of the argument at fault stands beside the reason.
fn take_arguments(rt: &impl Env, count: usize) -> Result<Said, (usize, Stop)> {
    let mut said = Said::nothing();
    let mut last = 0;
    for i in 1..count {
        said = take_argument(rt, said, i).map_err(|stop| (i, stop))?;
        last = i;
    }
    said.finished().map_err(|stop| (last, stop))
}

// Writes all there is to say about a finished hand.
fn show(rt: &impl Print, s: Said) -> io::Result<()> {
    let counts = s.counts;
    let k = s.seated();
    let v = s.game();
    let w = s.win();
    let scored = win::score_win_in(&counts, k, w, v);
    let number = scored.number;
    hand_line::say_hand(rt, s)?;
    flags::say_notes(rt, w, win::is_opened(k))?;
    if (number == 0) | (number == 11) {
        readings::say_all(rt, &counts, k, w, v, scored)?;
    }
    if number != 0 {
        return answer::say_refused(rt, number, &counts, k, w, v);
    }
    answer::say_answer(rt, scored, v)
}

// Takes the words and writes the readings and the answer, or what is wrong with the words.
fn main(rt: HostRuntime) -> io::Result<()> {
    let count = arg_count(&rt);
    if count < 2 {
        usage::say_usage(&rt)?;
        return text::say(
            &rt,
            b"bad input: no hand: type its tiles, then ron or tsumo and the winning tile\n",
        );
    }
    match take_arguments(&rt, count) {
        Ok(said) => show(&rt, said),
        Err((_, Stop::Help)) => {
            usage::say_usage(&rt)?;
            text::say(&rt, b"help: nothing was scored\n")
        }
        Err((argument, Stop::Misread(misread))) => faults::say_bad_input(&rt, argument, misread),
    }
}
