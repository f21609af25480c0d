// What the engine reports of a file, and what the second implementation does.
use crate::both::answered;
use crate::damage::damaged;
use crate::dice::Dice;
use crate::engine::clearing_text;
use crate::shapes::{Scale, each_network};
use crate::tally::Tally;
use second::clear;
use std::alloc::{AllocError, Global};

// The text that clear is to print, and the status that it is to end with.
fn expected_text(heap: Global, file: &[u8]) -> Result<String, AllocError> {
    match answered(clear(heap, file))? {
        Ok(text) => format!(in heap; "{text}status 0\n"),
        Err(halt) => format!(in heap; "{halt}\nstatus 1\n"),
    }
}

pub fn compare_clearing(tally: &mut Tally, file: &[u8]) {
    let engine = clearing_text(tally.heap, file);
    let expected = expected_text(tally.heap, file);
    tally.compare(file, engine, expected);
}

// The same of a file that there may have been no memory for.
pub fn compare_made(tally: &mut Tally, file: Result<Vec<u8>, AllocError>) {
    match file {
        Ok(file) => compare_clearing(tally, file.as_slice()),
        Err(_) => tally.lose(),
    }
}

// One network in 20 has few members with large claims.
fn random_scale(dice: &mut Dice) -> Scale {
    if dice.once_in(20) {
        Scale {
            n: dice.byte(2, 4),
            richest: 20_000,
            largest: 10_000,
        }
    } else {
        Scale::random(dice)
    }
}

pub fn compare_networks(dice: &mut Dice, tally: &mut Tally, count: u32) -> Result<(), AllocError> {
    each_network(tally.heap, dice, count, random_scale, |_, file| {
        compare_made(tally, file);
        Ok(())
    })
}

// A file damaged in ten ways.
fn compare_ten(dice: &mut Dice, tally: &mut Tally, file: &[u8]) {
    for _way in 0..10u32 {
        let file = damaged(tally.heap, dice, file);
        compare_made(tally, file);
    }
}

// Small files, each damaged in ten ways.
pub fn compare_damaged(dice: &mut Dice, tally: &mut Tally, count: u32) -> Result<(), AllocError> {
    let scale = |dice: &mut Dice| Scale {
        n: dice.byte(1, 5),
        richest: 30,
        largest: 20,
    };
    each_network(tally.heap, dice, count / 10, scale, |dice, file| {
        match file {
            Ok(file) => compare_ten(dice, tally, file.as_slice()),
            Err(_) => tally.lose(),
        }
        Ok(())
    })
}
