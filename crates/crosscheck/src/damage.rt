// Damaged files.
use crate::dice::Dice;
use netfile::BODY_LENGTHS;
use std::alloc::{AllocError, Global};
use std::ops::Range;

// The bytes of a part, as far as the file has them.
fn bytes_of<'a>(file: &'a [u8], part: &Range<usize>) -> &'a [u8] {
    let end = part.end.min(file.len());
    &file[part.start.min(end)..end]
}

// The file with other bytes in the place of a part.
fn spliced(
    heap: Global,
    file: &[u8],
    part: &Range<usize>,
    bytes: &[u8],
) -> Result<Vec<u8>, AllocError> {
    let mut damaged = Vec::new(heap);
    damaged.extend_from_slice(bytes_of(file, &(0..part.start)))?;
    damaged.extend_from_slice(bytes)?;
    damaged.extend_from_slice(bytes_of(file, &(part.end..file.len())))?;
    Ok(damaged)
}

// The records of a file.
fn records_of(heap: Global, file: &[u8]) -> Result<Vec<Range<usize>>, AllocError> {
    let mut records = Vec::new(heap);
    let mut next = 0usize;
    for (at, kind) in file.iter().enumerate() {
        if at == next {
            let body = BODY_LENGTHS.get(usize::from(*kind)).copied().unwrap_or(0);
            next = at.saturating_add(1).saturating_add(body);
            records.push(at..next)?;
        }
    }
    Ok(records)
}

fn random_place(dice: &mut Dice, length: usize) -> usize {
    let most = u32::try_from(length).unwrap_or(0);
    dice.between(0, most.saturating_sub(1)) as usize
}

fn random_record<'a>(dice: &mut Dice, records: &'a [Range<usize>]) -> &'a Range<usize> {
    let place = random_place(dice, records.len());
    records.get(place).unwrap_or(&(0..0))
}

// The file with two of its records in each other's place.
fn swapped(
    heap: Global,
    file: &[u8],
    one: &Range<usize>,
    other: &Range<usize>,
) -> Result<Vec<u8>, AllocError> {
    let (low, high) = if one.start < other.start {
        (one, other)
    } else {
        (other, one)
    };
    let moved = spliced(heap, file, high, bytes_of(file, low))?;
    spliced(heap, moved.as_slice(), low, bytes_of(file, high))
}

fn random_number(dice: &mut Dice) -> u32 {
    match dice.between(1, 5) {
        1 => 0,
        2 => 10_000,
        3 => 10_001,
        4 => 1_000_000,
        _ => 1_000_001,
    }
}

// Records swapped, repeated, left out, or with another number at their end.
fn damage_records(heap: Global, dice: &mut Dice, file: &[u8]) -> Result<Vec<u8>, AllocError> {
    let records = records_of(heap, file)?;
    let one = random_record(dice, records.as_slice());
    let other = random_record(dice, records.as_slice());
    match dice.between(1, 4) {
        1 => swapped(heap, file, one, other),
        2 => spliced(heap, file, &(other.start..other.start), bytes_of(file, one)),
        3 => spliced(heap, file, one, &[]),
        _ => {
            let number = random_number(dice).to_be_bytes();
            spliced(heap, file, &(one.end.saturating_sub(4)..one.end), &number)
        }
    }
}

// A bit or a byte changed, put in or left out, or the end cut off or put on.
fn damage_bytes(heap: Global, dice: &mut Dice, file: &[u8]) -> Result<Vec<u8>, AllocError> {
    let at = random_place(dice, file.len());
    let next = at.saturating_add(1);
    let byte = if dice.once_in(2) {
        dice.byte(0, 8)
    } else {
        dice.byte(0, 255)
    };
    match dice.between(1, 6) {
        1 => {
            let old = file.get(at).copied().unwrap_or(0);
            let bit = 1u8.wrapping_shl(dice.between(0, 7));
            spliced(heap, file, &(at..next), &[old ^ bit])
        }
        2 => spliced(heap, file, &(at..next), &[byte]),
        3 => spliced(heap, file, &(at..at), &[byte]),
        4 => spliced(heap, file, &(at..next), &[]),
        5 => spliced(heap, file, &(at..file.len()), &[]),
        _ => spliced(heap, file, &(file.len()..file.len()), &[byte]),
    }
}

// The file with one to three kinds of damage.
pub fn damaged(heap: Global, dice: &mut Dice, file: &[u8]) -> Result<Vec<u8>, AllocError> {
    let mut damaged = file.to_vec(heap)?;
    for _time in 0..dice.between(1, 3) {
        damaged = if dice.once_in(2) {
            damage_records(heap, dice, damaged.as_slice())?
        } else {
            damage_bytes(heap, dice, damaged.as_slice())?
        };
    }
    Ok(damaged)
}
