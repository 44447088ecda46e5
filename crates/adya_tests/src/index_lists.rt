//! Lists of numbers that take four bytes each while all of them fit: larger numbers stay too.

use adya_values::Indices;
use std::alloc::Global;

/// A small number, the largest one of 32 bits, the next one, another small one, and the largest of all.
const NUMBERS: [usize; 5] = [
    7,
    4_294_967_295,
    4_294_967_296,
    0,
    18_446_744_073_709_551_615,
];

/// Returns the cases, each with its name.
pub(crate) fn cases(alloc: Global) -> [(&'static str, bool); 3] {
    [
        ("pushed_numbers_stay", are_pushed(alloc).unwrap_or(false)),
        ("put_numbers_stay", are_put(alloc).unwrap_or(false)),
        (
            "numbers_stay_where_room_is_made",
            are_kept(alloc).unwrap_or(false),
        ),
    ]
}

/// Whether the list has these numbers and no others.
pub(crate) fn has(numbers: &Indices, wanted: &[usize]) -> bool {
    if numbers.len() != wanted.len() {
        return false;
    }
    for i in 0..wanted.len() {
        if numbers.at(i) != wanted[i] {
            return false;
        }
    }
    numbers.get(wanted.len()).is_none()
}

/// Whether a list has what was pushed, and a copy of it too.
fn are_pushed(alloc: Global) -> Option<bool> {
    let mut numbers = Indices::new(alloc);
    for number in &NUMBERS {
        numbers.push(*number).ok()?;
    }
    let copied = numbers.copy(alloc).ok()?;
    Some(has(&numbers, &NUMBERS) && has(&copied, &NUMBERS))
}

fn are_put(alloc: Global) -> Option<bool> {
    let mut numbers = Indices::with_capacity(alloc, 3).ok()?;
    numbers.add_zeros(3).ok()?;
    numbers.set(alloc, 0, 4_294_967_295).ok()?;
    numbers.set(alloc, 1, 4_294_967_296).ok()?;
    Some(has(&numbers, &[4_294_967_295, 4_294_967_296, 0]) && !numbers.none_is_zero(0, 3))
}

/// Whether the numbers stay if room is made for larger ones.
fn are_kept(alloc: Global) -> Option<bool> {
    let mut numbers = Indices::new(alloc);
    numbers.push(4_294_967_295).ok()?;
    numbers.reserve(2, 4_294_967_296).ok()?;
    numbers.push(4_294_967_296).ok()?;
    Some(has(&numbers, &[4_294_967_295, 4_294_967_296]))
}
