//! The names of segments.

ghost use Rattle.std.specs.Prelude.{◌≡◌, ◌+◌, ◌*◌, ◌/◌, ◌%◌, ◌<◌, ◌↔◌, ℕ, Some};
ghost use Rattle.ssi_files.specs.Meaning.Names.{IsNumber, digits_of, ending_text, file_name};

use crate::number::SegmentNumber;

/// What the name of a segment ends in.
#[derive(Clone, Copy, Debug, PartialEq, Eq)]
pub enum Ending {
    /// `.log`: the segment is whole.
    Log,
    /// `.new`: it is being made.
    New,
}

impl Ending {
    fn text(self) -> [u8; 4]
        ensures { result ≡ ending_text self }
    {
        match self {
            Ending::Log => *b".log",
            Ending::New => *b".new",
        }
    }
}

/// Returns the name of the file of a segment: its number in eight digits, and then the ending.
pub fn file_name(number: SegmentNumber, ending: Ending) -> [u8; 12]
    ensures { result ≡ file_name number ending }
{
    let [a, b, c, d, e, f, g, h] = eight_digits(number.get());
    let [i, j, k, l] = ending.text();
    [a, b, c, d, e, f, g, h, i, j, k, l]
}

/// Returns the number of the segment whose file has this name and ending. `None` if and only if there is none.
pub fn number_of(name: &[u8], ending: Ending) -> Option<SegmentNumber>
    ensures { (n : ℕ) → IsNumber n → (result ≡ Some n ↔ (name.now ≡ file_name n ending)) }
{
    let [a, b, c, d, e, f, g, h, _, _, _, _] = name else {
        return None;
    };
    let number = SegmentNumber::new(number_read([*a, *b, *c, *d, *e, *f, *g, *h]))?;
    if name == file_name(number, ending).as_slice() {
        Some(number)
    } else {
        None
    }
}

fn digit(number: u32) -> u8
    ensures { result ≡ 48 + number % 10 }
{
    b'0' + (number % 10) as u8
}

fn eight_digits(number: u32) -> [u8; 8]
    ensures { result ≡ digits_of 8 number }
{
    let b = number / 10;
    let c = b / 10;
    let d = c / 10;
    let e = d / 10;
    let f = e / 10;
    let g = f / 10;
    let h = g / 10;
    [
        digit(h),
        digit(g),
        digit(f),
        digit(e),
        digit(d),
        digit(c),
        digit(b),
        digit(number),
    ]
}

/// The value of a digit. That of another byte is any below 10.
fn value(digit: u8) -> u32
    ensures least { result < 10 }
    ensures value { (d : ℕ) → d < 10 → digit ≡ 48 + d → result ≡ d }
{
    u32::from(digit.wrapping_sub(b'0')) % 10
}

/// The number that eight digits stand for.
fn number_read(digits: [u8; 8]) -> u32
    ensures least { result < 100_000_000 }
    ensures number { (n : ℕ) → n < 100_000_000 → digits ≡ digits_of 8 n → result ≡ n }
{
    let [a, b, c, d, e, f, g, h] = digits;
    let high = 1000 * value(a) + 100 * value(b) + 10 * value(c) + value(d);
    let low = 1000 * value(e) + 100 * value(f) + 10 * value(g) + value(h);
    10_000 * high + low
}
