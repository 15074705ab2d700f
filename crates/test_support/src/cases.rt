//! The numbers of a case. A number is a run of digits, and what is no digit only separates numbers,
//! but for the word `of`: `3 of 8` is 8, three times. Hexadecimal digits above 9 are capital
//! letters.

ghost use Rattle.std.specs.Prelude.{◌≡◌, ◌==◌, ◌≤◌, IfOk, length, slice_index, vec_len};
ghost use Rattle.std.specs.List.{after_first, before_first};
ghost use Rattle.shape.specs.declared.Shape.{Shape};

use shape::Shape;
use std::alloc::{AllocError, Global};

/// Numbers that are taken of a text at most.
pub const MOST_NUMBERS: usize = 8200;

/// Base of decimal digits.
pub const DECIMAL: u32 = 10;

/// Base of hexadecimal digits.
pub const HEXADECIMAL: u32 = 16;

// The value of a digit. Of the letters only capital ones are digits.
fn digit(byte: u8, base: u32) -> Option<u32> {
    let digit = match byte {
        b'0'..=b'9' => byte - b'0',
        b'A'..=b'F' => byte - b'A' + 10,
        _ => return None,
    };
    Some(u32::from(digit)).filter(|digit| *digit < base)
}

// Lays a number behind those that are laid, so many times, as far as there is room; how many are
// laid then.
fn lay(numbers: &mut [u32], count: usize, times: usize, number: u32) -> usize
    requires { count ≤ length numbers.old }
    ensures { result ≤ length numbers.new }
{
    let end = numbers.len().min(count.saturating_add(times));
    numbers[count..end].fill(number);
    end
}

/// Lays the numbers of a text at the start of lent memory, as far as there is room; how many are
/// laid.
///
/// The letter `f` of `of` takes the last number back, which stays in memory until another is laid
/// over it. What is not laid stays as it was: in a memory of zeros, 0 stands for a missing number.
/// A number of more than 32 bits is the largest `u32`.
pub fn numbers(text: &[u8], base: u32, numbers: &mut [u32]) -> usize
    ensures { result ≤ length numbers.new }
{
    let mut count = 0;
    let mut times = 1;
    // The number of the digits just read, where there are any.
    let mut number = None;
    for byte in text {
        if let Some(digit) = digit(*byte, base) {
            let n: u32 = number.unwrap_or(0);
            number = Some(n.saturating_mul(base).saturating_add(digit));
            continue;
        }
        if let Some(n) = number.take() {
            count = lay(numbers, count, times, n);
            times = 1;
        }
        if *byte == b'f' && count > 0 {
            count -= 1;
            times = numbers[count] as usize;
        }
    }
    match number {
        Some(n) => lay(numbers, count, times, n),
        None => count,
    }
}

// Stores the first numbers of a text, each converted, as far as there is room; how many are stored.
fn store_converted<T: Copy, F: Fn(u32) -> T>(
    text: &[u8],
    base: u32,
    memory: &mut [T],
    convert: F,
) -> usize
    requires { (state : F) (x : _) → F.pre state x }
    ensures { result ≤ length memory.new }
{
    let mut laid = [0; MOST_NUMBERS];
    let count = numbers(text, base, &mut laid).min(memory.len());
    for (place, n) in memory.iter_mut().zip(&laid[..count]) {
        *place = convert(*n);
    }
    count
}

/// Stores the decimal numbers of a text at the start of lent memory, each modulo 65,536, as far as
/// there is room; how many are stored.
pub fn store_readings(text: &[u8], memory: &mut [u16]) -> usize
    ensures { result ≤ length memory.new }
{
    store_converted(text, DECIMAL, memory, |n| (n % 65536) as u16)
}

/// Stores the hexadecimal numbers of a text at the start of lent memory, each modulo 256, as far as
/// there is room; how many are stored.
pub fn store_bytes(text: &[u8], memory: &mut [u8]) -> usize
    ensures { result ≤ length memory.new }
{
    store_converted(text, HEXADECIMAL, memory, |n| (n % 256) as u8)
}

/// The first `most` decimal numbers of a text, each modulo 65,536.
pub fn readings(alloc: Global, text: &[u8], most: usize) -> Result<Vec<u16>, AllocError>
    ensures { IfOk result (λ readings. vec_len readings ≤ most) }
{
    let mut readings = vec![in alloc; 0; most.min(MOST_NUMBERS)]?;
    let count = store_readings(text, &mut readings);
    readings.truncate(count);
    Ok(readings)
}

/// The first `most` hexadecimal numbers of a text, each modulo 256.
pub fn bytes(alloc: Global, text: &[u8], most: usize) -> Result<Vec<u8>, AllocError>
    ensures { IfOk result (λ bytes. vec_len bytes ≤ most) }
{
    let mut bytes = vec![in alloc; 0; most.min(MOST_NUMBERS)]?;
    let count = store_bytes(text, &mut bytes);
    bytes.truncate(count);
    Ok(bytes)
}

/// A text up to the first of a byte, and what follows it; all of it and nothing, if it lacks the
/// byte.
pub fn split_once(text: &[u8], byte: u8) -> (&[u8], &[u8])
    ensures head { result.0.now ≡ before_first (λ x. x == byte) text.now }
    ensures tail { result.1.now ≡ after_first (λ x. x == byte) text.now }
{
    match text.iter().position(|x| *x == byte) {
        Some(at) => (&text[..at], &text[at + 1..]),
        None => (text, &[]),
    }
}

/// The number at a place of a list; 0 past its end.
pub fn nth(numbers: &[u16], k: usize) -> u16
    ensures { result ≡ slice_index numbers.now k }
{
    numbers.get(k).copied().unwrap_or(0)
}

/// The shape of the first five numbers: cycle, rows, columns and the sides of the mask; 0 for a
/// missing one.
pub fn shape(sizes: &[u32]) -> Shape
    ensures { result ≡ record {
      cycle = slice_index sizes.now 0;
      rows = slice_index sizes.now 1;
      columns = slice_index sizes.now 2;
      mask_rows = slice_index sizes.now 3;
      mask_columns = slice_index sizes.now 4;
    } }
{
    let size = |k: usize| sizes.get(k).copied().unwrap_or(0);
    Shape {
        cycle: size(0),
        rows: size(1),
        columns: size(2),
        mask_rows: size(3),
        mask_columns: size(4),
    }
}
