//! The decimal texts of the numbers below 1,000, or of fewer, made once for each text that is printed.

ghost use Rattle.std.specs.Prelude.{ℕ, ◌<◌, IfSome, length, slice_index_or};
ghost use Rattle.hq_certtext.specs.Rows.{IsRow};
ghost use Rattle.hq_certtext.specs.declared.rows.Row.{Row};

use std::alloc::{AllocError, Global};

/// How many numbers have a row at most.
const MOST: usize = 1000;

/// The text of a number behind a space, and its three digits, each in four bytes, since so many are copied at once.
#[derive(Clone, Copy)]
pub struct Row {
    pub word: [u8; 4],
    /// Three digits, and a byte that doesn't count.
    pub digits: [u8; 4],
    /// How many bytes of the word the space and the text take.
    pub length: u8,
}

fn row_of(number: usize) -> Row
    requires { number < 1000 }
    ensures { IsRow number result }
{
    let hundreds = b'0' + (number / 100) as u8;
    let tens = b'0' + (number / 10 % 10) as u8;
    let ones = b'0' + (number % 10) as u8;
    let digits = [hundreds, tens, ones, b' '];
    if number < 10 {
        Row {
            word: [b' ', ones, b' ', b' '],
            digits,
            length: 2,
        }
    } else if number < 100 {
        Row {
            word: [b' ', tens, ones, b' '],
            digits,
            length: 3,
        }
    } else {
        Row {
            word: [b' ', hundreds, tens, ones],
            digits,
            length: 4,
        }
    }
}

/// A row for each number below some number, which is at most 1,000.
#[derive(Drop)]
pub struct Rows {
    rows: Vec<Row>,
    ghost all: { (n : ℕ) (d : Row) → n < length rows.items → IsRow n (slice_index_or rows.items n d) },
}

impl Rows {
    /// The rows of the numbers below `numbers` that are below 1,000.
    pub fn new(alloc: Global, numbers: usize) -> Result<Rows, AllocError> {
        let count = numbers.min(MOST);
        let mut rows = Vec::with_capacity(alloc, count)?;
        for number in 0..count {
            rows.push(row_of(number))?;
        }
        Ok(Rows { rows })
    }

    /// The row of a number, where it has one.
    #[inline(always)]
    pub fn row(&self, number: usize) -> Option<&Row>
        ensures { IfSome result (λ row. IsRow number row.now) }
    {
        self.rows.get(number)
    }
}
