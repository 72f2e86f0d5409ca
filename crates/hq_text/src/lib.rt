//! What every text of the project is made of: lines, words, numbers and names, and how a text is taken from a
//! reader, whole or line by line.
#![tactic(auto)]

mod ahead;
mod intake;
mod name;
mod number;
mod take;
mod words;

pub use ahead::{digits_ahead, ended_number, more_digits_ahead, number_ahead, with_digit};
pub use intake::{ReadFault, TakesLines, read_lines, whole_lines};
pub use name::Name;
pub use number::number_of;
pub use take::{Came, Source, TURN_LEN, TURNS, TextFault, pass_over, read_on, take_text};
pub use words::{first_line, line_end, lines_of, words_of};
