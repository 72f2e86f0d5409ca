//! Certificates to texts, one line behind another.

ghost use Rattle.std.specs.Prelude.{ℕ, ◌++◌, IfOk, List, OnOk, Option, codes};
ghost use Rattle.std.specs.Io.KnownBytes.{Appends};
ghost use Rattle.hq_text.specs.Printed.{line_text};
ghost use Rattle.hq_certtext.specs.Grammar.{line_words, pair_words, head_words, order_words};
ghost use Rattle.hq_certtext.specs.Printing.{IsReady, IsEmpty, HasPrinted, Prints};
ghost use Rattle.hq_cert.specs.View.{line_of, pair_of};

use crate::printing::{
    WriterFailed, spill, taken, write_end, write_line, write_order, write_pair, write_through,
};
use crate::rows::Rows;
use hq_cert::{Line, Pair};
use std::alloc::{AllocError, Global};
use std::io::Write;

/// Prints a certificate whose lines come one by one: `begin`, then `line` for each line and `pair` for each pair line,
/// then `end`. What is printed goes to a writer by way of a buffer. Some of the lines may be printed elsewhere, by a
/// printer that `give`s their text, and go on from here as a `text`.
#[derive(Drop)]
pub struct Printer {
    bytes: Vec<u8>,
    rows: Rows,
    at: usize,
}

impl Printer {
    /// A printer, with all memory that it takes, which goes by how many packets and lines the certificate is to have.
    /// It prints others, too, in more time.
    ///
    /// # Errors
    ///
    /// `AllocError` where there is no memory.
    pub fn new(alloc: Global, packets: usize, lines: usize) -> Result<Printer, AllocError>
        ensures ready { IfOk result IsReady }
        ensures empty { IfOk result IsEmpty }
    {
        let (bytes, rows) = taken(alloc, packets, lines)?;
        Ok(Printer { bytes, rows, at: 0 })
    }

    /// Prints the first line, which says whether chained pair lines may come, and the order.
    ///
    /// # Errors
    ///
    /// `WriterFailed`, as in all that follows: then the printer is of no use any more.
    pub fn begin<W: Write>(
        &mut self,
        chained: bool,
        order: &[u32],
        writer: &mut W,
    ) -> Result<(), WriterFailed>
        requires ready { IsReady self.old }
        ensures ready { OnOk result (IsReady self.new) }
        ensures prints { OnOk result
            (Prints (W.contents writer.old) self.old (W.contents writer.new) self.new
            (line_text (head_words chained) ++ line_text (order_words order.now))) }
    {
        self.at = write_order(&mut self.bytes, self.at, &self.rows, chained, order, writer)?;
        Ok(())
    }

    /// Prints line k.
    ///
    /// # Errors
    ///
    /// `WriterFailed`.
    #[inline(always)]
    pub fn line<W: Write>(
        &mut self,
        k: usize,
        line: &Line,
        writer: &mut W,
    ) -> Result<(), WriterFailed>
        requires ready { IsReady self.old }
        ensures ready { OnOk result (IsReady self.new) }
        ensures prints { OnOk result
            (Prints (W.contents writer.old) self.old (W.contents writer.new) self.new
            (line_text (line_words k (line_of line.now)))) }
    {
        self.at = write_line(&mut self.bytes, self.at, &self.rows, k, line, writer)?;
        Ok(())
    }

    /// Prints one pair line.
    ///
    /// # Errors
    ///
    /// `WriterFailed`.
    #[inline(always)]
    pub fn pair<W: Write>(&mut self, pair: &Pair, writer: &mut W) -> Result<(), WriterFailed>
        requires ready { IsReady self.old }
        ensures ready { OnOk result (IsReady self.new) }
        ensures prints { OnOk result
            (Prints (W.contents writer.old) self.old (W.contents writer.new) self.new
            (line_text (pair_words (pair_of pair.now)))) }
    {
        self.at = write_pair(&mut self.bytes, self.at, &self.rows, pair, writer)?;
        Ok(())
    }

    /// Has a text go to the writer, behind all that was printed.
    ///
    /// # Errors
    ///
    /// `WriterFailed`.
    pub fn text<W: Write>(&mut self, text: &[u8], writer: &mut W) -> Result<(), WriterFailed>
        requires ready { IsReady self.old }
        ensures ready { OnOk result (IsReady self.new) }
        ensures prints { OnOk result
            (Prints (W.contents writer.old) self.old (W.contents writer.new) self.new text.now) }
    {
        self.at = write_through(&self.bytes, self.at, text, writer)?;
        Ok(())
    }

    /// Has all that was printed go to the writer.
    ///
    /// # Errors
    ///
    /// `WriterFailed`.
    pub fn give<W: Write>(self, writer: &mut W) -> Result<(), WriterFailed>
        requires ready { IsReady self }
        ensures { OnOk result
            ((w : Option (List ℕ)) (text : List ℕ) → HasPrinted w text (W.contents writer.old) self
            → Appends w (W.contents writer.new) text) }
    {
        spill(&self.bytes, self.at, writer)?;
        Ok(())
    }

    /// Prints the last line, and has all that was printed go to the writer.
    ///
    /// # Errors
    ///
    /// `WriterFailed`.
    pub fn end<W: Write>(mut self, writer: &mut W) -> Result<(), WriterFailed>
        requires ready { IsReady self }
        ensures { OnOk result
            ((w : Option (List ℕ)) (text : List ℕ) → HasPrinted w text (W.contents writer.old) self
            → Appends w (W.contents writer.new) (text ++ codes "end\n")) }
    {
        write_end(&mut self.bytes, self.at, writer)
    }
}
