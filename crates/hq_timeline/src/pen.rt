//! Words, numbers and lines put behind one another.

ghost use Rattle.std.specs.Prelude.{◌≡◌, ◌∷◌, [], ◌++◌, OnOk, IfOk};
ghost use Rattle.std.specs.Fmt.{decimal};
ghost use Rattle.hq_timeline.specs.Grammar.{EventFits, event_words, head_words, end_words};
ghost use Rattle.hq_text.specs.Printed.{line_text};

use hq_machine::Event;
use std::alloc::{AllocError, Global};

/// The bytes that were put.
#[derive(Drop)]
pub struct Pen {
    bytes: Vec<u8>,
}

impl Pen {
    /// With room for so many bytes.
    pub fn new(alloc: Global, room: usize) -> Result<Pen, AllocError>
        ensures { IfOk result (λ pen. pen.bytes.items ≡ []) }
    {
        Ok(Pen {
            bytes: Vec::with_capacity(alloc, room)?,
        })
    }

    pub fn bytes(&self) -> &[u8]
        ensures { result.now ≡ self.now.bytes.items }
    {
        &self.bytes
    }

    pub fn clear(&mut self)
        ensures { self.new.bytes.items ≡ [] }
    {
        self.bytes.clear();
    }

    fn put(&mut self, text: &[u8]) -> Result<(), AllocError>
        ensures { OnOk result (self.new.bytes.items ≡ self.old.bytes.items ++ text.now) }
    {
        self.bytes.extend_from_slice(text)
    }

    /// A number behind a space.
    fn put_number(&mut self, number: u32) -> Result<(), AllocError>
        ensures { OnOk result (self.new.bytes.items ≡ self.old.bytes.items ++ 32 ∷ decimal number) }
    {
        let mut digits = itoa::Buffer::new();
        self.put(b" ")?;
        self.put(digits.format(number).as_bytes())
    }

    /// A line of one word.
    fn put_plain(&mut self, name: &[u8]) -> Result<(), AllocError>
        ensures { OnOk result (self.new.bytes.items ≡ self.old.bytes.items ++ line_text (name.now ∷ [])) }
    {
        self.put(name)?;
        self.put(b"\n")
    }

    /// A line of a word and a number.
    fn put_one(&mut self, name: &[u8], a: u32) -> Result<(), AllocError>
        ensures { OnOk result (self.new.bytes.items ≡ self.old.bytes.items ++ line_text (name.now ∷ decimal a ∷ [])) }
    {
        self.put(name)?;
        self.put_number(a)?;
        self.put(b"\n")
    }

    /// A line of a word and two numbers.
    fn put_two(&mut self, name: &[u8], a: u32, b: u32) -> Result<(), AllocError>
        ensures { OnOk result
            (self.new.bytes.items ≡ self.old.bytes.items ++ line_text (name.now ∷ decimal a ∷ decimal b ∷ [])) }
    {
        self.put(name)?;
        self.put_number(a)?;
        self.put_number(b)?;
        self.put(b"\n")
    }

    /// The line of an event, whose numbers have 32 bits.
    pub fn put_event(&mut self, event: Event) -> Result<(), AllocError>
        ensures fits { EventFits event }
        ensures put { OnOk result (self.new.bytes.items ≡ self.old.bytes.items ++ line_text (event_words event)) }
    {
        match event {
            Event::Submit => self.put_plain(b"submit"),
            Event::Launch { queue } => self.put_one(b"launch", queue),
            Event::Observe { packet, slot } => self.put_two(b"observe", packet, slot),
            Event::Enter { packet } => self.put_one(b"enter", packet),
            Event::Fetch { packet } => self.put_one(b"fetch", packet),
            Event::Deliver { packet } => self.put_one(b"deliver", packet),
            Event::Complete { packet } => self.put_one(b"complete", packet),
            Event::Rest => self.put_plain(b"rest"),
            Event::Read { packet, entry } => self.put_two(b"read", packet, entry),
            Event::Store { packet, entry } => self.put_two(b"store", packet, entry),
            Event::Finish { packet } => self.put_one(b"finish", packet),
            Event::PushLane { packet, byte } => self.put_two(b"pushlane", packet, byte),
            Event::PushAgent { agent, byte } => self.put_two(b"pushagent", agent, byte),
            Event::FillLane { packet, byte } => self.put_two(b"filllane", packet, byte),
            Event::FillAgent { agent, byte } => self.put_two(b"fillagent", agent, byte),
            Event::DropLane { packet, byte } => self.put_two(b"droplane", packet, byte),
            Event::DropAgent { agent, byte } => self.put_two(b"dropagent", agent, byte),
        }
    }

    /// The first line.
    pub fn put_head(&mut self) -> Result<(), AllocError>
        ensures { OnOk result (self.new.bytes.items ≡ self.old.bytes.items ++ line_text head_words) }
    {
        self.put(b"hsat 1\n")
    }

    /// The last line.
    pub fn put_end(&mut self) -> Result<(), AllocError>
        ensures { OnOk result (self.new.bytes.items ≡ self.old.bytes.items ++ line_text end_words) }
    {
        self.put(b"end\n")
    }
}
