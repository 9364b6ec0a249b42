// The bytes of the values.
ghost use Rattle.std.specs.Prelude.{◌≡◌, ◌+◌, ◌<◌, ◌≤◌, ◌++◌, [], length, IfOk, OnOk};
ghost use Rattle.std.specs.Char.{encode_utf8};
ghost use Rattle.std.specs.List.{prefix_len};
ghost use Rattle.std.specs.Option.{is_some};
ghost use Rattle.tree_model.specs.Rows.{value_at};
ghost use Rattle.tree_model.specs.XmlMeaning.{line_ends, spaced, entity_char, entity_value};
ghost use Rattle.xml_rows.specs.Values.{behind_break, is_line_byte, is_value_byte};

use crate::characters::entity_char;
use std::alloc::Global;
use std::marker::Model;
use tree_model::{NoMemory, ValueRef};
use value_heap::ValueHeap;

/// The bytes of values that are whole, and behind them those of a value that is being gathered.
#[derive(Drop)]
pub struct Values {
    heap: ValueHeap,
    from: u64,
}

impl Model for Values {
    ghost use Rattle.std.specs.Prelude.{◌≤◌, length, take, drop};
    ghost use Rattle.xml_rows.specs.Values.{Gathered};

    ghost Value = { Gathered };

    ghost view = { λ v. record { settled = take v.from v.heap; pending = drop v.from v.heap } };

    ghost invariant = { λ v. v.from ≤ length v.heap };
}

impl Values {
    /// No bytes. Takes no memory.
    pub fn new(alloc: Global) -> Values
        ensures settled { result.settled ≡ [] }
        ensures pending { result.pending ≡ [] }
    {
        Values {
            heap: ValueHeap::new(alloc),
            from: 0,
        }
    }

    /// More bytes of the value that is being gathered.
    pub fn add(&mut self, bytes: &[u8]) -> Result<(), NoMemory>
        ensures settled { self.new.settled ≡ self.old.settled }
        ensures pending { OnOk result (self.new.pending ≡ self.old.pending ++ bytes.now) }
    {
        self.heap.append(bytes)?;
        Ok(())
    }

    /// The bytes of a value that is whole, once more, as bytes of the one that is being gathered.
    pub fn add_copy(&mut self, val: ValueRef) -> Result<(), NoMemory>
        requires within { val.at + val.len ≤ length self.old.settled }
        ensures settled { self.new.settled ≡ self.old.settled }
        ensures pending { OnOk result (self.new.pending ≡ self.old.pending ++ value_at self.old.settled val) }
    {
        self.heap.append_copy(val)?;
        Ok(())
    }

    /// The bytes of the value that is being gathered.
    pub fn pending(&self) -> &[u8]
        ensures { result.now ≡ self.now.pending }
    {
        self.heap.get(ValueRef {
            at: self.from,
            len: self.heap.mark() - self.from,
        })
    }

    /// The gathered value is whole. Says where it lies.
    pub fn settle(&mut self) -> ValueRef
        ensures settled { self.new.settled ≡ self.old.settled ++ self.old.pending }
        ensures pending { self.new.pending ≡ [] }
        ensures at { result.at ≡ length self.old.settled }
        ensures len { result.len ≡ length self.old.pending }
    {
        let at = self.from;
        let len = self.heap.mark() - at;
        self.from = at + len;
        ValueRef { at, len }
    }

    /// The gathered value isn't kept.
    pub fn forget(&mut self)
        ensures settled { self.new.settled ≡ self.old.settled }
        ensures pending { self.new.pending ≡ [] }
    {
        self.heap.back_to(self.from);
    }

    /// The bytes of a value that is whole.
    pub fn get(&self, val: ValueRef) -> &[u8]
        requires within { val.at + val.len ≤ length self.now.settled }
        ensures { result.now ≡ value_at self.now.settled val }
    {
        self.heap.get(val)
    }

    /// All the bytes.
    pub fn into_heap(self) -> ValueHeap
        ensures { result ≡ self.settled ++ self.pending }
    {
        let Values { heap, from: _ } = self;
        heap
    }
}

// What is left behind the first byte, and behind an LF that follows a CR.
fn behind_break(bytes: &[u8]) -> &[u8]
    ensures rest { result.now ≡ behind_break bytes.now }
    ensures shorter { 0 < length bytes.now → length result.now < length bytes.now }
{
    match bytes {
        [b'\r', b'\n', rest @ ..] => rest,
        [_, rest @ ..] => rest,
        [] => bytes,
    }
}

fn line_len(bytes: &[u8]) -> usize
    ensures len { result ≡ prefix_len is_line_byte bytes.now }
    ensures within { result ≤ length bytes.now }
{
    let mut len = 0;
    while len < bytes.len() && bytes[len] != b'\r' {
        len += 1;
    }
    len
}

fn is_value_byte(byte: u8) -> bool
    ensures { result ≡ is_value_byte byte }
{
    !(byte == b'\t' || byte == b'\n' || byte == b'\r')
}

fn value_len(bytes: &[u8]) -> usize
    ensures len { result ≡ prefix_len is_value_byte bytes.now }
    ensures within { result ≤ length bytes.now }
{
    let mut len = 0;
    while len < bytes.len() && is_value_byte(bytes[len]) {
        len += 1;
    }
    len
}

impl Values {
    /// More text of the value that is being gathered. Each line ends in an LF.
    pub fn add_lines(&mut self, bytes: &[u8]) -> Result<(), NoMemory>
        ensures settled { OnOk result (self.new.settled ≡ self.old.settled) }
        ensures pending { OnOk result (self.new.pending ≡ self.old.pending ++ line_ends bytes.now) }
    {
        let mut rest = bytes;
        while !rest.is_empty() {
            let (line, behind) = rest.split_at(line_len(rest));
            self.add(line)?;
            if behind.is_empty() {
                return Ok(());
            }
            self.add(b"\n")?;
            rest = behind_break(behind);
        }
        Ok(())
    }

    /// More bytes of the value of an attribute, in which TAB, LF and CR are spaces.
    pub fn add_spaced(&mut self, bytes: &[u8]) -> Result<(), NoMemory>
        ensures settled { OnOk result (self.new.settled ≡ self.old.settled) }
        ensures pending { OnOk result (self.new.pending ≡ self.old.pending ++ spaced bytes.now) }
    {
        let mut rest = bytes;
        while !rest.is_empty() {
            let (plain, behind) = rest.split_at(value_len(rest));
            self.add(plain)?;
            if behind.is_empty() {
                return Ok(());
            }
            self.add(b" ")?;
            rest = behind_break(behind);
        }
        Ok(())
    }

    /// The character of an entity in the value that is being gathered, or its reference as it is written. Says whether the
    /// entity is known.
    #[tactic(auto, unfolding(tree_model::specs::XmlMeaning::entity_value))]
    pub fn add_entity(&mut self, name: &[u8]) -> Result<bool, NoMemory>
        ensures known { IfOk result (λ known. known ≡ is_some (entity_char name.now)) }
        ensures settled { OnOk result (self.new.settled ≡ self.old.settled) }
        ensures pending { OnOk result (self.new.pending ≡ self.old.pending ++ entity_value name.now) }
    {
        match entity_char(name) {
            Some(byte) => {
                self.add(&[byte])?;
                Ok(true)
            }
            None => {
                self.add(b"&")?;
                self.add(name)?;
                self.add(b";")?;
                Ok(false)
            }
        }
    }

    /// A character in the value that is being gathered.
    pub fn add_char(&mut self, code: char) -> Result<(), NoMemory>
        ensures settled { OnOk result (self.new.settled ≡ self.old.settled) }
        ensures pending { OnOk result (self.new.pending ≡ self.old.pending ++ encode_utf8 code) }
    {
        let mut bytes = [0; 4];
        self.add(code.encode_utf8(&mut bytes).as_bytes())
    }
}
