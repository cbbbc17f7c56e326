//! The instructions of some code.

ghost use Rattle.std.specs.Prelude.{◌≡◌, ◌<◌, ◌↔◌, length, IsTrue, IsSome};
ghost use Rattle.opcode_rows.specs.Allowed.{is_well_formed};
ghost use Rattle.move_goals.specs.Items.{ArePlaced};
ghost use Rattle.code_items.specs.Sound.{are_formed};

use move_goals::Placed;
use std::marker::Model;
use x86_values::{Bits, Instr};

/// A decoded instruction of some code, with its address and length.
#[derive(Clone, Copy, PartialEq, Eq, Debug)]
pub struct CodeItem {
    /// The address of its first byte.
    pub ip: u64,
    /// How many bytes it has, 1 to 15.
    pub len: u8,
    /// The instruction.
    pub instr: Instr,
    ghost formed: { IsTrue (is_well_formed instr) },
}

/// The decoded instructions of some code, in order. Every byte of the code belongs to one of them.
#[derive(Drop)]
pub struct CodeItems {
    pub(crate) bits: Bits,
    pub(crate) placed: Vec<Placed>,
}

impl Model for CodeItems {
    ghost use Rattle.code_items.specs.Sound.{ItemList, AreSound};

    ghost Value = { ItemList };

    ghost view = { λ c. record { bits = c.bits; items = c.placed.items } };

    ghost invariant = { λ c. AreSound c.bits c.placed.items };
}

impl CodeItems {
    /// Returns the mode in which the code was decoded.
    pub fn bits(&self) -> Bits
        ensures { result ≡ self.now.bits }
    {
        self.bits
    }

    /// Returns the number of instructions.
    pub fn len(&self) -> usize
        ensures { result ≡ length self.now.items }
    {
        self.placed.len()
    }

    /// Returns whether there are no instructions.
    pub fn is_empty(&self) -> bool
        ensures { IsTrue result ↔ (length self.now.items ≡ 0) }
    {
        self.placed.is_empty()
    }

    /// Returns the instructions in the form that `move_blocks` takes. Each was decoded at its address.
    pub fn placed(&self) -> &[Placed]
        ensures items { result.now ≡ self.now.items }
        ensures placed { ArePlaced self.now.bits result.now }
        ensures formed { IsTrue (are_formed result.now) }
    {
        &self.placed
    }

    /// Returns an iterator over the instructions in order.
    pub fn iter(&self) -> CodeIter<'_>
        ensures { result.items.now ≡ self.now.items }
    {
        CodeIter {
            items: &self.placed,
        }
    }
}

/// The instructions that an iteration has not yet returned.
#[derive(Clone, Copy, Debug)]
pub struct CodeIter<'a> {
    items: &'a [Placed],
    ghost formed: { IsTrue (are_formed items.now) },
}

impl<'a> Iterator for CodeIter<'a> {
    ghost use Rattle.std.specs.Prelude.{length};
    ghost use Rattle.std.specs.Iterator.{at_most};
    ghost use Rattle.code_items.specs.Iteration.{GivesCodeItem};

    type Item = CodeItem;

    ghost next_gives = { GivesCodeItem };

    ghost remaining = { λ s. at_most (length s.items.now) };

    /// The next instruction.
    fn next(&mut self) -> Option<CodeItem> {
        let (first, rest) = self.items.split_first()?;
        self.items = rest;
        Some(CodeItem {
            ip: first.ip,
            len: first.len,
            instr: first.instr,
        })
    }
}
