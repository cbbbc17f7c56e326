//! Routines as they are put together.

ghost use Rattle.std.specs.Prelude.{◌≡◌, ◌⊎◌, ◌<◌, ◌≤◌, ◌+◌, ◌++◌, [], ◌∷◌, IfOk, IfErr, IfSome, MatchOption, OnOk, OnErr, Err, Some, None, length, map, replicate, vec_len, vec_capacity};
ghost use Rattle.x86_values.specs.declared.Bits.{Bits};
ghost use Rattle.code_assembler.specs.declared.error.BuildError.TheVariants.{Memory};
ghost use Rattle.code_assembler.specs.Routine.{no_lines};
ghost use Rattle.code_assembler.specs.Built as spec;
ghost use Rattle.code_assembler.specs.Built.{with_label, with_labels, with_place, with_item, with_bytes, label_refusal, labels_refusal, place_refusal, push_refusal, bytes_refusal, IsOpen};

use crate::assembled::place_of;
use crate::error::BuildError;
use crate::label::Label;
use crate::lists::{append, append_bytes, copy_of_ready, fill, fill_ready};
use crate::prepared::Prepared;
use crate::stand_in::stand_in;
use arrayvec::ArrayVec;
use move_goals::Placed;
use move_goals::moved_targets::{independent_bytes, target_of};
use std::alloc::{AllocError, Global};
use std::marker::Model;
use x86_values::{Bits, Instr, same_bits};

/// How many labels, and how many items, a routine has at most.
pub(crate) const MOST: usize = 65_536;

/// A routine: instructions, bytes of data and labels, in the order in which they are added. Each instruction and each byte of data is an item.
///
/// ```
/// // A loop that adds the numbers from ECX down to 1.
/// let mut routine = Assembler::new(rt.alloc(), Bits::B64);
/// let again = routine.label()?;
/// routine.push(&read_intel(Bits::B64, 0, b"xor eax, eax")?)?;
/// routine.place(again)?;
/// routine.push(&read_intel(Bits::B64, 0, b"add eax, ecx")?)?;
/// routine.push(&read_intel(Bits::B64, 0, b"dec ecx")?)?;
/// routine.push_to(&read_intel(Bits::B64, 0, b"jne 0x0")?, again)?;
/// routine.push(&read_intel(Bits::B64, 0, b"ret")?)?;
/// let made = routine.finish(rt.alloc(), 0x40_1000)?;
/// println!(rt; "{}", hex::encode(rt.alloc(), made.bytes())?)?; // 31c001c8ffc975fac3
/// println!(rt; "{:?}", made.address(again))?; // Some(4198402)
/// ```
#[derive(Drop)]
pub struct Assembler {
    pub(crate) bits: Bits,
    pub(crate) items: Vec<Placed>,
    pub(crate) aims: Vec<Option<u32>>,
    pub(crate) filled: Vec<Option<u8>>,
    pub(crate) labels: Vec<Option<u32>>,
    pub(crate) ready: Vec<ArrayVec<u8, 15>>,
}

impl Model for Assembler {
    ghost use Rattle.code_assembler.specs.Routine.{RoutineState, IsAssembler};

    ghost Value = { RoutineState };

    ghost view = { λ a. record { bits = a.bits; items = a.items.items; aims = a.aims.items; filled = a.filled.items; labels = a.labels.items } };

    ghost invariant = { λ a. IsAssembler (record { bits = a.bits; items = a.items.items; aims = a.aims.items; filled = a.filled.items; labels = a.labels.items })
        a.ready.items };
}

/// Why an instruction cannot go to a label, if that is so.
fn label_fault(labels: &[Option<u32>], instr: &Instr, aim: Option<u32>) -> Option<BuildError>
    ensures { result ≡ spec.label_fault labels.now instr.now aim }
{
    match aim {
        None => None,
        Some(label) => {
            if label as usize >= labels.len() {
                Some(BuildError::Unknown { label })
            } else if target_of(instr).is_none() {
                Some(BuildError::NoTarget)
            } else {
                None
            }
        }
    }
}

/// Why an instruction is not added to `count` others, whatever its encoding.
#[tactic(auto, using(std::proofs::lemmas::Bool::Decides::nat_tests), unfolding(crate::specs::Built::push_fault))]
fn fault_before(
    count: usize,
    labels: &[Option<u32>],
    instr: &Instr,
    aim: Option<u32>,
) -> Option<BuildError>
    ensures { MatchOption result (IsOpen count labels.now instr.now aim)
        (λ why. (bits : Bits) → spec.push_fault bits count labels.now instr.now aim ≡ Some why) }
{
    if count >= MOST {
        return Some(BuildError::TooMany);
    }
    label_fault(labels, instr, aim)
}

impl Assembler {
    /// Makes an empty routine for a mode.
    pub fn new(alloc: Global, bits: Bits) -> Assembler
        ensures { result ≡ no_lines bits }
    {
        Assembler {
            bits,
            items: Vec::new(alloc),
            aims: Vec::new(alloc),
            filled: Vec::new(alloc),
            labels: Vec::new(alloc),
            ready: Vec::new(alloc),
        }
    }

    /// Makes a routine for a mode with so many labels, none of which has a place.
    ///
    /// Errors: `TooMany` for more than 65,536; `Memory`.
    pub fn with_labels(alloc: Global, bits: Bits, count: usize) -> Result<Assembler, BuildError>
        ensures made { IfOk result (λ routine. routine ≡ with_labels bits count) }
        ensures refused { IfSome (labels_refusal count) (λ why. result ≡ Err why) }
        ensures cause { IfErr result (λ why. (labels_refusal count ≡ Some why) ⊎ (why ≡ Memory)) }
    {
        if count > MOST {
            return Err(BuildError::TooMany);
        }
        let mut labels = Vec::with_capacity(alloc, count)?;
        fill(&mut labels, count, None);
        Ok(Assembler {
            bits,
            items: Vec::new(alloc),
            aims: Vec::new(alloc),
            filled: Vec::new(alloc),
            labels,
            ready: Vec::new(alloc),
        })
    }

    /// Returns the mode.
    pub fn bits(&self) -> Bits
        ensures { result ≡ self.now.bits }
    {
        self.bits
    }

    /// Returns how many items there are: instructions and bytes of data.
    pub fn len(&self) -> usize
        ensures { result ≡ length self.now.items }
    {
        self.items.len()
    }

    /// Makes room for so many more instructions and bytes of data, so that adding them allocates no more. Nothing else changes.
    ///
    /// ```
    /// let mut routine = Assembler::new(rt.alloc(), Bits::B64);
    /// routine.reserve(100)?;
    /// println!(rt; "{}", routine.len())?; // 0
    /// ```
    ///
    /// Errors: `Memory`.
    pub fn reserve(&mut self, count: usize) -> Result<(), BuildError>
        ensures state { self.new ≡ self.old }
        ensures cause { IfErr result (λ why. why ≡ Memory) }
    {
        self.items.reserve(count)?;
        self.aims.reserve(count)?;
        self.filled.reserve(count)?;
        self.ready.reserve(count)?;
        Ok(())
    }

    /// Returns how many labels there are.
    pub fn label_count(&self) -> usize
        ensures { result ≡ length self.now.labels }
    {
        self.labels.len()
    }

    /// Returns the label before which so many were made, if there is one.
    pub fn label_at(&self, number: usize) -> Option<Label>
        ensures { MatchOption result (length self.now.labels ≤ number) (λ label. (label.number ≡ number) × (number < length self.now.labels)) }
    {
        if number >= self.labels.len() {
            return None;
        }
        Some(Label {
            number: number as u32,
        })
    }

    /// Makes a label without a place. Instructions can go to it before it has one.
    ///
    /// Errors: `TooMany` if there are 65,536 labels; `Memory`. Nothing changes then.
    pub fn label(&mut self) -> Result<Label, BuildError>
        ensures made { IfOk result (λ label. label.number ≡ length self.old.labels) }
        ensures state { OnOk result (self.new ≡ with_label self.old) }
        ensures refused { IfSome (label_refusal self.old) (λ why. result ≡ Err why) }
        ensures cause { IfErr result (λ why. (label_refusal self.old ≡ Some why) ⊎ (why ≡ Memory)) }
        ensures unchanged { OnErr result (self.new ≡ self.old) }
    {
        let number = self.labels.len();
        if number >= MOST {
            return Err(BuildError::TooMany);
        }
        self.labels.reserve(1)?;
        append(&mut self.labels, None);
        Ok(Label {
            number: number as u32,
        })
    }

    /// Places a label before the next instruction or byte that is added; if none is, the label stands at the end.
    ///
    /// Errors: `Unknown` if the routine has no such label; `PlacedTwice` if the label has a place. Nothing changes then.
    pub fn place(&mut self, label: Label) -> Result<(), BuildError>
        ensures state { OnOk result (self.new ≡ with_place self.old label.number) }
        ensures refused { IfSome (place_refusal self.old label.number) (λ why. result ≡ Err why) }
        ensures cause { IfErr result (λ why. place_refusal self.old label.number ≡ Some why) }
        ensures unchanged { OnErr result (self.new ≡ self.old) }
    {
        let number = label.number;
        if number as usize >= self.labels.len() {
            return Err(BuildError::Unknown { label: number });
        }
        if place_of(&self.labels, number).is_some() {
            return Err(BuildError::PlacedTwice { label: number });
        }
        self.labels[number as usize] = Some(self.items.len() as u32);
        Ok(())
    }

    /// Adds an instruction that was prepared for the mode, with a label to go to or none.
    fn add(&mut self, it: &Prepared, aim: Option<u32>) -> Result<(), BuildError>
        requires mode { self.old.bits ≡ it.now.bits }
        requires few { length self.old.items < 65536 }
        ensures state { OnOk result (self.new ≡ with_item self.old it.now.instr aim) }
        ensures cause { IfErr result (λ why. why ≡ Memory) }
        ensures unchanged { OnErr result (self.new ≡ self.old) }
    {
        self.items.reserve(1)?;
        self.aims.reserve(1)?;
        self.filled.reserve(1)?;
        self.ready.reserve(1)?;
        append(&mut self.items, it.item);
        append(&mut self.aims, aim);
        append(&mut self.filled, None);
        append(&mut self.ready, copy_of_ready(&it.ready));
        Ok(())
    }

    /// Adds an instruction, with a label to go to or none.
    #[tactic(auto, unfolding(crate::specs::Built::push_fault))]
    fn push_aimed(&mut self, instr: &Instr, aim: Option<u32>) -> Result<(), BuildError>
        ensures state { OnOk result (self.new ≡ with_item self.old instr.now aim) }
        ensures refused { IfSome (push_refusal self.old instr.now aim) (λ why. result ≡ Err why) }
        ensures cause { IfErr result (λ why. (push_refusal self.old instr.now aim ≡ Some why) ⊎ (why ≡ Memory)) }
        ensures unchanged { OnErr result (self.new ≡ self.old) }
    {
        if let Some(why) = fault_before(self.items.len(), &self.labels, instr, aim) {
            return Err(why);
        }
        match Prepared::new(self.bits, instr) {
            Ok(it) => self.add(&it, aim),
            Err(why) => Err(BuildError::NotEncoded { why }),
        }
    }

    /// Adds an instruction that was prepared, with a label to go to or none.
    #[tactic(auto, unfolding(crate::specs::Built::push_fault))]
    fn push_prepared_aimed(&mut self, it: &Prepared, aim: Option<u32>) -> Result<(), BuildError>
        ensures state { OnOk result (self.new ≡ with_item self.old it.now.instr aim) }
        ensures refused { IfSome (push_refusal self.old it.now.instr aim) (λ why. result ≡ Err why) }
        ensures cause { IfErr result (λ why. (push_refusal self.old it.now.instr aim ≡ Some why) ⊎ (why ≡ Memory)) }
        ensures unchanged { OnErr result (self.new ≡ self.old) }
    {
        if !same_bits(self.bits, it.bits) {
            return self.push_aimed(&it.item.instr, aim);
        }
        match fault_before(self.items.len(), &self.labels, &it.item.instr, aim) {
            Some(why) => Err(why),
            None => self.add(it, aim),
        }
    }

    /// Adds an instruction. If it is a near branch, or has an operand at RIP or EIP, it goes to that address, wherever the routine lies.
    ///
    /// Errors, in this order: `TooMany` if there are 65,536 items; `NotEncoded` if it has no encoding in the mode, even at its own target;
    /// `Memory`. Nothing changes then.
    pub fn push(&mut self, instr: &Instr) -> Result<(), BuildError>
        ensures state { OnOk result (self.new ≡ with_item self.old instr.now None) }
        ensures refused { IfSome (push_refusal self.old instr.now None) (λ why. result ≡ Err why) }
        ensures cause { IfErr result (λ why. (push_refusal self.old instr.now None ≡ Some why) ⊎ (why ≡ Memory)) }
        ensures unchanged { OnErr result (self.new ≡ self.old) }
    {
        self.push_aimed(instr, None)
    }

    /// Adds an instruction that goes to a label: a near branch, whose own target is of no account, or an instruction with an operand at RIP or EIP, which
    /// then has the address of the label. The label may be placed later.
    ///
    /// Errors, in this order: `TooMany` if there are 65,536 items; `Unknown` if the routine has no such label; `NoTarget` if the instruction is no
    /// such one; `NotEncoded` if it has no encoding in the mode, even at its own target; `Memory`. Nothing changes then.
    pub fn push_to(&mut self, instr: &Instr, label: Label) -> Result<(), BuildError>
        ensures state { OnOk result (self.new ≡ with_item self.old instr.now (Some label.number)) }
        ensures refused { IfSome (push_refusal self.old instr.now (Some label.number)) (λ why. result ≡ Err why) }
        ensures cause { IfErr result (λ why. (push_refusal self.old instr.now (Some label.number) ≡ Some why) ⊎ (why ≡ Memory)) }
        ensures unchanged { OnErr result (self.new ≡ self.old) }
    {
        self.push_aimed(instr, Some(label.number))
    }

    /// Adds an instruction that was prepared, as [`Assembler::push`] adds it. It is not encoded again if it was prepared for the mode of the routine.
    ///
    /// ```
    /// let mut routine = Assembler::new(rt.alloc(), Bits::B64);
    /// let ret = Prepared::new(Bits::B64, &read_intel(Bits::B64, 0, b"ret")?)?;
    /// routine.push_prepared(&ret)?;
    /// println!(rt; "{}", routine.len())?; // 1
    /// ```
    ///
    /// Errors: those of [`Assembler::push`]. Nothing changes then.
    pub fn push_prepared(&mut self, it: &Prepared) -> Result<(), BuildError>
        ensures state { OnOk result (self.new ≡ with_item self.old it.now.instr None) }
        ensures refused { IfSome (push_refusal self.old it.now.instr None) (λ why. result ≡ Err why) }
        ensures cause { IfErr result (λ why. (push_refusal self.old it.now.instr None ≡ Some why) ⊎ (why ≡ Memory)) }
        ensures unchanged { OnErr result (self.new ≡ self.old) }
    {
        self.push_prepared_aimed(it, None)
    }

    /// Adds an instruction that was prepared and goes to a label, as [`Assembler::push_to`] adds it. It is not encoded again if it was prepared for the
    /// mode of the routine.
    ///
    /// ```
    /// let mut routine = Assembler::new(rt.alloc(), Bits::B64);
    /// let jump = Prepared::new(Bits::B64, &read_intel(Bits::B64, 0, b"jmp 0x0")?)?;
    /// let end = routine.label()?;
    /// routine.push_prepared_to(&jump, end)?;
    /// routine.push_prepared_to(&jump, end)?;
    /// routine.place(end)?;
    /// let made = routine.finish(rt.alloc(), 0)?;
    /// println!(rt; "{}", hex::encode(rt.alloc(), made.bytes())?)?; // eb02eb00
    /// ```
    ///
    /// Errors: those of [`Assembler::push_to`]. Nothing changes then.
    pub fn push_prepared_to(&mut self, it: &Prepared, label: Label) -> Result<(), BuildError>
        ensures state { OnOk result (self.new ≡ with_item self.old it.now.instr (Some label.number)) }
        ensures refused { IfSome (push_refusal self.old it.now.instr (Some label.number)) (λ why. result ≡ Err why) }
        ensures cause { IfErr result (λ why. (push_refusal self.old it.now.instr (Some label.number) ≡ Some why) ⊎ (why ≡ Memory)) }
        ensures unchanged { OnErr result (self.new ≡ self.old) }
    {
        self.push_prepared_aimed(it, Some(label.number))
    }

    /// Adds bytes of data. A label that is placed before has the address of the first of them.
    ///
    /// Errors: `TooMany` if there would be more than 65,536 items, each byte counted as one; `Memory`. Nothing changes then.
    pub fn bytes(&mut self, bytes: &[u8]) -> Result<(), BuildError>
        ensures state { OnOk result (self.new ≡ with_bytes self.old bytes.now) }
        ensures refused { IfSome (bytes_refusal self.old bytes.now) (λ why. result ≡ Err why) }
        ensures cause { IfErr result (λ why. (bytes_refusal self.old bytes.now ≡ Some why) ⊎ (why ≡ Memory)) }
        ensures unchanged { OnErr result (self.new ≡ self.old) }
    {
        let count = bytes.len();
        if count > MOST || self.items.len() > MOST - count {
            return Err(BuildError::TooMany);
        }
        let item = stand_in(self.bits);
        let ready = independent_bytes(self.bits, &item.instr);
        self.items.reserve(count)?;
        self.aims.reserve(count)?;
        self.filled.reserve(count)?;
        self.ready.reserve(count)?;
        fill(&mut self.items, count, item);
        fill(&mut self.aims, count, None);
        append_bytes(&mut self.filled, bytes);
        fill_ready(&mut self.ready, count, &ready);
        Ok(())
    }
}
