//! What a layout is chosen for: branches with their choices and goals, in blocks.

use arrayvec::ArrayVec;
use std::marker::Model;

/// The form of a moved instruction.
#[derive(Clone, Copy, Debug, Default, PartialEq, Eq)]
pub enum Form {
    /// The instruction as it was: the only form of an instruction that is no relative branch.
    #[default]
    Itself,
    /// A branch with an offset of 8 bits.
    Short,
    /// A branch with an offset of the operand size.
    Near,
    /// A branch through a slot of 8 bytes.
    Far,
    /// A short branch without a near form, to a near JMP after it.
    Bridge,
    /// A short branch without a near form, to a far JMP after it.
    FarBridge,
}

/// The goal of a branch.
#[derive(Clone, Copy, Debug, Default, PartialEq, Eq)]
pub enum Goal {
    /// Nowhere: the item is no branch.
    #[default]
    None,
    /// To an item that is moved too, by its number over all blocks, from 0.
    Inside(u32),
    /// To an address that stays.
    Outside(u64),
}

/// The goals that a choice reaches from its place.
#[derive(Clone, Copy, Debug, Default, PartialEq, Eq)]
pub enum Reach {
    /// Every goal.
    #[default]
    Always,
    /// Those at a distance of -128 to 127 bytes from the end of the image.
    Signed8,
    /// Those at a distance that is a signed number of 32 bits.
    Signed32,
    /// Those below 2 to a number of bits, which is 16 or 32.
    Below(u8),
    /// Addresses below 2 to `bits`, which is 16 or 32, if the end of the jump inside the image, `inner` bytes after its start, is below it too.
    BridgeBelow { bits: u8, inner: u8 },
}

/// A form that an item can take.
#[derive(Clone, Copy, Debug, Default, PartialEq, Eq)]
pub struct Choice {
    pub form: Form,
    /// The bytes of the image, 1 to 15.
    pub len: u8,
    pub reach: Reach,
}

/// An item of a plan: its goal, and one to three choices. The choices have different forms, and their lengths do not fall. An item without a goal has
/// one choice.
#[derive(Drop)]
pub struct Branch {
    pub choices: ArrayVec<Choice, 3>,
    pub goal: Goal,
}

/// A block of consecutive items.
#[derive(Clone, Copy, Debug, Default, PartialEq, Eq)]
pub struct BlockSpan {
    /// How many items it has.
    pub count: u32,
    /// The address of its first item.
    pub new_base: u64,
}

/// The blocks of a plan. A plan of one block needs no memory for it.
#[derive(Drop)]
enum Spans {
    One([BlockSpan; 1]),
    Many(Vec<BlockSpan>),
}

/// The maximum number of items in a plan.
pub const MOST_ITEMS: usize = 65_536;

/// Items in blocks: the first span owns the first items, and so on. A plan has at most 65,536 items and as many blocks.
#[derive(Drop)]
pub struct Plan {
    spans: Spans,
    items: Vec<Branch>,
}

impl Model for Plan {
    ghost use Rattle.branch_sizes.specs.Plan.{BlockPlan, plan_of, IsWellFormed};
    ghost use Rattle.branch_sizes.specs.Spans.{spans_of};

    ghost Value = { BlockPlan };

    ghost view = { λ a. plan_of (spans_of a.spans) a.items.items };

    ghost invariant = { λ a. IsWellFormed (plan_of (spans_of a.spans) a.items.items) };
}

impl Plan {
    ghost use Rattle.branch_sizes.specs.Plan.{plan_of, one_block, is_fit_branch, IsWellFormed};
    ghost use Rattle.std.specs.Prelude.{◌≡◌, ◌≤◌, IsTrue, length};
    ghost use Rattle.std.specs.List.{list_all};

    /// Makes a plan of one block at an address. It takes at most 65,536 items, and each `Inside` number is below their count.
    pub fn new(base: u64, items: Vec<Branch>) -> Plan
        requires few { length items.items ≤ 65536 }
        requires fit { IsTrue (list_all (is_fit_branch (length items.items)) items.items) }
        ensures { result ≡ one_block base items.items }
    {
        let span = BlockSpan {
            count: items.len() as u32,
            new_base: base,
        };
        Plan {
            spans: Spans::One([span]),
            items,
        }
    }

    /// Makes a plan of several blocks. It takes at most 65,536 spans whose counts add up to the number of items, at most 65,536 items, and each
    /// `Inside` number is below that count.
    pub fn of_blocks(spans: Vec<BlockSpan>, items: Vec<Branch>) -> Plan
        requires { IsWellFormed (plan_of spans.items items.items) }
        ensures { result ≡ plan_of spans.items items.items }
    {
        Plan {
            spans: Spans::Many(spans),
            items,
        }
    }

    /// Returns the blocks.
    pub fn spans(&self) -> &[BlockSpan]
        ensures spans { result.now ≡ self.now.spans }
        ensures plan { IsWellFormed self.now }
    {
        match &self.spans {
            Spans::One(span) => span,
            Spans::Many(spans) => spans,
        }
    }

    /// Returns the items of all blocks in order.
    pub fn items(&self) -> &[Branch]
        ensures { result.now ≡ self.now.items }
    {
        &self.items
    }
}
