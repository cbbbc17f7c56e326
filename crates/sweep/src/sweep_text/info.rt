//! What an instruction does, in words.

ghost use Rattle.std.specs.Prelude.{◌≡◌, ◌<◌, ◌≤◌, ◌+◌, ◌++◌, length, IsTrue, codes, decimal};
ghost use Rattle.arrayvec.specs.ArrayVec.{array_vec_len};
ghost use Rattle.opcode_rows.specs.Allowed.{is_well_formed};
ghost use Rattle.sweep.specs.SweepText.Info as spec;

use crate::sweep_text::line::{CHUNK_LEN, Chunk};
use itoa::Buffer;
use opcode_rows::ROWS;
use operand_info::{Access, Flow, access_of, flow_of, ip_operand, memory_size, near_target};
use text_parts::laws::numbers_are_short;
use text_parts::numbers::append_number;
use text_parts::prefix_words::has_memory;
use text_parts::style::Style;
use text_parts::text::{TEXT_LEN, append, append_few};
use x86_values::{Instr, Operand};

/// Returns the name of a flow as `info` and `flow` print it.
#[tactic(auto, unfolding(crate::specs::SweepText::Info::flow_name))]
pub fn flow_name(flow: Flow) -> &'static [u8]
    ensures text { result.now ≡ spec.flow_name flow }
    ensures short { length result.now ≤ 19 }
{
    match flow {
        Flow::Next => b"Next",
        Flow::UnconditionalBranch => b"UnconditionalBranch",
        Flow::IndirectBranch => b"IndirectBranch",
        Flow::ConditionalBranch => b"ConditionalBranch",
        Flow::Return => b"Return",
        Flow::Call => b"Call",
        Flow::IndirectCall => b"IndirectCall",
        Flow::Interrupt => b"Interrupt",
        Flow::Exception => b"Exception",
    }
}

/// Appends the name of a flow. Most instructions go to the next one.
#[inline]
#[tactic(auto, unfolding(crate::specs::SweepText::Info::flow_name))]
fn append_flow(out: &mut Chunk, flow: Flow)
    requires { array_vec_len out.old + 19 ≤ CHUNK_LEN }
    ensures items { out.new.items ≡ out.old.items ++ spec.flow_name flow }
    ensures len { array_vec_len out.new ≤ array_vec_len out.old + 19 }
{
    match flow {
        Flow::Next => append_few(out, b"Next"),
        _ => append(out, flow_name(flow)),
    }
}

/// Appends a space and an access: none, a read, a write, or both.
#[inline]
#[tactic(auto, unfolding(crate::specs::SweepText::Info::access_name))]
fn append_access(out: &mut Chunk, access: Access)
    requires { array_vec_len out.old + 3 ≤ CHUNK_LEN }
    ensures items { out.new.items ≡ out.old.items ++ spec.access_name access }
    ensures len { array_vec_len out.new ≤ array_vec_len out.old + 3 }
{
    match access {
        Access::None => append_few(out, b" n"),
        Access::Read => append_few(out, b" r"),
        Access::Write => append_few(out, b" w"),
        Access::ReadWrite => append_few(out, b" rw"),
    }
}

/// Appends the access of an operand, or nothing if there is none.
#[inline]
#[tactic(auto, unfolding(crate::specs::SweepText::Info::access_word))]
fn append_operand_access(out: &mut Chunk, operand: &Operand, access: Access)
    requires { array_vec_len out.old + 3 ≤ CHUNK_LEN }
    ensures items { out.new.items ≡ out.old.items ++ spec.access_word operand.now access }
    ensures len { array_vec_len out.new ≤ array_vec_len out.old + 3 }
{
    match operand {
        Operand::Absent => {}
        _ => append_access(out, access),
    }
}

/// Appends the access of operand `n` as a word, or nothing if there is none.
#[inline]
#[tactic(auto, unfolding(crate::specs::SweepText::Info::operand_word))]
fn append_operand_word(out: &mut Chunk, instr: &Instr, n: usize)
    requires code { instr.now.code.0 < ROWS }
    requires number { n < 4 }
    requires room { array_vec_len out.old + 3 ≤ CHUNK_LEN }
    ensures items { out.new.items ≡ out.old.items ++ spec.operand_word instr.now n }
    ensures len { array_vec_len out.new ≤ array_vec_len out.old + 3 }
{
    append_operand_access(out, &instr.ops[n], access_of(instr.code, n));
}

/// Appends a size in bytes after its sign.
#[inline]
fn append_size(out: &mut Chunk, size: u8)
    requires { array_vec_len out.old + 5 ≤ CHUNK_LEN }
    ensures items { out.new.items ≡ out.old.items ++ (codes " m" ++ decimal size) }
    ensures len { array_vec_len out.new ≤ array_vec_len out.old + 5 }
{
    append_few(out, b" m");
    if size < 10 {
        out.push(b'0' + size);
    } else {
        append(out, Buffer::new().format(size).as_bytes());
    }
}

/// Appends the size in bytes of the memory operand, if there is one with a size.
#[tactic(auto, unfolding(crate::specs::SweepText::Info::memory_word))]
fn append_memory(out: &mut Chunk, instr: &Instr)
    requires code { instr.now.code.0 < ROWS }
    requires room { array_vec_len out.old + 5 ≤ CHUNK_LEN }
    ensures items { out.new.items ≡ out.old.items ++ spec.memory_word instr.now }
    ensures len { array_vec_len out.new ≤ array_vec_len out.old + 5 }
{
    let size = memory_size(instr.code);
    if size != 0 && has_memory(instr) {
        append_size(out, size);
    }
}

/// Appends a sign and an address, if there is one.
#[inline]
#[tactic(auto, unfolding(crate::specs::SweepText::Info::signed_address))]
fn append_address_word(out: &mut Chunk, sign: &[u8], address: Option<u64>)
    requires sign { length sign.now ≤ 4 }
    requires room { array_vec_len out.old + 22 ≤ CHUNK_LEN }
    ensures items { out.new.items ≡ out.old.items ++ spec.signed_address sign.now address }
    ensures len { array_vec_len out.new ≤ array_vec_len out.old + 22 }
{
    numbers_are_short();
    if let Some(address) = address {
        append_few(out, sign);
        append_number(out, Style::Intel, address);
    }
}

/// Appends what an instruction of the table does: its flow, the access of each operand, the size of its memory operand, its near
/// target, and the address of its operand relative to the next instruction.
#[tactic(auto, using(crate::proofs::SweepText::Lengths::info_parts), unfolding(crate::specs::SweepText::Info::info_text))]
pub(crate) fn append_info(out: &mut Chunk, instr: &Instr)
    requires code { instr.now.code.0 < ROWS }
    requires room { array_vec_len out.old + TEXT_LEN ≤ CHUNK_LEN }
    ensures items { out.new.items ≡ out.old.items ++ spec.info_text instr.now }
    ensures len { array_vec_len out.new ≤ array_vec_len out.old + TEXT_LEN }
{
    append_flow(out, flow_of(instr.code));
    append_operand_word(out, instr, 0);
    append_operand_word(out, instr, 1);
    append_operand_word(out, instr, 2);
    append_operand_word(out, instr, 3);
    append_memory(out, instr);
    append_address_word(out, b" -> ", near_target(instr));
    append_address_word(out, b" @ ", ip_operand(instr));
}
