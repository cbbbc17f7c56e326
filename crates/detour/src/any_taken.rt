//! The instructions that are taken, of the table and without a row.

ghost use Rattle.std.specs.Prelude.{◌≡◌, ◌<◌, ◌≤◌, true, length};
ghost use Rattle.block_encoder.specs.PushedCalls.Rows.{push_code as spec_push_code};
ghost use Rattle.detour.specs.AnyTaken as spec;
ghost use Rattle.detour.specs.AnyReading.{IsFillerAt, IsAnyItemRead, IsAnyFrontAnswer};

use crate::error::DetourError;
use crate::laws_below::laws_below;
use crate::taken::Taken;
use block_encoder::pushed_calls::PUSH_IMM16;
use code_items::{AnyItem, item_len, read_any};
use encoder::encode;
use move_goals::Placed;
use opcode_rows::ROWS;
use std::alloc::Global;
use x86_values::{Bits, Code, Instr, Operand, Rep, size_number, wrap};

/// The code of PUSH with an immediate of the mode's own operand size.
fn push_code(bits: Bits) -> u16
    ensures { result ≡ spec_push_code bits }
{
    PUSH_IMM16 + u16::from(size_number(bits))
}

/// Returns what stands for an instruction without a row in an outline: PUSH of 0. Control goes on behind it, and it is no padding, no call and no branch.
fn filler(bits: Bits) -> Instr
    ensures { result ≡ spec.filler bits }
{
    let none = Operand::Absent;
    Instr {
        code: Code(push_code(bits)),
        lock: false,
        rep: Rep::None,
        seg: None,
        asize: None,
        ops: [Operand::Imm(0), none, none, none],
    }
}

/// Returns whether the filler is an instruction of the table that has an encoding at an address. It always is.
fn has_filler(bits: Bits, ip: u64) -> bool
    ensures { result ≡ true → IsFillerAt bits ip }
{
    let filler = filler(bits);
    filler.code.0 < ROWS && encode(bits, ip, &filler).is_ok()
}

/// The line of an instruction.
fn line_of(bits: Bits, item: &AnyItem) -> Placed
    ensures { result ≡ spec.line_of bits item.now }
{
    match item {
        AnyItem::Listed(placed) => *placed,
        AnyItem::Unlisted(own) => Placed {
            ip: own.ip,
            len: own.shape.len,
            instr: filler(bits),
        },
    }
}

/// The instruction at an offset of some code.
fn any_item(bits: Bits, ip: u64, code: &[u8], offset: usize) -> Result<AnyItem, DetourError>
    requires { offset < length code.now }
    ensures { IsAnyItemRead bits ip code.now offset result }
{
    laws_below();
    let at = wrap(bits, u128::from(ip) + offset as u128);
    if !has_filler(bits, at) {
        return Err(DetourError::Memory);
    }
    match read_any(bits, at, &code[offset..]) {
        Ok(item) => Ok(item),
        Err(error) => Err(DetourError::BadCode {
            at: offset as u64,
            error,
        }),
    }
}

/// The first instructions of a function, and their outline: those of the table, with PUSH of 0 in the place of each other one.
#[derive(Drop)]
pub(crate) struct AnyTaken {
    pub(crate) items: Vec<AnyItem>,
    pub(crate) outline: Taken,
}

/// The first instructions of some code, as few as have `need` bytes.
pub(crate) fn take_any(
    alloc: Global,
    bits: Bits,
    ip: u64,
    code: &[u8],
    need: usize,
) -> Result<AnyTaken, DetourError>
    requires need { need ≤ 15 }
    ensures { IsAnyFrontAnswer bits ip code.now need result }
{
    let mut items = Vec::new(alloc);
    let mut lines = Vec::new(alloc);
    let mut len = 0;
    'items: while len < need {
        if len == code.len() {
            return Err(DetourError::TooSmall {
                len: len as u64,
                need: need as u64,
            });
        }
        let item = any_item(bits, ip, code, len)?;
        len += usize::from(item_len(&item));
        lines.push(line_of(bits, &item))?;
        items.push(item)?;
    }
    Ok(AnyTaken {
        items,
        outline: Taken { items: lines, len },
    })
}
