//! The operands of the rows of the table: the word of each kind, and what is done to it.

ghost use Rattle.std.specs.Prelude.{◌≡◌, ◌<◌, ◌≤◌, length, MatchResult, Ok, Err, ⊤};
ghost use Rattle.operand_info.specs.ByCode.{access_of};
ghost use Rattle.c_calls.specs.Answers as said;
ghost use Rattle.c_calls.specs.Info.{access_number};
ghost use Rattle.c_calls.specs.RowOperands as spec;

use crate::buffers::put_text;
use crate::info::access_number;
use crate::refusal::{Refusal, refusal_status};
use crate::rows::code_numbered;
use instruction_parts::row_types::OpKind;
use opcode_rows::{ROWS, row_of};
use operand_info::{Access, access_of};
use x86_values::Code;

/// The word of a kind, empty if there is no operand.
fn kind_word(kind: OpKind) -> &'static [u8]
    ensures word { result.now ≡ spec.kind_word kind }
    ensures short { length result.now ≤ 5 }
{
    match kind {
        OpKind::Absent => b"",
        OpKind::Eb => b"Eb",
        OpKind::Ew => b"Ew",
        OpKind::Ed => b"Ed",
        OpKind::Eq => b"Eq",
        OpKind::Ev => b"Ev",
        OpKind::Ez => b"Ez",
        OpKind::Ey => b"Ey",
        OpKind::Gb => b"Gb",
        OpKind::Gw => b"Gw",
        OpKind::Gd => b"Gd",
        OpKind::Gv => b"Gv",
        OpKind::Gy => b"Gy",
        OpKind::Zb => b"Zb",
        OpKind::Zv => b"Zv",
        OpKind::By => b"By",
        OpKind::Rv => b"Rv",
        OpKind::Ry => b"Ry",
        OpKind::Rm => b"Rm",
        OpKind::Xv => b"Xv",
        OpKind::Kb => b"Kb",
        OpKind::Kw => b"Kw",
        OpKind::Sw => b"Sw",
        OpKind::Cn => b"Cn",
        OpKind::Dn => b"Dn",
        OpKind::M => b"M",
        OpKind::Mb => b"Mb",
        OpKind::Mw => b"Mw",
        OpKind::Md => b"Md",
        OpKind::Mq => b"Mq",
        OpKind::Mt => b"Mt",
        OpKind::Mv => b"Mv",
        OpKind::Mx => b"Mx",
        OpKind::Mo => b"Mo",
        OpKind::Ma => b"Ma",
        OpKind::Mp => b"Mp",
        OpKind::Mf => b"Mf",
        OpKind::Ob => b"Ob",
        OpKind::Ov => b"Ov",
        OpKind::Ib => b"Ib",
        OpKind::Iw => b"Iw",
        OpKind::Ibs => b"Ibs",
        OpKind::Iz => b"Iz",
        OpKind::Iv => b"Iv",
        OpKind::Jb => b"Jb",
        OpKind::Jz => b"Jz",
        OpKind::Ap => b"Ap",
        OpKind::Pq => b"Pq",
        OpKind::Qd => b"Qd",
        OpKind::Qq => b"Qq",
        OpKind::Nq => b"Nq",
        OpKind::Vx => b"Vx",
        OpKind::Hx => b"Hx",
        OpKind::Lx => b"Lx",
        OpKind::Ux => b"Ux",
        OpKind::Wx => b"Wx",
        OpKind::Vo => b"Vo",
        OpKind::Ho => b"Ho",
        OpKind::Wo => b"Wo",
        OpKind::Wb => b"Wb",
        OpKind::Ww => b"Ww",
        OpKind::Wd => b"Wd",
        OpKind::Wq => b"Wq",
        OpKind::Wh => b"Wh",
        OpKind::W4 => b"W4",
        OpKind::W8 => b"W8",
        OpKind::GatherX => b"gx",
        OpKind::GatherL => b"gv",
        OpKind::RaxAny => b"rAX",
        OpKind::EaxZ => b"eAX",
        OpKind::Al => b"AL",
        OpKind::Ax => b"AX",
        OpKind::Cl => b"CL",
        OpKind::Dx => b"DX",
        OpKind::Es => b"ES",
        OpKind::Cs => b"CS",
        OpKind::Ss => b"SS",
        OpKind::Ds => b"DS",
        OpKind::Fs => b"FS",
        OpKind::Gs => b"GS",
        OpKind::St => b"ST",
        OpKind::Xmm0 => b"XMM0",
        OpKind::One => b"1",
        OpKind::StI => b"ST(i)",
    }
}

/// The kind of operand `n` of the row of a code.
#[tactic(auto, unfolding(crate::specs::RowOperands::row_kind_at))]
fn kind_at(code: Code, n: usize) -> OpKind
    requires { code.0 < ROWS }
    ensures { result ≡ spec.row_kind_at code.0 n }
{
    row_of(code).ops.get(n).copied().unwrap_or(OpKind::Absent)
}

/// An operand of a row: the word of its kind, and what is done to it.
#[derive(Clone, Copy)]
struct RowOperand {
    word: &'static [u8],
    access: Access,
}

/// Operand `index` of the row of a number.
#[tactic(auto, unfolding(crate::specs::RowOperands::kind_answer))]
fn operand_of_row(code: u32, index: u32) -> Result<RowOperand, Refusal>
    ensures word { MatchResult result (λ told. spec.kind_answer code index ≡ Ok told.word.now) (λ why. spec.kind_answer code index ≡ Err why) }
    ensures access { MatchResult result (λ told. told.access ≡ access_of code index) (λ why. ⊤) }
    ensures short { MatchResult result (λ told. length told.word.now ≤ 5) (λ why. ⊤) }
{
    let Some(code) = code_numbered(code) else {
        return Err(Refusal::Code);
    };
    if index >= 4 {
        return Err(Refusal::Name);
    }
    let n = index as usize;
    Ok(RowOperand {
        word: kind_word(kind_at(code, n)),
        access: access_of(code, n),
    })
}

/// Writes the word for the kind of an operand of a row, stores its access, and returns the length of the word in bytes.
#[tactic(auto, unfolding(crate::specs::Answers::text_within))]
pub fn row_operand(code: u32, index: u32, access: &mut u8, kind: &mut [u8]) -> i32
    ensures said { result ≡ said.count_or_refusal (said.text_within (length kind.old) (spec.kind_answer code index)) }
    ensures left { kind.new ≡ said.with_text kind.old (said.text_within (length kind.old) (spec.kind_answer code index)) }
    ensures access { access.new ≡ spec.access_left access.old (said.text_within (length kind.old) (spec.kind_answer code index)) (access_number (access_of code index)) }
{
    match operand_of_row(code, index) {
        Ok(told) => {
            if told.word.len() < kind.len() {
                *access = access_number(told.access);
            }
            put_text(kind, told.word)
        }
        Err(why) => refusal_status(why),
    }
}
