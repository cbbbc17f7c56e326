//! Instructions, written as bytes (Intel SDM volume 2, 2.1 to 2.3).
#![tactic(auto)]

ghost use Rattle.std.specs.Prelude.{◌≡◌, ℕ, ◌≤◌, ◌<◌, ◌++◌, List, length, [], Ok, IfOk, IsErr, IfSome, IsNone, IsTrue, slice_get, Some};
ghost use Rattle.x86_values.specs.declared.Bits.TheVariants.{B64};
ghost use Rattle.x86_values.specs.Wrapping.{modulo_width};
ghost use Rattle.instruction_parts.specs.Sizes as sizes;
ghost use Rattle.instruction_parts.specs.Bytes.{bytes_of};
ghost use Rattle.row_fit.specs.Fits.{reads_by, is_gather};
ghost use Rattle.row_fit.specs.Sound.{sound};
ghost use Rattle.row_relation.specs.Spells.{SpellsUnbounded};
ghost use Rattle.plain_spelling.specs.PlainTail.{plain_spelling};
ghost use Rattle.plain_spelling.specs.Expressible.{failure, is_pair as spec_pair};
ghost use Rattle.plain_spelling.specs.Parts.{ArePartsOf};
ghost use Rattle.plain_spelling.specs.Writable.{writable};
ghost use Rattle.row_relation.specs.PlainLaws.Plain.{IsPlainlySpelled};
ghost use Rattle.opcode_rows.specs.Table.{table};
ghost use Rattle.opcode_rows.specs.Reading.{IsRead};
ghost use Rattle.encoder.specs.Encoding.{encoding, encoded_by, answer_bytes, written_onto, length_of, reading_of_bytes};

use arrayvec::ArrayVec;
use frequent::write_frequent;
use instruction_parts::row_types::Row;
use instruction_parts::sizes::{exists_in, is_vex_row};
use opcode_rows::{ROWS, row_of};
pub use plain_spelling::NoSpelling;
use plain_spelling::conditions::{first_failed_condition, first_failed_of, is_pair};
use plain_spelling::parts::{PlainParts, legacy_parts, plain_parts};
use prefixes::append_front;
use row_fit::fits::reads_gather;
use row_relation::append_plain_tail;
use x86_values::{Bits, Instr, wrap};

mod frequent;
pub mod laws;

/// Writes the encoding of an instruction of a row that exists in the mode, at an address of the mode, or returns why there is none.
#[inline(never)]
fn encode_any_row(
    out: &mut ArrayVec<u8, 15>,
    bits: Bits,
    ip: u64,
    row: &Row,
    instr: &Instr,
) -> Option<NoSpelling>
    requires empty { out.old.items ≡ [] }
    requires sound { IsTrue (sound row.now) }
    requires writable { IsTrue (writable row.now) }
    requires exists { IsTrue (sizes.exists_in bits row.now) }
    ensures { written_onto result out.new ≡ encoded_by (failure bits ip row.now instr.now) (bytes_of row.now (plain_spelling bits ip row.now instr.now)) }
{
    // Four operands, as the proof has to know.
    let [_first, _second, _third, _fourth] = instr.ops;
    let parts = plain_parts(bits, ip, row, instr);
    let pair = is_pair(row, instr);
    write_parts(out, bits, row, instr, &parts, pair, reads_gather(row))
}

/// Writes the encoding of an instruction as [`encode_any_row`] does.
///
/// Most are of a legacy row in 64-bit mode and have two operands at most. For them it is built once more with that known, which saves the tests
/// of the mode, of a VEX and of two operands.
#[inline(never)]
fn encode_row(
    out: &mut ArrayVec<u8, 15>,
    bits: Bits,
    ip: u64,
    row: &Row,
    instr: &Instr,
) -> Option<NoSpelling>
    requires empty { out.old.items ≡ [] }
    requires sound { IsTrue (sound row.now) }
    requires writable { IsTrue (writable row.now) }
    requires exists { IsTrue (sizes.exists_in bits row.now) }
    ensures { written_onto result out.new ≡ encoded_by (failure bits ip row.now instr.now) (bytes_of row.now (plain_spelling bits ip row.now instr.now)) }
{
    // Four operands, as the proof has to know.
    let [_first, _second, _third, _fourth] = instr.ops;
    match bits {
        Bits::B64 if !is_vex_row(row) && is_pair(row, instr) => write_parts(
            out,
            Bits::B64,
            row,
            instr,
            &legacy_parts(Bits::B64, ip, row, instr),
            true,
            // No legacy row is a gather.
            false,
        ),
        _ => encode_any_row(out, bits, ip, row, instr),
    }
}

/// Writes the encoding of an instruction of a row that exists in the mode, or returns why there is none. It is given the parts of its plain spelling,
/// which include the address, whether it has at most two operands, and whether the row is a gather.
#[inline(always)]
fn write_parts(
    out: &mut ArrayVec<u8, 15>,
    bits: Bits,
    row: &Row,
    instr: &Instr,
    parts: &PlainParts,
    pair: bool,
    gather: bool,
) -> Option<NoSpelling>
    requires empty { out.old.items ≡ [] }
    requires sound { IsTrue (sound row.now) }
    requires writable { IsTrue (writable row.now) }
    requires exists { IsTrue (sizes.exists_in bits row.now) }
    requires parts { ArePartsOf bits row.now instr.now parts.now }
    requires pair { pair ≡ spec_pair row.now instr.now }
    requires gather { gather ≡ reads_by is_gather row.now }
    ensures { written_onto result out.new ≡ encoded_by (failure bits parts.now.ip row.now instr.now) (bytes_of row.now (plain_spelling bits parts.now.ip row.now instr.now)) }
{
    // Four operands, as the proof has to know.
    let [_first, _second, _third, _fourth] = instr.ops;
    match first_failed_of(bits, row, instr, parts, pair, gather) {
        Some(why) => return Some(why),
        None => {}
    }
    if parts.len > 15 {
        return Some(NoSpelling::Length);
    }
    append_front(out, row, &parts.state);
    append_plain_tail(out, row, instr, parts);
    None
}

/// Writes the encoding of an instruction at an address, or returns why there is none.
fn encode_onto(out: &mut ArrayVec<u8, 15>, bits: Bits, ip: u64, instr: &Instr) -> Option<NoSpelling>
    requires empty { out.old.items ≡ [] }
    ensures { written_onto result out.new ≡ encoding bits ip instr.now }
{
    if instr.code.0 >= ROWS {
        return Some(NoSpelling::Row);
    }
    let row = row_of(instr.code);
    if !exists_in(bits, &row) {
        return Some(NoSpelling::Row);
    }
    encode_row(out, bits, wrap(bits, u128::from(ip)), &row, instr)
}

/// Returns the encoding of an instruction at an address, whatever its shape. Its bytes are written once, directly into the result.
#[inline(never)]
fn encode_any(bits: Bits, ip: u64, instr: &Instr) -> Result<ArrayVec<u8, 15>, NoSpelling>
    ensures { answer_bytes result ≡ encoding bits ip instr.now }
{
    let mut bytes = ArrayVec::new();
    if let Some(refusal) = encode_onto(&mut bytes, bits, ip, instr) {
        return Err(refusal);
    }
    Ok(bytes)
}

/// Writes the encoding of an instruction in 64-bit mode, if its shape is a frequent one; else it writes nothing and returns false.
#[inline(always)]
fn encode_frequent(out: &mut ArrayVec<u8, 15>, ip: u64, instr: &Instr) -> bool
    requires empty { out.old.items ≡ [] }
    ensures { IsTrue result → Ok out.new.items ≡ encoding B64 ip instr.now }
{
    // Four operands, as the proof has to know.
    let [_first, _second, _third, _fourth] = instr.ops;
    if instr.code.0 >= ROWS {
        return false;
    }
    let row = row_of(instr.code);
    exists_in(Bits::B64, &row) && write_frequent(out, ip, &row, instr)
}

/// Returns the encoding of an instruction at an address. A frequent one is found without the general tests.
#[inline(never)]
fn encode_by_row(bits: Bits, ip: u64, instr: &Instr) -> Result<ArrayVec<u8, 15>, NoSpelling>
    ensures { answer_bytes result ≡ encoding bits ip instr.now }
{
    // Four operands, as the proof has to know.
    let [_first, _second, _third, _fourth] = instr.ops;
    let mut bytes = ArrayVec::new();
    match bits {
        Bits::B64 if encode_frequent(&mut bytes, ip, instr) => Ok(bytes),
        _ => encode_any(bits, ip, instr),
    }
}

/// Encodes an instruction at an address. Returns its plain spelling, 1 to 15 bytes: the shortest bytes that decode to it there.
///
/// `ip` is the address of the first byte; it wraps at the address size of the mode. Each needed prefix occurs once and no other does, and each part
/// has its shortest form (Intel SDM volume 2, 2.1 to 2.3).
///
/// Fails exactly if the instruction has no plain spelling of at most 15 bytes, with the first condition that fails.
///
/// ```
/// let jump = read_intel(Bits::B64, 0x40_1000, b"jmp 0x401080")?;
/// let bytes = encode(Bits::B64, 0x40_1000, &jump)?;
/// println!(rt; "{}", hex::encode(rt.alloc(), &bytes)?)?; // eb7e
/// println!(rt; "{}", encoded_len(Bits::B64, 0x40_1010, &jump)?)?; // 2
/// ```
pub fn encode(bits: Bits, ip: u64, instr: &Instr) -> Result<ArrayVec<u8, 15>, NoSpelling>
    ensures encoding { answer_bytes result ≡ encoding bits ip instr.now }

    // The bytes are those of a fitting spelling that is plain and means the instruction; where they are refused there is none.
    ensures plain { IfOk result (λ bytes. IsPlainlySpelled table bits (modulo_width bits ip) bytes.items instr.now) }
    ensures refused { IsErr result → (bytes : List ℕ) → IsPlainlySpelled table bits (modulo_width bits ip) bytes instr.now → ⊥ }

    // Whatever follows them, they are read as the instruction.
    ensures read_back { IfOk result (λ bytes. (rest : List ℕ) → IsRead bits ip (bytes.items ++ rest) (reading_of_bytes instr.now bytes.items)) }

    // No bytes that spell the instruction there are fewer.
    ensures shortest { IfOk result (λ bytes. (others : List ℕ) → SpellsUnbounded table bits (modulo_width bits ip) others instr.now → length bytes.items ≤ length others) }
{
    // Four operands, as the proof has to know.
    let [_first, _second, _third, _fourth] = instr.ops;
    encode_by_row(bits, ip, instr)
}

/// Returns the length of the plain spelling of an instruction at an address, 1 to 15 bytes. Errors are those of [`encode`].
pub fn encoded_len(bits: Bits, ip: u64, instr: &Instr) -> Result<u8, NoSpelling>
    ensures { result ≡ length_of (encoding bits ip instr.now) }
{
    if instr.code.0 >= ROWS {
        return Err(NoSpelling::Row);
    }
    let row = row_of(instr.code);
    if !exists_in(bits, &row) {
        return Err(NoSpelling::Row);
    }
    row_len(bits, wrap(bits, u128::from(ip)), &row, instr)
}

/// The length of the encoding of an instruction of a row that exists in the mode, at an address of the mode.
fn row_len(bits: Bits, ip: u64, row: &Row, instr: &Instr) -> Result<u8, NoSpelling>
    requires sound { IsTrue (sound row.now) }
    requires writable { IsTrue (writable row.now) }
    requires exists { IsTrue (sizes.exists_in bits row.now) }
    ensures { result ≡ length_of (encoded_by (failure bits ip row.now instr.now) (bytes_of row.now (plain_spelling bits ip row.now instr.now))) }
{
    // Four operands, as the proof has to know.
    let [_first, _second, _third, _fourth] = instr.ops;
    let parts = plain_parts(bits, ip, row, instr);
    match first_failed_condition(bits, row, instr, &parts) {
        Some(why) => Err(why),
        None if parts.len > 15 => Err(NoSpelling::Length),
        None => Ok(parts.len),
    }
}
