//! Passes over code: what is done with each instruction, and what is counted.

ghost use Rattle.std.specs.Prelude.{IsTrue};
ghost use Rattle.opcode_rows.specs.Allowed.{is_well_formed};
ghost use Rattle.prefixes.specs.Answer.{is_mode};

use arrayvec::ArrayVec;
use decoder::{UNREAD, decode, decode_onto};
use encoder::encode;
use intel_text::print_to;
use std::alloc::Global;
use text_options::options::Options;
use text_options::symbols::NoSymbols;
use text_options::text_with;
use text_parts::style::Style;
use text_pieces::piece::Printed;
use text_pieces::print_pieces;
use x86_values::{Bits, Decoded, Instr, same};

/// What is done with each instruction.
#[derive(Clone, Copy)]
pub enum Work {
    /// It is read.
    Read,
    /// Its text in the Intel style is made.
    Print,
    /// Its text in the Intel style is made with its pieces.
    Pieces,
    /// Its text in the Intel style is made by the default options, with a resolver that knows no symbol.
    Format,
    /// It is encoded at its own address.
    Encode,
    /// It is encoded at its own address, and those bytes are read.
    Check,
}

/// How the spellings of encoding compare with those that were read.
#[derive(Clone, Copy)]
pub struct Spellings {
    pub shorter: u64,
    pub alike: u64,
    pub longer: u64,
    /// Instructions that are not encoded.
    pub refused: u64,
    /// Spellings that are not read as the same instruction.
    pub differing: u64,
}

/// What a pass counts.
#[derive(Clone, Copy)]
pub struct Counts {
    pub items: u64,
    pub errors: u64,
    /// Something of each instruction, so that its reading is not left out.
    pub sum: u64,
    /// The bytes of all texts, or all pieces.
    pub text: u64,
    pub spellings: Spellings,
}

const NOTHING: Counts = Counts {
    items: 0,
    errors: 0,
    sum: 0,
    text: 0,
    spellings: Spellings {
        shorter: 0,
        alike: 0,
        longer: 0,
        refused: 0,
        differing: 0,
    },
};

/// How many bytes a page of texts has.
const PAGE_LEN: usize = 1600;

/// How many bytes a text has at most.
const TEXT_LEN: usize = 160;

/// Texts one after another.
type Page = ArrayVec<u8, 1600>;

fn count(counter: &mut u64) {
    *counter = counter.wrapping_add(1);
}

/// Whether bytes are read as the instruction, and all of them.
fn reads_as<const BITS: u32>(ip: u64, bytes: &[u8], instr: &Instr) -> bool
    requires { IsTrue (is_mode BITS) }
{
    match decode::<BITS>(ip, bytes) {
        Ok(decoded) => same(&decoded.instr, instr) && decoded.len as usize == bytes.len(),
        Err(_) => false,
    }
}

/// Encodes an instruction at its own address, and decodes the result if wanted.
fn write<const BITS: u32>(
    spellings: &mut Spellings,
    bits: Bits,
    ip: u64,
    decoded: &Decoded,
    checks: bool,
)
    requires { IsTrue (is_mode BITS) }
{
    match encode(bits, ip, &decoded.instr) {
        Err(_) => count(&mut spellings.refused),
        Ok(bytes) => {
            let (new, old) = (bytes.len(), decoded.len as usize);
            if new < old {
                count(&mut spellings.shorter);
            } else if new == old {
                count(&mut spellings.alike);
            } else {
                count(&mut spellings.longer);
            }
            if checks && !reads_as::<BITS>(ip, bytes.as_slice(), &decoded.instr) {
                count(&mut spellings.differing);
            }
        }
    }
}

/// Writes the text of an instruction on the page, or on a new one if the page is full, and returns its length.
fn print(page: &mut Page, bits: Bits, instr: &Instr) -> usize
    requires { IsTrue (is_well_formed instr.now) }
{
    if PAGE_LEN - page.len() < TEXT_LEN {
        page.clear();
    }
    let before = page.len();
    print_to(page, bits, instr);
    page.len().wrapping_sub(before)
}

/// Makes the text of an instruction by the default options, and returns its length.
fn format(line: &mut Vec<u8>, bits: Bits, instr: &Instr, end: u64) -> usize
    requires { IsTrue (is_well_formed instr.now) }
{
    line.clear();
    let options = Options::default();
    match text_with(line, Style::Intel, &options, bits, instr, end, &NoSymbols) {
        Ok(()) => line.len(),
        Err(_) => 0,
    }
}

/// Makes one pass. An instruction takes its bytes, and a byte that starts none takes one.
fn sweep<const BITS: u32>(alloc: Global, bytes: &[u8], bits: Bits, work: Work) -> Counts
    requires { IsTrue (is_mode BITS) }
{
    let mut counts = NOTHING;
    let mut page = Page::new();
    let mut printed = Printed::default();
    let mut line = Vec::new(alloc);
    let mut decoded = UNREAD;
    let mut rest = bytes;
    let mut ip = 0_u64;
    for _ in 0..bytes.len() {
        if rest.is_empty() {
            break;
        }
        let len = match decode_onto(bits, ip, rest, &mut decoded) {
            Ok(()) => {
                count(&mut counts.items);
                counts.sum = counts.sum.wrapping_add(u64::from(decoded.instr.code.0));
                match work {
                    Work::Read => {}
                    Work::Print => {
                        let len = print(&mut page, bits, &decoded.instr);
                        counts.text = counts.text.wrapping_add(len as u64);
                    }
                    Work::Pieces => {
                        print_pieces(&mut printed, Style::Intel, bits, &decoded.instr);
                        counts.text = counts
                            .text
                            .wrapping_add(printed.pieces.as_slice().len() as u64);
                    }
                    Work::Format => {
                        let end = ip.wrapping_add(u64::from(decoded.len));
                        let len = format(&mut line, bits, &decoded.instr, end);
                        counts.text = counts.text.wrapping_add(len as u64);
                    }
                    Work::Encode => {
                        write::<BITS>(&mut counts.spellings, bits, ip, &decoded, false)
                    }
                    Work::Check => write::<BITS>(&mut counts.spellings, bits, ip, &decoded, true),
                }
                decoded.len
            }
            Err(_) => {
                count(&mut counts.errors);
                1
            }
        };
        rest = rest.get(len as usize..).unwrap_or(&[]);
        ip = ip.wrapping_add(u64::from(len));
    }
    counts
}

/// One pass over code of a mode, whose first byte has the address 0.
pub fn pass(alloc: Global, bytes: &[u8], bits: Bits, work: Work) -> Counts {
    match bits {
        Bits::B16 => sweep::<16>(alloc, bytes, bits, work),
        Bits::B32 => sweep::<32>(alloc, bytes, bits, work),
        Bits::B64 => sweep::<64>(alloc, bytes, bits, work),
    }
}
