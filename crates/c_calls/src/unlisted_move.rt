//! Moving code, with the instructions that the opcode table leaves out.

ghost use Rattle.std.specs.Prelude.{◌≡◌, ◌<◌, length, IfOk};
ghost use Rattle.c_calls.specs.Numbers.{bits_numbered};
ghost use Rattle.c_calls.specs.UnlistedMoves as spec;

use crate::buffers::write_front;
use crate::code_len::form_len;
use crate::flat::{FlatMove, FlatMoved};
use crate::moved::{MOST, MoveRefusal, form_number};
use crate::moving::{NOTHING, refusal_of, refusal_report, write_entries};
use crate::numbers::bits_numbered;
use crate::refusal::{Refusal, refusal_status};
use block_encoder::Form;
use code_items::{AnyItem, MoveCodeError, MovedAnyCode, item_ip, item_len, move_code_unlisted};
use std::alloc::{AllocError, Global};
use x86_values::Bits;

/// Moved code of which some instructions may have no row, and the new place of each of its instructions.
#[derive(Drop)]
pub(crate) struct MovedUnlisted {
    pub(crate) moved: MovedAnyCode,
    pub(crate) code_len: u64,
    pub(crate) entries: Vec<FlatMoved>,
}

/// Why code is not moved, by the library's cause.
fn move_refusal(why: MoveCodeError) -> MoveRefusal
    ensures { result ≡ spec.move_refusal why }
{
    match why {
        MoveCodeError::BadCode { at, error } => MoveRefusal::BadCode { at, error },
        MoveCodeError::Memory => MoveRefusal::Memory,
        MoveCodeError::TooMany { count } => MoveRefusal::TooMany { count },
        MoveCodeError::Wraps { end } => MoveRefusal::Wraps { end },
        MoveCodeError::TooFar { at, target } => MoveRefusal::TooFar { at, target },
    }
}

/// The entry of an instruction.
#[tactic(auto, unfolding(crate::specs::UnlistedMoves::any_entry_at))]
fn entry_at(moved: &MovedAnyCode, k: usize) -> FlatMoved
    requires { k < length moved.now.items }
    ensures { result ≡ spec.any_entry_at moved.now k }
{
    let item = &moved.items()[k];
    FlatMoved {
        old_ip: item_ip(item),
        new_ip: moved.starts()[k],
        len: item_len(item),
        form: form_number(moved.forms()[k]),
    }
}

/// The entries of moved instructions.
fn entries_of(alloc: Global, moved: &MovedAnyCode) -> Result<Vec<FlatMoved>, AllocError>
    ensures { IfOk result (λ list. list.items ≡ spec.any_entries moved.now (length moved.now.items)) }
{
    let mut list = Vec::new(alloc);
    'entries: for k in 0..moved.items().len() {
        list.push(entry_at(moved, k))?;
    }
    Ok(list)
}

/// How many bytes a moved instruction has in a form.
fn any_form_len(bits: Bits, item: &AnyItem, form: Form) -> u64
    ensures value { result ≡ spec.any_form_length bits item.now form }
    ensures small { result < 256 }
{
    match item {
        AnyItem::Listed(placed) => form_len(bits, &placed.instr, form),
        AnyItem::Unlisted(own) => u64::from(own.shape.len),
    }
}

/// How many bytes moved instructions have, up to the end of the last one.
#[tactic(auto, unfolding(crate::specs::UnlistedMoves::any_code_len))]
fn any_code_len(bits: Bits, moved: &MovedAnyCode, new: u64) -> u64
    ensures { result ≡ spec.any_code_len bits moved.now new }
{
    let items = moved.items();
    if items.is_empty() {
        return 0;
    }
    let last = items.len() - 1;
    let offset = moved.starts()[last].saturating_sub(new);
    offset.wrapping_add(any_form_len(bits, &items[last], moved.forms()[last]))
}

/// Reads some code and moves it, in a mode.
fn move_in(
    alloc: Global,
    bits: Bits,
    old: u64,
    bytes: &[u8],
    new: u64,
) -> Result<MovedUnlisted, MoveRefusal>
    ensures { spec.IsUnlistedMoveIn bits old bytes.now new result }
{
    if bytes.len() > MOST {
        return Err(MoveRefusal::TooLarge);
    }
    match move_code_unlisted(alloc, bits, old, bytes, new) {
        Ok(moved) => {
            let Ok(entries) = entries_of(alloc, &moved) else {
                return Err(move_refusal(MoveCodeError::Memory));
            };
            let code_len = any_code_len(bits, &moved, new);
            Ok(MovedUnlisted {
                moved,
                code_len,
                entries,
            })
        }
        Err(why) => Err(move_refusal(why)),
    }
}

/// Reads some code and moves it.
fn moved_unlisted(
    alloc: Global,
    bits: u32,
    old: u64,
    bytes: &[u8],
    new: u64,
) -> Result<MovedUnlisted, MoveRefusal>
    ensures { spec.IsUnlistedMoveAnswer (bits_numbered bits) old bytes.now new result }
{
    match bits_numbered(bits) {
        None => Err(MoveRefusal::Mode),
        Some(bits) => move_in(alloc, bits, old, bytes, new),
    }
}

/// The offset of the first slot, and the number of bytes if there is none.
fn slots_offset(moved: &MovedAnyCode) -> u64
    ensures { result ≡ spec.any_slots_offset moved.now }
{
    let slots = moved.slots().len() as u64;
    (moved.bytes().len() as u64).saturating_sub(8 * slots)
}

/// Returns the report of a result.
fn report_of(answer: &Result<MovedUnlisted, MoveRefusal>) -> FlatMove
    ensures { result ≡ spec.unlisted_report answer.now }
{
    match answer {
        Ok(m) => FlatMove {
            bytes: m.moved.bytes().len() as u64,
            count: m.entries.len() as u64,
            code_bytes: m.code_len,
            slots_at: slots_offset(&m.moved),
            ..NOTHING
        },
        Err(why) => refusal_report(*why),
    }
}

/// Writes the moved bytes and the map, if both buffers are large enough.
#[tactic(auto, unfolding(crate::specs::UnlistedMoves::unlisted_within))]
fn put_moved(
    answer: &Result<MovedUnlisted, MoveRefusal>,
    out: &mut [u8],
    map: &mut [FlatMoved],
) -> i32
    ensures said { result ≡ spec.unlisted_said (spec.unlisted_within (length out.old) (length map.old) answer.now) }
    ensures bytes { out.new ≡ spec.unlisted_bytes_left out.old (spec.unlisted_within (length out.old) (length map.old) answer.now) }
    ensures entries { map.new ≡ spec.unlisted_entries_left map.old (spec.unlisted_within (length out.old) (length map.old) answer.now) }
{
    match answer {
        Ok(m) => {
            let bytes = m.moved.bytes();
            if bytes.len() > out.len() || m.entries.len() > map.len() {
                return refusal_status(Refusal::Room);
            }
            write_front(out, bytes);
            write_entries(map, &m.entries);
            0
        }
        Err(why) => refusal_status(refusal_of(*why)),
    }
}

/// Moves code to another address, with the instructions that the opcode table leaves out. A branch to a moved instruction follows it.
pub fn move_unlisted(
    alloc: Global,
    bits: u32,
    old: u64,
    bytes: &[u8],
    new: u64,
    out: &mut [u8],
    map: &mut [FlatMoved],
    report: &mut FlatMove,
) -> i32
    ensures { spec.IsUnlistedMove bits old bytes.now new out.old out.new map.old map.new report.new result }
{
    let answer = moved_unlisted(alloc, bits, old, bytes, new);
    *report = report_of(&answer);
    put_moved(&answer, out, map)
}
