//! What the lines of a text add to a routine in a round.

ghost use Rattle.std.specs.Prelude.{◌≡◌, ◌⊎◌, ◌<◌, ◌≤◌, length, true, false, IfOk, IfErr, IfSome, OnOk, MatchOption, MatchResult, Some, None};
ghost use Rattle.code_assembler.specs.Built.{with_item, with_labels, push_refusal};
ghost use Rattle.code_assembler.specs.declared.error.BuildError.TheVariants.{Memory};
ghost use Rattle.assembly_text.specs.declared.code.Code.{Code};
ghost use Rattle.assembly_text.specs.Constants.{bad_from};
ghost use Rattle.assembly_text.specs.Known.{IsFor, AreKnown};
ghost use Rattle.assembly_text.specs.Labels.{begins_label as begins_at};
ghost use Rattle.assembly_text.specs.Lines as lines;
ghost use Rattle.assembly_text.specs.Names as names;
ghost use Rattle.assembly_text.specs.Origins.{IsBuilt};
ghost use Rattle.assembly_text.specs.Padding.{is_align as is_align_word};
ghost use Rattle.assembly_text.specs.Placing.{view_of, zeroed as zero_view, placed as placed_in, placed_text as text_in};
ghost use Rattle.assembly_text.specs.Rounds as rounds;
ghost use Rattle.assembly_text.specs.Text as spec;

use crate::code::{Code, PreparedCode, found_code, prepared, unprepared};
use crate::constants::bad_name;
use crate::data::{data_width, put_data};
use crate::kept::{KeptTexts, free_code, read_kept};
use crate::known::{Known, code_before, keep};
use crate::labels::{Labels, begins_label, is_label_name, label_named};
use crate::line::{
    LineParts, begins_name, body_column, first_line, line_parts, name_at, shown_column,
    without_name,
};
use crate::names::{behind_word, first_word};
use crate::numbers::{freed, placed, resolved};
use crate::origins::{Built, Origin, no_origins, note};
use crate::padding::{alignment_in, gap, is_align, padding};
use crate::placing::{is_nothing, is_unfit, is_whole, placed_code, placed_text, unknown_in};
use crate::round::{Round, Trace, no_trace, place_at, zeroed};
use crate::text_error::{AssembleError, LineError};
use code_assembler::{Assembler, BuildError, Label, Prepared};
use intel_reader::read_with_bytes;
use move_goals::moved_targets::target_of;
use std::alloc::{AllocError, Global};
use x86_values::{Bits, Instr};

/// How many labels a text has at most.
const MOST_LABELS: usize = 65_536;

/// How many items of a routine get room at once at most.
const MOST_ROOM: usize = 65_536;

/// How many bytes of a text there are for each item that gets room at once.
const BYTES_EACH: usize = 16;

/// The instruction with 0x0 in place of the name at a place, if there is one that goes somewhere.
fn instr_at(
    alloc: Global,
    kept: &mut KeptTexts,
    bits: Bits,
    text: &[u8],
    at: usize,
) -> Result<Option<Instr>, AllocError>
    requires { at ≤ length text.now }
    ensures { IfOk result (λ found. MatchOption found (spec.IsNotNamed bits text.now at) (λ i. spec.IsAimedAt bits text.now at i)) }
{
    let other = without_name(alloc, text, at)?;
    match read_kept(kept, bits, &other) {
        Some(instr) => {
            if target_of(&instr).is_some() {
                Ok(Some(instr))
            } else {
                Ok(None)
            }
        }
        None => Ok(None),
    }
}

/// The instruction with 0x0 in place of the name at a place, if one that may be that of a label begins there and the instruction goes somewhere.
fn named_at(
    alloc: Global,
    kept: &mut KeptTexts,
    bits: Bits,
    text: &[u8],
    at: usize,
) -> Result<Option<Instr>, AllocError>
    requires { at ≤ length text.now }
    ensures { IfOk result (λ found. MatchOption found (begins_at text.now at ≡ true → spec.IsNotNamed bits text.now at)
        (λ i. (begins_at text.now at ≡ true) × spec.IsAimedAt bits text.now at i)) }
{
    let begins = begins_label(alloc, text, at)?;
    if begins {
        instr_at(alloc, kept, bits, text, at)
    } else {
        Ok(None)
    }
}

/// The first name with which a text stands for an instruction that goes somewhere.
fn named_in(
    alloc: Global,
    kept: &mut KeptTexts,
    bits: Bits,
    text: &[u8],
) -> Result<Option<(usize, Instr)>, AllocError>
    ensures { IfOk result (λ found. MatchOption found (spec.IsUnnamed bits text.now) (λ named. spec.IsNamed bits text.now named.0 named.1)) }
{
    'places: for at in 0..text.len() {
        if !begins_name(text, at) {
            continue;
        }
        let found = named_at(alloc, kept, bits, text, at)?;
        match found {
            Some(instr) => return Ok(Some((at, instr))),
            None => {}
        }
    }
    Ok(None)
}

/// What a text stands for that `asm` does not read.
fn further_code(
    alloc: Global,
    kept: &mut KeptTexts,
    bits: Bits,
    base: u64,
    text: &[u8],
) -> Result<Code, AllocError>
    ensures { IfOk result (λ code. spec.IsFurtherCode bits base text.now code) }
{
    let named = named_in(alloc, kept, bits, text)?;
    match named {
        Some((at, instr)) => Ok(Code::Named(at, instr)),
        None => free_code(alloc, kept, bits, base, text),
    }
}

/// What a text stands for, with its instruction prepared.
fn code_in(
    alloc: Global,
    kept: &mut KeptTexts,
    bits: Bits,
    base: u64,
    text: &[u8],
) -> Result<PreparedCode, AllocError>
    ensures code { IfOk result (λ read. spec.IsCode bits base text.now read.code) }
    ensures ready { IfOk result (λ read. IsFor bits read.code read.ready) }
{
    match read_with_bytes(bits, base, text) {
        Ok(found) => Ok(found_code(bits, base, found)),
        Err(_) => {
            let code = further_code(alloc, kept, bits, base, text)?;
            Ok(prepared(bits, code))
        }
    }
}

/// What became of a line by what the routine said.
fn told(answer: Result<(), BuildError>) -> Result<Option<LineError>, AllocError>
    ensures { result ≡ spec.told answer }
{
    match answer {
        Ok(()) => Ok(None),
        Err(BuildError::Memory) => Err(AllocError),
        Err(why) => Ok(Some(LineError::Refused { why })),
    }
}

/// Adds an instruction, which may be prepared.
fn push_instr(
    routine: &mut Assembler,
    instr: &Instr,
    ready: &Option<Prepared>,
) -> Result<(), BuildError>
    requires { IfSome ready.now (λ it. it.instr ≡ instr.now) }
    ensures state { OnOk result ((push_refusal routine.old instr.now None ≡ None) × (routine.new ≡ with_item routine.old instr.now None)) }
    ensures cause { IfErr result (λ why. (push_refusal routine.old instr.now None ≡ Some why) ⊎ (why ≡ Memory)) }
{
    match ready {
        None => routine.push(instr),
        Some(it) => routine.push_prepared(it),
    }
}

/// Adds an instruction that goes to a label. It may be prepared.
fn push_instr_to(
    routine: &mut Assembler,
    instr: &Instr,
    ready: &Option<Prepared>,
    label: Label,
) -> Result<(), BuildError>
    requires { IfSome ready.now (λ it. it.instr ≡ instr.now) }
    ensures state { OnOk result ((push_refusal routine.old instr.now (Some label.number) ≡ None)
        × (routine.new ≡ with_item routine.old instr.now (Some label.number))) }
    ensures cause { IfErr result (λ why. (push_refusal routine.old instr.now (Some label.number) ≡ Some why) ⊎ (why ≡ Memory)) }
{
    match ready {
        None => routine.push_to(instr, label),
        Some(it) => routine.push_prepared_to(it, label),
    }
}

/// Adds what a text stands for.
#[inline(always)]
fn push_code(
    routine: &mut Assembler,
    labels: &Labels<'_>,
    body: &[u8],
    read: &PreparedCode,
) -> Result<Option<LineError>, AllocError>
    requires { IsFor routine.old.bits read.now.code read.now.ready }
    ensures { IfOk result (λ refused. MatchOption refused (spec.AddsCode (lines.lines_in labels.now.text.now) body.now read.now.code routine.old routine.new)
        (λ why. spec.RefusesCode (lines.lines_in labels.now.text.now) body.now read.now.code routine.old why)) }
{
    match &read.code {
        Code::Plain(instr) => told(push_instr(routine, instr, &read.ready)),
        Code::Named(at, instr) => {
            match label_named(routine, labels, name_at(body, *at)) {
                None => Ok(Some(LineError::UnknownName)),
                Some(label) => told(push_instr_to(routine, instr, &read.ready, label)),
            }
        }
        Code::Unsized => Ok(Some(LineError::SizeNeeded)),
        Code::Nothing => Ok(Some(LineError::NotCode)),
    }
}

/// Places the label of a line.
fn place_label(
    alloc: Global,
    routine: &mut Assembler,
    labels: &Labels<'_>,
    line: &[u8],
    label: Option<&[u8]>,
) -> Result<Option<LineError>, AllocError>
    requires { MatchOption label (lines.label_of line.now ≡ None) (λ name. lines.label_of line.now ≡ Some name.now) }
    ensures { IfOk result (λ refused. MatchOption refused
        (spec.AddsLabel (lines.lines_in labels.now.text.now) (lines.label_of line.now) routine.old routine.new)
        (λ why. spec.RefusesLabel (lines.lines_in labels.now.text.now) (lines.label_of line.now) routine.old why)) }
{
    let name = match label {
        None => return Ok(None),
        Some(name) => name,
    };
    let may = is_label_name(alloc, name)?;
    if !may {
        return Ok(Some(LineError::BadLabel));
    }
    match label_named(routine, labels, name) {
        None => Ok(Some(LineError::UnknownName)),
        Some(label) => told(routine.place(label)),
    }
}

/// Whether a text is data with 0 as the address of each label.
fn is_ever_data(
    alloc: Global,
    round: &Round<'_, '_, '_>,
    width: usize,
    text: &[u8],
) -> Result<bool, AllocError>
    requires some { 0 < width }
    requires few { width ≤ 8 }
    ensures { IfOk result (λ ever. spec.is_ever_data (view_of round.now) width text.now ≡ ever) }
{
    let other = placed(alloc, &zeroed(round), text)?;
    let mut bytes = Vec::new(alloc);
    put_data(alloc, &mut bytes, width, &other)
}

/// Whether a text is data with 0 in place of each name.
fn is_free_data(alloc: Global, width: usize, text: &[u8]) -> Result<bool, AllocError>
    requires some { 0 < width }
    requires few { width ≤ 8 }
    ensures { IfOk result (λ free. spec.is_free_data width text.now ≡ free) }
{
    let other = freed(alloc, text)?;
    let mut bytes = Vec::new(alloc);
    put_data(alloc, &mut bytes, width, &other)
}

/// Why a text is no data.
fn data_refusal(
    alloc: Global,
    round: &Round<'_, '_, '_>,
    width: usize,
    text: &[u8],
) -> Result<LineError, AllocError>
    requires some { 0 < width }
    requires few { width ≤ 8 }
    ensures { IfOk result (λ why. why ≡ spec.data_refusal (view_of round.now) width text.now) }
{
    let ever = is_ever_data(alloc, round, width, text)?;
    if ever {
        return Ok(LineError::DoesNotFit);
    }
    let free = is_free_data(alloc, width, text)?;
    Ok(if free {
        LineError::UnknownName
    } else {
        LineError::NotData
    })
}

/// Adds data, each number of which has so many bytes.
fn add_data(
    alloc: Global,
    routine: &mut Assembler,
    round: &Round<'_, '_, '_>,
    trace: &mut Trace,
    width: usize,
    text: &[u8],
) -> Result<Option<LineError>, AllocError>
    requires some { 0 < width }
    requires few { width ≤ 8 }
    ensures { IfOk result (λ refused. MatchOption refused
        (spec.AddsData (view_of round.now) width text.now routine.old routine.new × (trace.new ≡ spec.behind_data (view_of round.now) text.now trace.old))
        (λ why. spec.RefusesData (view_of round.now) width text.now routine.old why)) }
{
    let numbers = placed(alloc, round, text)?;
    let mut bytes = Vec::new(alloc);
    let put = put_data(alloc, &mut bytes, width, &numbers)?;
    if !put {
        let why = data_refusal(alloc, round, width, text)?;
        return Ok(Some(why));
    }
    *trace = Trace {
        after_data: true,
        placed: trace.placed || numbers.as_slice() != text,
    };
    told(routine.bytes(&bytes))
}

/// Adds a label that has its place here, and returns its number.
fn add_mark(routine: &mut Assembler) -> Result<usize, BuildError>
    ensures number { IfOk result (λ number. number ≡ length routine.old.labels) }
    ensures added { OnOk result ((spec.mark_refusal routine.old ≡ None) × (routine.new ≡ spec.with_mark routine.old)) }
    ensures cause { IfErr result (λ why. (spec.mark_refusal routine.old ≡ Some why) ⊎ (why ≡ Memory)) }
{
    let label = routine.label()?;
    routine.place(label)?;
    Ok(label.number() as usize)
}

/// Adds what fills up to an alignment.
fn add_padding(
    alloc: Global,
    routine: &mut Assembler,
    round: &Round<'_, '_, '_>,
    trace: &Trace,
    text: &[u8],
) -> Result<Option<LineError>, AllocError>
    ensures { IfOk result (λ refused. MatchOption refused
        (spec.AddsPadding (view_of round.now) text.now routine.old trace.now routine.new)
        (λ why. spec.RefusesPadding (view_of round.now) text.now routine.old trace.now why)) }
{
    let bits = routine.bits();
    let alignment = alignment_in(alloc, text)?;
    let n = match alignment {
        None => return Ok(Some(LineError::BadAlignment)),
        Some(n) => n,
    };
    let label = match add_mark(routine) {
        Ok(label) => label,
        Err(BuildError::Memory) => return Err(AllocError),
        Err(why) => return Ok(Some(LineError::Refused { why })),
    };
    let count = gap(n, place_at(round, label));
    let bytes = padding(alloc, bits, trace.after_data, count as usize)?;
    told(routine.bytes(&bytes))
}

/// Why a text is no instruction with addresses in place of the names of labels.
fn unfit_refusal(
    alloc: Global,
    bits: Bits,
    round: &Round<'_, '_, '_>,
    text: &[u8],
) -> Result<LineError, AllocError>
    ensures { IfOk result (λ why. spec.IsUnplaced bits (view_of round.now) text.now why) }
{
    let unfit = is_unfit(alloc, bits, round, text)?;
    if unfit {
        return Ok(LineError::DoesNotFit);
    }
    unknown_in(alloc, bits, round.base, text)
}

/// Adds what a text stands for with addresses in place of the names of labels.
fn add_placed(
    alloc: Global,
    routine: &mut Assembler,
    round: &Round<'_, '_, '_>,
    body: &[u8],
    placed: &[u8],
) -> Result<Option<LineError>, AllocError>
    requires { placed.now ≡ text_in (view_of round.now) body.now }
    ensures { IfOk result (λ refused. MatchOption refused
        (spec.AddsPlaced (view_of round.now) body.now routine.old routine.new)
        (λ why. spec.RefusesPlaced (view_of round.now) body.now routine.old why)) }
{
    let bits = routine.bits();
    let code = placed_code(alloc, bits, round.base, body, placed)?;
    if is_nothing(&code) {
        let why = unfit_refusal(alloc, bits, round, body)?;
        return Ok(Some(why));
    }
    push_code(routine, round.labels, placed, &unprepared(code))
}

/// Adds what a text stands for that has no names of labels.
fn add_closed(
    alloc: Global,
    routine: &mut Assembler,
    round: &Round<'_, '_, '_>,
    body: &[u8],
    read: &PreparedCode,
) -> Result<Option<LineError>, AllocError>
    requires { IsFor routine.old.bits read.now.code read.now.ready }
    ensures { IfOk result (λ refused. MatchOption refused (spec.AddsCode (view_of round.now).all body.now read.now.code routine.old routine.new)
        (λ why. spec.RefusesClosed (view_of round.now) body.now read.now.code routine.old why)) }
{
    if is_nothing(&read.code) {
        let why = unknown_in(alloc, routine.bits(), round.base, body)?;
        return Ok(Some(why));
    }
    push_code(routine, round.labels, body, read)
}

/// Adds what a text stands for.
#[inline(always)]
fn add_read(
    alloc: Global,
    routine: &mut Assembler,
    round: &Round<'_, '_, '_>,
    trace: &mut Trace,
    body: &[u8],
    read: &PreparedCode,
) -> Result<Option<LineError>, AllocError>
    requires read { spec.IsCode routine.old.bits (view_of round.now).base body.now read.now.code }
    requires prepared { IsFor routine.old.bits read.now.code read.now.ready }
    ensures { IfOk result (λ refused. MatchOption refused
        (spec.AddsStated (view_of round.now) body.now routine.old trace.old routine.new trace.new)
        (λ why. spec.RefusesStated (view_of round.now) body.now routine.old why)) }
{
    trace.after_data = false;
    if is_whole(&read.code) {
        return push_code(routine, round.labels, body, read);
    }
    let placed = placed_text(alloc, round, body)?;
    if placed.as_slice() == body {
        return add_closed(alloc, routine, round, body, read);
    }
    trace.placed = true;
    add_placed(alloc, routine, round, body, &placed)
}

/// Adds an instruction that was not read before.
fn add_code(
    alloc: Global,
    routine: &mut Assembler,
    round: &Round<'_, '_, '_>,
    trace: &mut Trace,
    known: &mut Known,
    body: &[u8],
) -> Result<Option<LineError>, AllocError>
    requires no_data { spec.width_of body.now ≡ 0 }
    requires no_align { is_align_word (names.first_word body.now) ≡ false }
    requires known { AreKnown known.old }
    ensures told { IfOk result (λ refused. MatchOption refused
        (spec.AddsStated (view_of round.now) body.now routine.old trace.old routine.new trace.new)
        (λ why. spec.RefusesStated (view_of round.now) body.now routine.old why)) }
    ensures known { AreKnown known.new }
{
    let bits = routine.bits();
    let read = code_in(alloc, &mut known.kept, bits, round.base, body)?;
    let refused = add_read(alloc, routine, round, trace, body, &read)?;
    keep(known, bits, round.base, body, read);
    Ok(refused)
}

/// Adds what the words of a line say that is no data.
fn add_further(
    alloc: Global,
    routine: &mut Assembler,
    round: &Round<'_, '_, '_>,
    trace: &mut Trace,
    known: &mut Known,
    body: &[u8],
) -> Result<Option<LineError>, AllocError>
    requires no_data { spec.width_of body.now ≡ 0 }
    requires known { AreKnown known.old }
    ensures told { IfOk result (λ refused. MatchOption refused
        (spec.AddsFurther (view_of round.now) body.now routine.old trace.old routine.new trace.new)
        (λ why. spec.RefusesFurther (view_of round.now) body.now routine.old trace.old why)) }
    ensures known { AreKnown known.new }
{
    let align = is_align(alloc, first_word(body))?;
    if align {
        let refused = add_padding(alloc, routine, round, trace, behind_word(body))?;
        trace.placed = true;
        Ok(refused)
    } else {
        add_code(alloc, routine, round, trace, known, body)
    }
}

/// Adds what the words of a line say.
fn add_words(
    alloc: Global,
    routine: &mut Assembler,
    round: &Round<'_, '_, '_>,
    trace: &mut Trace,
    known: &mut Known,
    body: &[u8],
) -> Result<Option<LineError>, AllocError>
    requires known { AreKnown known.old }
    ensures told { IfOk result (λ refused. MatchOption refused
        (spec.AddsWords (view_of round.now) body.now routine.old trace.old routine.new trace.new)
        (λ why. spec.RefusesWords (view_of round.now) body.now routine.old trace.old why)) }
    ensures known { AreKnown known.new }
{
    let bits = routine.bits();
    if let Some(read) = code_before(known, bits, round.base, body) {
        return add_read(alloc, routine, round, trace, body, read);
    }
    let width = data_width(first_word(body));
    if width > 0 {
        add_data(alloc, routine, round, trace, width, behind_word(body))
    } else {
        add_further(alloc, routine, round, trace, known, body)
    }
}

/// Adds what a line says besides its label.
fn add_body(
    alloc: Global,
    routine: &mut Assembler,
    round: &Round<'_, '_, '_>,
    trace: &mut Trace,
    known: &mut Known,
    body: &[u8],
) -> Result<Option<LineError>, AllocError>
    requires known { AreKnown known.old }
    ensures told { IfOk result (λ refused. MatchOption refused
        (spec.AddsBody (view_of round.now) body.now routine.old trace.old routine.new trace.new)
        (λ why. spec.RefusesBody (view_of round.now) body.now routine.old trace.old why)) }
    ensures known { AreKnown known.new }
{
    if body.is_empty() {
        return Ok(None);
    }
    if round.names.is_empty() {
        return add_words(alloc, routine, round, trace, known, body);
    }
    let words = resolved(alloc, round.names, body)?;
    add_words(alloc, routine, round, trace, known, &words)
}

/// Adds a line, which has these parts.
fn add_line(
    alloc: Global,
    routine: &mut Assembler,
    round: &Round<'_, '_, '_>,
    trace: &mut Trace,
    known: &mut Known,
    line: &[u8],
    parts: &LineParts<'_>,
) -> Result<Option<LineError>, AllocError>
    requires shown { parts.now.shown.now ≡ lines.shown line.now }
    requires label { MatchOption parts.now.label (lines.label_of parts.now.shown.now ≡ None) (λ name. lines.label_of parts.now.shown.now ≡ Some name.now) }
    requires body { parts.now.body.now ≡ lines.body_of parts.now.shown.now }
    requires known { AreKnown known.old }
    ensures told { IfOk result (λ refused. MatchOption refused
        (spec.AddsLine (view_of round.now) line.now routine.old trace.old routine.new trace.new)
        (λ why. spec.RefusesLine (view_of round.now) line.now routine.old trace.old why)) }
    ensures known { AreKnown known.new }
{
    let refused = place_label(alloc, routine, round.labels, parts.shown, parts.label)?;
    match refused {
        Some(why) => Ok(Some(why)),
        None => add_body(alloc, routine, round, trace, known, parts.body),
    }
}

/// The column of what is refused in a line.
#[tactic(auto, unfolding(crate::specs::Text::column_of))]
fn column_of(line: &[u8], why: LineError) -> usize
    ensures { result ≡ spec.column_of line.now why }
{
    match why {
        LineError::BadLabel => shown_column(line),
        LineError::Refused {
            why: BuildError::PlacedTwice { .. },
        } => shown_column(line),
        _ => body_column(line),
    }
}

/// A routine with so many labels, with room for the items of so many bytes of text.
fn with_room(
    alloc: Global,
    bits: Bits,
    labels: usize,
    bytes: usize,
) -> Result<Assembler, BuildError>
    ensures { IfOk result (λ routine. routine ≡ with_labels bits labels) }
{
    let mut routine = Assembler::with_labels(alloc, bits, labels)?;
    routine.reserve((bytes / BYTES_EACH).min(MOST_ROOM))?;
    Ok(routine)
}

/// The routine of the lines of a text in a round, or why there is none.
fn routine_of(
    alloc: Global,
    bits: Bits,
    round: &Round<'_, '_, '_>,
    known: &mut Known,
) -> Result<Built, AssembleError>
    requires good { bad_from (view_of round.now).names 0 ≡ None }
    requires known { AreKnown known.old }
    ensures told { MatchResult result (λ built. IsBuilt bits (view_of round.now) built.routine built.trace built.origins.lines.items)
        (λ why. rounds.IsNoRoutine bits (view_of round.now) why) }
    ensures known { AreKnown known.new }
{
    let count = round.labels.count;
    if count > MOST_LABELS {
        return Err(AssembleError::TooManyLabels);
    }
    let mut routine = match with_room(alloc, bits, count, round.labels.text.len()) {
        Ok(routine) => routine,
        Err(_) => return Err(AssembleError::NoMemory),
    };
    let mut trace = no_trace();
    let mut origins = no_origins(alloc);
    let mut rest = round.labels.text;
    let mut number: u64 = 0;
    'lines: while !rest.is_empty() {
        let (line, behind, kind) = first_line(rest);
        let parts = line_parts(line, kind);
        number += 1;
        let refused = match add_line(alloc, &mut routine, round, &mut trace, known, line, &parts) {
            Ok(refused) => refused,
            Err(_) => return Err(AssembleError::NoMemory),
        };
        match refused {
            None => {
                let origin = Origin {
                    end: routine.len(),
                    number,
                    column: parts.column as u64,
                };
                match note(&mut origins, origin) {
                    Ok(()) => rest = behind,
                    Err(_) => return Err(AssembleError::NoMemory),
                }
            }
            Some(why) => {
                return Err(AssembleError::AtLine {
                    number,
                    column: column_of(line, why) as u64,
                    why,
                });
            }
        }
    }
    Ok(Built {
        routine,
        trace,
        origins,
    })
}

/// The routine of a text with names in a round, or why there is none.
pub(crate) fn named_routine(
    alloc: Global,
    bits: Bits,
    round: &Round<'_, '_, '_>,
    known: &mut Known,
) -> Result<Built, AssembleError>
    requires known { AreKnown known.old }
    ensures told { MatchResult result (λ built. IsBuilt bits (view_of round.now) built.routine built.trace built.origins.lines.items)
        (λ why. rounds.IsNoRoutine bits (view_of round.now) why) }
    ensures known { AreKnown known.new }
{
    let bad = match bad_name(alloc, round.names) {
        Ok(bad) => bad,
        Err(_) => return Err(AssembleError::NoMemory),
    };
    match bad {
        Some(number) => Err(AssembleError::AtName { number }),
        None => routine_of(alloc, bits, round, known),
    }
}
