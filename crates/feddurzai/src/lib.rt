//! x86 instructions of 16, 32 and 64-bit code: decoding, encoding, printing, analysis and moving. This one crate is all that a client depends on.
//!
//! Each module re-exports the calls of one subject. Their contracts are stated and proved in the crates that define them.
#![tactic(auto)]

pub mod codes;
mod columns;
mod intel;
mod reached;
mod stepping;

/// Registers, operands and instructions as data.
pub mod values {
    pub use x86_values::{
        Bits, Code, Decoded, DispSize, Instr, Mem, Operand, Register, Rep, Segment, laws, same,
        wrap,
    };
}

/// Decoding: whole code, single instructions, consecutive items, and the parts of an instruction. `laws` states that no bytes have two spellings, and
/// `reading_laws` that they have one reading.
pub mod decoding {
    pub use code_items::{
        AnyItem, CodeItem, CodeItems, CodeIter, ReadError, UnlistedItem, read_any_items, read_items,
    };
    pub use decoder::{
        DecodeError, Decoder, Item, Items, decode, decode_counted, decode_in, laws, reading_laws,
    };
    pub use modrm_sib::{
        TailError, UNREAD, modrm_of_byte, read_operands, read_row, read_row_into, sib_of_byte,
    };
    pub use prefixes::{
        NO_FRONT, PrefixError, mode_of, read_front, read_front_into, read_prefixes,
    };
    pub use step_count::Steps;
}

/// Where prefixes, opcode, ModRM, SIB, displacement and each immediate lie in an instruction's bytes.
pub mod parts {
    pub use decoder::byte_offsets::{ByteOffsets, Part, laws, offsets};
}

/// Instructions that the opcode table leaves out: their lengths, by the encoding formats alone, where control goes after them, and the addresses that they
/// refer to.
pub mod measuring {
    pub use unlisted::{
        Kind, MeasureError, Reference, Relative, Shape, ShapeFlow, laws, measure, target,
    };
}

/// Writing instructions: the shortest bytes of one, and its parts.
pub mod encoding {
    pub use encoder::{NoSpelling, encode, encoded_len, laws};
    pub use modrm_sib::{write_operands, write_tail};
    pub use prefixes::write_prefixes;
    pub use row_relation::{
        append_lead, append_plain_tail, append_tail, plain_front, spelling_bytes,
    };
}

/// Assembling: the instruction that an Intel text stands for, and its bytes; and routines of instructions and labels. `Assembler` puts one together, and
/// `finish` gives its bytes in the least layout.
pub mod assembling {
    pub use assembly_text::{
        AssembleError, LabelLine, LineError, Rules, assemble_code, assemble_code_by,
        assemble_code_with, label_lines, laws as text_laws,
    };
    pub use code_assembler::{Assembled, Assembler, BuildError, FinishError, Label, Prepared};
    pub use intel_reader::{TextError, assemble, laws, read_intel};
}

/// The text of instructions and registers in three styles, its pieces, and the text by options and with symbols, whose laws are `option_laws`. `ascii_str`
/// makes a `str` of a text.
pub mod format {
    pub use crate::intel::Intel;
    pub use att_text::{print as print_att, print_to as print_att_to};
    pub use intel_text::{print as print_intel, print_to as print_intel_to};
    pub use masm_text::{print as print_masm, print_to as print_masm_to};
    pub use text_options::options::{
        Absolutes, Commas, Comments, Digits, Distances, Immediates, Letters, Names, Options,
        RipOperands, SizeWords, SymbolPlace,
    };
    pub use text_options::symbols::{NoSymbols, Symbol, Symbols};
    pub use text_options::{laws as option_laws, text_of_code, text_with};
    pub use text_parts::registers::{register_text, segment_name};
    pub use text_parts::style::Style;
    pub use text_parts::text::{Text, ascii_str};
    pub use text_pieces::piece::{Kind, Number, PIECES, Piece, Pieces, Printed, Role};
    pub use text_pieces::{pieces, print_pieces};
}

/// What an instruction does: its flow, the access of its operands, its registers, memory and flags, implied ones too, its targets and features. What ends
/// in `_of_instr` takes an instruction, the others with its name a code; `laws` has that the code of a well-formed instruction is one of the table.
pub mod info {
    pub use crate::columns::{access_of_instr, flow_of_instr, memory_size_of_instr};
    pub use instruction_info::{
        AccessKind, Features, FlagSet, FlagUse, MemoryUse, RegisterUse, all_memory, all_registers,
        features_of, flags_of, full_register, laws as effect_laws, needed_features, used_features,
    };
    pub use operand_info::{
        Access, Flow, RegUse, access_of, flow_of, ip_operand, laws, memory_size, near_target,
        used_registers,
    };
}

/// The rows of the table, by code, name and opcode byte, and their notation. `mnemonic` is `name`; `notation_laws` has that a row's notation is read
/// back as its shape.
pub mod rows {
    pub use instruction_parts::row_types::{
        Class, ImmWord, LBit, Map, Marks, ModRmRule, ModeMask, OpKind, Place, Plus, PlusWord, Row,
        RowKind, RowShape, Size, SizeWord, WBit,
    };
    pub use opcode_rows::{
        ROWS, VERSION1_ROWS, cell_len, code_of, first_of, laws, name, name as mnemonic, row,
        row_of, well_formed,
    };
    pub use row_notation::{NotationFault, read_notation, shape_of, write_notation};
    pub use row_relation::{
        ModRm, PrefixState, Sib, Spelling, Vex, row_fits, row_meaning, row_memory_size,
    };
    pub use text_rows::row_lines::{laws as notation_laws, notation_of, row_line};
}

/// Moving code to other addresses. `move_code` takes bytes, `move_code_unlisted` also those of instructions that the opcode table leaves out, `move_items`
/// decoded instructions, and the other calls instructions that some bytes spell. The plan of branches and its least layout are exported too; a `Branch`
/// has its choices in an `ArrayVec`.
pub mod moving {
    pub use arrayvec::ArrayVec;
    pub use block_encoder::{
        BlockSpan, Form, MoveError, Moved, MovedBlocks, Placed, last_len, laws, move_block,
        move_blocks, move_outside,
    };
    pub use branch_sizes::{
        Branch, Choice, Goal, LayoutError, Plan, Reach, Sums, laws as layout_laws, least_layout,
        places,
    };
    pub use code_items::{
        MoveCodeError, MovedAnyCode, MovedCode, any_laws, move_code, move_code_unlisted, move_items,
    };
}

/// Places for code in a fixed range of addresses.
pub mod region {
    pub use code_region::{
        Command, FillError, NotTaken, OpenError, PlaceError, Region, Reply, laws, replay,
    };
}

/// Slots for displaced single stepping: an instruction elsewhere, and the jump back. `step_code` takes bytes, and `step_at` makes the same block at a
/// place of the caller's. `done_len` returns from which byte of that block on the instruction has happened. `step_call_at` makes the block of a near CALL
/// that pushes the CALL's own return address, of the instructions that `pushed_call` returns; `pushed_laws` has what they do. `step_unlisted_at` makes the
/// block of an instruction that the opcode table leaves out.
pub mod slots {
    pub use crate::stepping::{StepCodeError, step_code};
    pub use block_encoder::pushed_calls::{PushedCall, laws as pushed_laws, pushed_call};
    pub use step_slots::{
        CallError, StandError, StepCommand, StepError, StepReply, StepSlot, StepSlots,
        UnlistedStep, UnlistedStepError, done_len, laws, pushed_len, replay, step_at, step_call_at,
        step_len, step_unlisted_at,
    };
}

/// Listings of any input, line by line, and the ports that they connect: over memory, over the readers and writers of std, and for tests. `laws` is
/// about the streams, `sweep_laws` about the items of some bytes.
pub mod streams {
    pub use byte_ports::{
        CountSink, FailAt, Failed, MakeError, MemSink, MemSource, ReaderSource, Sink, SlowSource,
        Source, WriterSink,
    };
    pub use sweep::sweep_text::laws as sweep_laws;
    pub use sweep::{
        Lines, ListError, StreamError, Style, info_stream, laws, list_stream, recode_stream,
        stream_lines,
    };
}

/// The offsets that control reaches, and their basic blocks.
pub mod flow {
    pub use crate::reached::{
        CodeGraphError, graph_of_code, graph_of_code_following, graph_of_code_from,
    };
    pub use flow_graph::{
        FlowError, FlowGraph, Follow, flow_graph, flow_graph_following, flow_graph_from,
        flow_graph_in, laws,
    };
}

/// Hooks: what is written over the first bytes of a function, and the trampoline that does what they did; and those that are live, with their trampolines in
/// a range of addresses. `laws` has that these stay apart, each with its bytes, after any list of installs and removals. `look` returns what is seen of the
/// function: how far control can be followed, and what goes into the overwritten bytes; `sight_laws` is about that. `detour_with` makes a detour only
/// where nothing that is seen speaks against it. `detour_len` returns how many bytes are enough for its trampoline at any place. `writes_of` returns the order
/// in which bytes are written over code that other processors may run.
pub mod hooks {
    pub use detour::hook_slots::{
        Hook, HookCommand, HookReply, Hooks, InstallError, MakeError, RemoveError, laws, replay,
    };
    pub use detour::lengths::{MAX_TRAMPOLINE, detour_len, trampolines_are_short};
    pub use detour::writes::{Write, writes_of};
    pub use detour::{
        Detour, DetourError, HookRules, JumpForm, KeepError, KeptDetour, PaddedDetour,
        PaddingError, Parts, RuleError, SeenDetour, StartTarget, detour, detour_keeping_endbr,
        detour_through_padding, detour_unlisted, detour_with,
    };
    pub use flow_graph::hook_sight::{
        Passage, Sight, SightEnd, StartRule, View, laws as sight_laws, look,
    };
}
