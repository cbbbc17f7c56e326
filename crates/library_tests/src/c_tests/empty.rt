//! Structs of which nothing is written yet.

use c_calls::flat::{
    FlatBlocks, FlatDetour, FlatHook, FlatInfo, FlatInstr, FlatLabel, FlatMemoryUse, FlatMove,
    FlatMoved, FlatMovedStart, FlatOffsets, FlatOperand, FlatPart, FlatPlace, FlatRoutine,
    FlatShape, FlatStep, FlatTouched, FlatUse, FlatView,
};

const NO_OPERAND: FlatOperand = FlatOperand {
    value: 0,
    offset: 0,
    selector: 0,
    kind: 0,
    reg_class: 0,
    reg_number: 0,
    index_class: 0,
    index_number: 0,
    scale: 0,
    disp_bits: 0,
};

pub(crate) const NO_INSTR: FlatInstr = FlatInstr {
    op0: NO_OPERAND,
    op1: NO_OPERAND,
    op2: NO_OPERAND,
    op3: NO_OPERAND,
    code: 0,
    len: 0,
    lock: 0,
    rep: 0,
    segment: 0,
    asize: 0,
};

const NO_PART: FlatPart = FlatPart { at: 0, len: 0 };

pub(crate) const NO_PARTS: FlatOffsets = FlatOffsets {
    prefixes: NO_PART,
    lead: NO_PART,
    opcode: NO_PART,
    modrm: NO_PART,
    sib: NO_PART,
    displacement: NO_PART,
    immediate0: NO_PART,
    immediate1: NO_PART,
    immediate2: NO_PART,
    immediate3: NO_PART,
};

/// A kind that is none, so that a call that leaves it is seen.
pub(crate) const NO_SHAPE: FlatShape = FlatShape {
    distance: 0,
    kind: 9,
    reference: 0,
    at: 0,
    len: 0,
};

pub(crate) const NO_USE: FlatUse = FlatUse {
    reg_class: 0,
    reg_number: 0,
    access: 0,
};

/// A flow that is none, so that a call that leaves it is seen.
pub(crate) const NO_INFO: FlatInfo = FlatInfo {
    target: 0,
    ip_address: 0,
    has_target: 0,
    has_ip_address: 0,
    flow: 9,
    memory_size: 0,
    access: [0; 4],
    use_count: 0,
    uses: [NO_USE; 8],
};

const NO_MEMORY: FlatMemoryUse = FlatMemoryUse {
    displacement: 0,
    size: 0,
    segment: 0,
    base_class: 0,
    base_number: 0,
    index_class: 0,
    index_number: 0,
    scale: 0,
    access: 0,
};

/// Sets and counts that `push` does not have.
pub(crate) const UNTOLD: FlatTouched = FlatTouched {
    features: 1,
    flags_read: 1,
    flags_written: 1,
    flags_cleared: 1,
    flags_set: 1,
    flags_undefined: 1,
    flags_kept: 1,
    memory: [NO_MEMORY; 4],
    registers: [NO_USE; 32],
    memory_count: 9,
    register_count: 9,
};

pub(crate) const NO_ENTRY: FlatMoved = FlatMoved {
    old_ip: 0,
    new_ip: 0,
    len: 0,
    form: 0,
};

pub(crate) const NO_MOVE: FlatMove = FlatMove {
    bytes: 0,
    count: 0,
    at: 0,
    address: 0,
    code_bytes: 0,
    slots_at: 0,
};

pub(crate) const NO_BLOCKS: FlatBlocks = FlatBlocks {
    bytes: 0,
    count: 0,
    block: 0,
    at: 0,
    address: 0,
};

pub(crate) const NO_PLACE: FlatPlace = FlatPlace {
    end: 0,
    code_bytes: 0,
    count: 0,
};

pub(crate) const NO_DETOUR: FlatDetour = FlatDetour {
    taken: 0,
    bytes: 0,
    jump_back: 0,
    slots_at: 0,
    relay_at: 0,
    at: 9,
    target: 9,
    form: 0,
};

/// Numbers that are none, so that a call that leaves them is seen.
pub(crate) const NO_VIEW: FlatView = FlatView {
    sight_at: 9,
    entered_from: 9,
    entered_target: 9,
    inside: 9,
    suspect_from: 9,
    suspect_target: 9,
    sight: 9,
    is_entered: 9,
    has_inside: 9,
    has_suspect: 9,
};

/// Numbers that are none, so that a call that leaves them is seen.
pub(crate) const NO_START: FlatMovedStart = FlatMovedStart { start: 9, place: 9 };

pub(crate) const NO_HOOK: FlatHook = FlatHook {
    detour: NO_DETOUR,
    view: NO_VIEW,
    moved: 9,
    call: 9,
};

pub(crate) const NO_STEP: FlatStep = FlatStep {
    bytes: 9,
    back_at: 9,
    address: 9,
    len: 9,
    done_at: 9,
};

/// Numbers that are none, so that a call that leaves them is seen.
pub(crate) const NO_LABEL: FlatLabel = FlatLabel {
    address: 9,
    offset: 9,
    len: 9,
    line: 9,
    has_address: 9,
};

pub(crate) const NO_ROUTINE: FlatRoutine = FlatRoutine {
    bytes: 9,
    slots: 9,
    labels: 9,
    line: 9,
    column: 9,
    at: 9,
    address: 9,
};
