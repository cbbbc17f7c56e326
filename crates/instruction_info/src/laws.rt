//! What holds of the whole table.

ghost use Rattle.std.specs.Prelude.{◌≡◌, ◌<◌, ◌++◌, ◌∷◌, [], ℕ, List, slice_get, Some, IsTrue, false, true, bit_and, bit_or};
ghost use Rattle.std.specs.List.{list_any};
ghost use Rattle.x86_values.specs.declared.Bits.{Bits};
ghost use Rattle.x86_values.specs.declared.Instr.{Instr};
ghost use Rattle.instruction_parts.specs.declared.row_types.Row.{Row};
ghost use Rattle.opcode_rows.specs.declared.generated_spots.TheConstants.{VERSION1_ROWS};
ghost use Rattle.opcode_rows.specs.Table.{table, name_of};
ghost use Rattle.operand_info.specs.ByCode.{flow_of};
ghost use Rattle.operand_info.specs.Names.{is_system_call};
ghost use Rattle.instruction_info.specs.declared.registers.RegisterUse.{RegisterUse};
ghost use Rattle.instruction_info.specs.Effects.{effect_of, implied_memory_of, flags_read, flags_written, flags_cleared, flags_set, flags_undefined, flags_kept, features_of};
ghost use Rattle.instruction_info.specs.Settings.{has_repeat};
ghost use Rattle.instruction_info.specs.Registers.{all_registers};
ghost use Rattle.instruction_info.specs.Laws.{PageFlags, tested_flags, is_calling, is_returning, is_system_return, is_push, is_pop, slots_of, are_slots, page_flags, is_string_row, counter, added_features};

/// Cleared and set flags are written. No flag is both written and undefined. Flags that may be kept are written or undefined.
pub fn flags_are_told_apart()
    ensures cleared { (code : ℕ) → bit_and (flags_cleared code) (flags_written code) ≡ flags_cleared code }
    ensures set_ { (code : ℕ) → bit_and (flags_set code) (flags_written code) ≡ flags_set code }
    ensures undefined { (code : ℕ) → bit_and (flags_undefined code) (flags_written code) ≡ 0 }
    ensures kept { (code : ℕ) → bit_and (flags_kept code) (bit_or (flags_written code) (flags_undefined code)) ≡ flags_kept code }
{}

/// A conditional row (Jcc, SETcc, CMOVcc, FCMOVcc, LOOPcc, LOOP, JRCXZ) reads exactly the flags of its condition.
pub fn conditions_are_read()
    ensures { (code flags : ℕ) (row : Row) → slice_get table code ≡ Some row → tested_flags row ≡ Some flags → flags_read code ≡ flags }
{}

/// Each call, except system calls, writes to the stack below its pointer.
pub fn calls_push()
    ensures { (code : ℕ) (row : Row) → slice_get table code ≡ Some row → IsTrue (is_calling (flow_of code))
        → is_system_call (name_of code) ≡ false → IsTrue (list_any is_push (implied_memory_of code)) }
{}

/// Each return, except returns from system calls, reads the stack at its pointer.
pub fn returns_pop()
    ensures { (code : ℕ) (row : Row) → slice_get table code ≡ Some row → IsTrue (is_returning (flow_of code))
        → is_system_return (name_of code) ≡ false → IsTrue (list_any is_pop (implied_memory_of code)) }
{}

/// A near call pushes one slot of its operand size, and a near return pops one. A far call pushes two, and a far return pops two. They imply no other
/// memory.
pub fn calls_and_returns_move_their_slots()
    ensures { (code count : ℕ) (row : Row) → slice_get table code ≡ Some row → slots_of (name_of code) ≡ Some count
        → IsTrue (are_slots count (implied_memory_of code)) }
{}

/// Arithmetic writes all six status flags, and ADC and SBB read CF. INC and DEC write all but CF. AND, OR, XOR and TEST clear OF and CF, write SF, ZF
/// and PF, and leave AF undefined. Rotates write CF, and OF by 1. Shifts write SF, ZF, PF and CF, and OF by 1, and leave AF undefined. A count of 0
/// keeps them.
pub fn arithmetic_has_the_flags_of_its_page()
    ensures read { (code : ℕ) (row : Row) (page : PageFlags) → slice_get table code ≡ Some row → page_flags (name_of code) row ≡ Some page
        → flags_read code ≡ page.read }
    ensures written { (code : ℕ) (row : Row) (page : PageFlags) → slice_get table code ≡ Some row → page_flags (name_of code) row ≡ Some page
        → flags_written code ≡ page.written }
    ensures cleared { (code : ℕ) (row : Row) (page : PageFlags) → slice_get table code ≡ Some row → page_flags (name_of code) row ≡ Some page
        → flags_cleared code ≡ page.cleared }
    ensures undefined { (code : ℕ) (row : Row) (page : PageFlags) → slice_get table code ≡ Some row → page_flags (name_of code) row ≡ Some page
        → flags_undefined code ≡ page.undefined }
    ensures kept { (code : ℕ) (row : Row) (page : PageFlags) → slice_get table code ≡ Some row → page_flags (name_of code) row ≡ Some page
        → flags_kept code ≡ page.kept }
{}

/// A repeat prefix repeats the string instructions and no other row. With one, the counter is the last of all registers.
pub fn strings_repeat()
    ensures rows { (code : ℕ) (row : Row) → slice_get table code ≡ Some row → (effect_of code).repeats ≡ is_string_row row }
    ensures counter { (bits : Bits) (i : Instr) (row : Row) → slice_get table i.code.0 ≡ Some row → IsTrue (is_string_row row)
        → IsTrue (has_repeat i.rep) → (front : List RegisterUse) × (all_registers bits i ≡ front ++ counter bits i ∷ []) }
{}

/// No row of version 1 uses a feature of version 2: PCLMULQDQ, FMA, AES or F16C.
pub fn features_have_their_versions()
    ensures { (code : ℕ) → code < VERSION1_ROWS → bit_and (features_of code) added_features ≡ 0 }
{}
