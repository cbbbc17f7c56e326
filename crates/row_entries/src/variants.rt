//! The sizes, the W and the L of an entry's rows.

ghost use Rattle.std.specs.Prelude.{◌≡◌, ◌≤◌, length, map};
ghost use Rattle.row_entries.specs.Variants as spec;

use crate::entry::{Entry, Modes, Sizes, VexL, VexW};
use instruction_parts::kinds::{Method, method_of_kind};
use instruction_parts::row_types::{LBit, OpKind, RowKind, Size, WBit};

/// What the rules of entries ask of a kind of operand.
#[derive(Clone, Copy)]
pub enum Trait {
    /// Its size is the operand size.
    BySize,
    /// Its size depends on W.
    ByW,
    ReadsModRm,
    RegisterOnly,
    MemoryOnly,
}

/// A row of an entry for one L: its size, its W, and its modes as the flags of a row. There is no row where there is no mode.
#[derive(Clone, Copy)]
pub struct Variant {
    pub size: Size,
    pub w: WBit,
    pub modes: u8,
}

/// Whether a kind's size is the operand size.
#[tactic(auto, unfolding(crate::specs::Variants::is_by_size))]
fn is_by_size(kind: OpKind) -> bool
    ensures { result ≡ spec.is_by_size kind }
{
    match kind {
        OpKind::Ev
        | OpKind::Ez
        | OpKind::Gv
        | OpKind::Zv
        | OpKind::Rv
        | OpKind::Xv
        | OpKind::Mv
        | OpKind::Ov
        | OpKind::Iz
        | OpKind::Iv
        | OpKind::Jz
        | OpKind::Ap => true,
        _ => false,
    }
}

/// Returns whether a kind's size depends on W.
#[tactic(auto, unfolding(crate::specs::Variants::is_by_w))]
fn is_by_w(kind: OpKind) -> bool
    ensures { result ≡ spec.is_by_w kind }
{
    match kind {
        OpKind::Ey | OpKind::Gy | OpKind::By | OpKind::Ry => true,
        _ => false,
    }
}

/// Whether an operand that is addressed so is read from ModRM.
fn reads_modrm(method: Method) -> bool
    ensures { result ≡ spec.reads_modrm method }
{
    match method {
        Method::ModRmReg
        | Method::RegisterOrMemory
        | Method::RegisterOnly
        | Method::MemoryOnly
        | Method::AnyMode
        | Method::Gather => true,
        _ => false,
    }
}

/// Whether a kind has a trait.
fn has_trait(kind: OpKind, t: Trait) -> bool
    ensures { result ≡ spec.has_trait kind t }
{
    match t {
        Trait::BySize => is_by_size(kind),
        Trait::ByW => is_by_w(kind),
        Trait::ReadsModRm => reads_modrm(method_of_kind(kind)),
        Trait::RegisterOnly => match method_of_kind(kind) {
            Method::RegisterOnly => true,
            _ => false,
        },
        Trait::MemoryOnly => match method_of_kind(kind) {
            Method::MemoryOnly | Method::Gather => true,
            _ => false,
        },
    }
}

/// Whether one of some kinds has a trait.
#[tactic(auto, unfolding(crate::specs::Variants::any_has))]
pub fn any_has(kinds: &[OpKind], t: Trait) -> bool
    ensures { result ≡ spec.any_has kinds.now t }
{
    match kinds {
        [] => false,
        [kind, rest @ ..] => has_trait(*kind, t) || any_has(rest, t),
    }
}

/// The modes of an entry, as the flags of a row.
fn all_modes(modes: Modes) -> u8
    ensures { result ≡ spec.all_modes modes }
{
    match modes {
        Modes::All => 7,
        Modes::Outside64 => 3,
        Modes::Only64 => 4,
    }
}

/// Returns 64-bit mode, if it is one of the modes.
fn only_64(modes: Modes) -> u8
    ensures { result ≡ spec.only_64 modes }
{
    match modes {
        Modes::All | Modes::Only64 => 4,
        Modes::Outside64 => 0,
    }
}

/// Returns the other two modes, if they are among the modes.
fn outside_64(modes: Modes) -> u8
    ensures { result ≡ spec.outside_64 modes }
{
    match modes {
        Modes::All | Modes::Outside64 => 3,
        Modes::Only64 => 0,
    }
}

/// Whether the rows depend on the operand size though no mark says so: by an operand's kind, or since each size has its name.
#[tactic(auto, unfolding(crate::specs::Variants::goes_by_size))]
fn goes_by_size(e: &Entry) -> bool
    ensures { result ≡ spec.goes_by_size e.now }
{
    any_has(&e.ops, Trait::BySize) || e.more_names == 2
}

/// Returns whether the rows depend on W.
#[tactic(auto, unfolding(crate::specs::Variants::goes_by_w))]
fn goes_by_w(e: &Entry) -> bool
    ensures { result ≡ spec.goes_by_w e.now }
{
    is_by_w_mark(e.sizes) || any_has(&e.ops, Trait::ByW) && !goes_by_size(e)
}

/// Whether the sizes are those by W.
fn is_by_w_mark(sizes: Sizes) -> bool
    ensures { result ≡ spec.is_by_w_mark sizes }
{
    match sizes {
        Sizes::ByW => true,
        _ => false,
    }
}

/// A size in its modes.
fn variant_of_size(size: Size, modes: u8) -> Variant
    ensures { result ≡ spec.variant_of_size size modes }
{
    Variant {
        size,
        w: WBit::None,
        modes,
    }
}

/// No row.
fn nothing() -> Variant
    ensures { result ≡ spec.nothing }
{
    variant_of_size(Size::None, 0)
}

/// Three rows by operand size.
fn by_sizes(small: u8, middle: u8, large: u8) -> [Variant; 3]
    ensures { result ≡ spec.by_sizes small middle large }
{
    [
        variant_of_size(Size::O16, small),
        variant_of_size(Size::O32, middle),
        variant_of_size(Size::O64, large),
    ]
}

/// Returns the rows if neither W nor a default size of 64 bits decides: by the mark of sizes, or by the operands and names.
fn by_mark(modes: Modes, sizes: Sizes, implied: bool) -> Option<[Variant; 3]>
    ensures { result ≡ spec.by_mark modes sizes implied }
{
    let all = all_modes(modes);
    match sizes {
        Sizes::By16 => Some([
            variant_of_size(Size::O16, all),
            variant_of_size(Size::O32or64, all),
            nothing(),
        ]),
        Sizes::O32O64 => Some([
            variant_of_size(Size::O32, all),
            variant_of_size(Size::O64, only_64(modes)),
            nothing(),
        ]),
        Sizes::O16O32 => Some([
            variant_of_size(Size::O16, all),
            variant_of_size(Size::O32, all),
            nothing(),
        ]),
        Sizes::All => Some(by_sizes(all, all, only_64(modes))),
        _ => if implied {
            Some(by_sizes(all, all, only_64(modes)))
        } else {
            None
        },
    }
}

/// Whether the rows depend on the operand size since they do so by an operand or by their names.
fn is_implied(e: &Entry) -> bool
    ensures { result ≡ spec.is_implied e.now }
{
    goes_by_size(e) || e.more_names == 1 && only_64(e.modes) == 0
}

/// Returns the rows if W does not decide: by `^`, `!`, or the mark of sizes.
fn by_operand_size(e: &Entry) -> Option<[Variant; 3]>
    ensures { result ≡ spec.by_operand_size e.now }
{
    let all = all_modes(e.modes);
    let in_64 = only_64(e.modes);
    let outside = outside_64(e.modes);
    if e.caret {
        Some(by_sizes(all, outside, in_64))
    } else if e.bang {
        Some(by_sizes(outside, outside, in_64))
    } else {
        by_mark(e.modes, e.sizes, is_implied(e))
    }
}

/// Returns the rows of an entry that depends on the operand size, or on a W that is its operand size; None if it has one size.
#[tactic(auto, unfolding(crate::specs::Variants::sizes_of))]
fn sizes_of(e: &Entry) -> Option<[Variant; 3]>
    ensures { result ≡ spec.sizes_of e.now }
{
    match e.sizes {
        Sizes::W0 => Some([
            variant_of_size(Size::W0, all_modes(e.modes)),
            nothing(),
            nothing(),
        ]),
        Sizes::W1 => Some([
            variant_of_size(Size::W1, only_64(e.modes)),
            nothing(),
            nothing(),
        ]),
        _ => if goes_by_w(e) {
            Some([
                variant_of_size(Size::W0, all_modes(e.modes)),
                variant_of_size(Size::W1, only_64(e.modes)),
                nothing(),
            ])
        } else {
            by_operand_size(e)
        },
    }
}

/// The W of the notation of a VEX row that takes W as its size.
fn w_of_size(size: Size) -> WBit
    ensures { result ≡ spec.w_of_size size }
{
    match size {
        Size::W0 => WBit::W0,
        Size::W1 => WBit::W1,
        _ => WBit::None,
    }
}

/// Returns a VEX row that depends on W.
fn with_own_w(v: Variant) -> Variant
    ensures { result ≡ spec.with_own_w v }
{
    Variant {
        w: w_of_size(v.size),
        ..v
    }
}

/// Returns VEX rows that depend on W.
fn with_own_ws(rows: [Variant; 3]) -> [Variant; 3]
    ensures { result ≡ map spec.with_own_w rows }
{
    let [a, b, c] = rows;
    [with_own_w(a), with_own_w(b), with_own_w(c)]
}

/// Returns a VEX row that depends on no size.
fn by_notation(w: WBit, modes: u8) -> Variant
    ensures { result ≡ spec.by_notation w modes }
{
    Variant {
        size: Size::None,
        w,
        modes,
    }
}

/// Returns the rows, for one L, of a VEX entry that depends on no size.
fn by_vex_w(w: VexW, modes: u8) -> [Variant; 3]
    ensures { result ≡ spec.by_vex_w w modes }
{
    match w {
        VexW::Wig => [by_notation(WBit::Wig, modes), nothing(), nothing()],
        VexW::W0 => [by_notation(WBit::W0, modes), nothing(), nothing()],
        VexW::W1 => [by_notation(WBit::W1, modes), nothing(), nothing()],
        VexW::Both => [
            by_notation(WBit::W0, modes),
            by_notation(WBit::W1, modes),
            nothing(),
        ],
    }
}

/// The rows of an entry for one L.
#[tactic(auto, unfolding(crate::specs::Variants::variants))]
pub fn variants(e: &Entry) -> [Variant; 3]
    ensures { result ≡ spec.variants e.now }
{
    match e.kind {
        RowKind::Legacy => match sizes_of(e) {
            Some(rows) => rows,
            None => [
                variant_of_size(Size::None, all_modes(e.modes)),
                nothing(),
                nothing(),
            ],
        },
        RowKind::Vex => match sizes_of(e) {
            Some(rows) => with_own_ws(rows),
            None => by_vex_w(e.w, all_modes(e.modes)),
        },
    }
}

/// How many rows there are for one L.
#[tactic(auto, unfolding(crate::specs::Variants::variant_count))]
pub fn variant_count(variants: &[Variant]) -> usize
    ensures value { result ≡ spec.variant_count variants.now }
    ensures within { result ≤ length variants.now }
{
    match variants {
        [] => 0,
        [v, rest @ ..] => if v.modes == 0 {
            variant_count(rest)
        } else {
            1 + variant_count(rest)
        },
    }
}

/// The values of L of an entry's rows.
pub fn lengths<'a>(e: &Entry) -> &'a [LBit]
    ensures { result.now ≡ spec.lengths e.now }
{
    match e.kind {
        RowKind::Legacy => &[LBit::None],
        RowKind::Vex => match e.l {
            VexL::Both => &[LBit::L128, LBit::L256],
            VexL::L128 => &[LBit::L128],
            VexL::L256 => &[LBit::L256],
            VexL::Lig => &[LBit::Lig],
            VexL::Lz => &[LBit::Lz],
        },
    }
}
