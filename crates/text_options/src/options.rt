//! How a text is written.

ghost use Rattle.std.specs.Prelude.{◌≡◌};

/// Which words of a text are in upper case. Numbers and the names of symbols stay as they are.
#[derive(Clone, Copy, PartialEq, Eq, Debug)]
pub enum Letters {
    /// None.
    Lower,
    /// The name of the instruction and the words of prefixes.
    UpperNames,
    /// Registers.
    UpperRegisters,
    /// Keywords, such as the words of a size.
    UpperKeywords,
    /// Prefixes, names, registers and keywords.
    Upper,
}

/// How a number is written. A scale is a digit in every style.
#[derive(Clone, Copy, PartialEq, Eq, Debug)]
pub enum Digits {
    /// As the style writes it.
    OfStyle,
    /// In hexadecimal as `0x2a`.
    Prefixed,
    /// In hexadecimal as `2Ah`, with a 0 in front of a letter.
    Suffixed,
    /// In decimal as `42`.
    Decimal,
}

/// How an immediate is written.
#[derive(Clone, Copy, PartialEq, Eq, Debug)]
pub enum Immediates {
    /// As a number without a sign.
    Unsigned,
    /// As a signed number of its width: with a minus and its distance from zero if its sign bit is set.
    Signed,
}

/// What follows a comma.
#[derive(Clone, Copy, PartialEq, Eq, Debug)]
pub enum Commas {
    /// A space.
    Spaced,
    /// Nothing.
    Tight,
}

/// Where the size of memory is written, in the styles with brackets.
#[derive(Clone, Copy, PartialEq, Eq, Debug)]
pub enum SizeWords {
    /// At every memory operand that has a size.
    Always,
    /// Where no register operand shows the size.
    Needed,
}

/// How an operand relative to RIP or EIP is written.
#[derive(Clone, Copy, PartialEq, Eq, Debug)]
pub enum RipOperands {
    /// With its address: `[rel 0x404040]`.
    Address,
    /// With the register and the distance: `[rip+0x2ebd]`.
    Distance,
}

/// Where the symbol of a target or an address is written.
#[derive(Clone, Copy, PartialEq, Eq, Debug)]
pub enum SymbolPlace {
    /// In place of the number: `call puts@plt`.
    Instead,
    /// Behind the number: `call 0x401030 <puts@plt>`.
    Behind,
    /// At the end of the text, behind the address: `lea rdi, [rip+0x2ebd]  # 404040 <message>`.
    Comment,
    /// That of a branch target behind the number, that of an address of memory at the end of the text.
    BehindOrComment,
}

/// Whose names, letters and prefix words a text has.
#[derive(Clone, Copy, PartialEq, Eq, Debug)]
pub enum Names {
    /// Those of the printers: the manual's names.
    Manual,
    /// GNU's. They come with its operands: those of string instructions, `st`, `(%dx)`, and 1 as the count of a shift that has it in its opcode.
    Gnu,
}

/// How a distance below zero is written.
#[derive(Clone, Copy, PartialEq, Eq, Debug)]
pub enum Distances {
    /// With a minus: `[rip-0x2489]`.
    Signed,
    /// As a number without a sign: `[rip+0xffffffffffffdb77]`.
    Wrapped,
}

/// How an address with neither base nor index is written, in the styles with brackets.
#[derive(Clone, Copy, PartialEq, Eq, Debug)]
pub enum Absolutes {
    /// In brackets: `fs:[0x28]`.
    Bracketed,
    /// Alone: `fs:0x28`.
    Bare,
}

/// Which addresses have a comment, where symbols are written in comments.
#[derive(Clone, Copy, PartialEq, Eq, Debug)]
pub enum Comments {
    /// Those with a symbol.
    Named,
    /// Those with a symbol, and those that are written as a distance.
    Distances,
}

/// How a text is written. The default is the text that the printer of the style gives.
#[derive(Clone, Copy, PartialEq, Eq, Debug)]
pub struct Options {
    pub letters: Letters,
    pub digits: Digits,
    pub immediates: Immediates,
    pub commas: Commas,
    pub size_words: SizeWords,
    /// The column at which the first operand stands, counted from 0 at the start of the text. At least one space stands in front of it.
    pub operand_column: u8,
    pub rip_operands: RipOperands,
    pub symbol_place: SymbolPlace,
    pub names: Names,
    pub distances: Distances,
    pub absolutes: Absolutes,
    pub comments: Comments,
    /// The number of spaces in front of a comment.
    pub comment_gap: u8,
}

impl Options {
    /// What GNU objdump and GDB write under `-M intel`, with `Style::Masm`. docs/texts.md says what differs.
    pub const GNU: Options = Options {
        letters: Letters::UpperKeywords,
        digits: Digits::Prefixed,
        immediates: Immediates::Unsigned,
        commas: Commas::Tight,
        size_words: SizeWords::Always,
        operand_column: 7,
        rip_operands: RipOperands::Distance,
        symbol_place: SymbolPlace::BehindOrComment,
        names: Names::Gnu,
        distances: Distances::Wrapped,
        absolutes: Absolutes::Bare,
        comments: Comments::Distances,
        comment_gap: 8,
    };

    /// What GNU objdump and GDB write in AT&T, with `Style::Att`. docs/texts.md says what differs.
    pub const GNU_ATT: Options = Options {
        distances: Distances::Signed,
        ..Options::GNU
    };
}

impl Default for Options {
    ghost use Rattle.text_options.specs.Defaults.{default_options};

    ghost is_default = { λ options. options ≡ default_options };

    fn default() -> Options {
        Options {
            letters: Letters::Lower,
            digits: Digits::OfStyle,
            immediates: Immediates::Unsigned,
            commas: Commas::Spaced,
            size_words: SizeWords::Always,
            operand_column: 0,
            rip_operands: RipOperands::Address,
            symbol_place: SymbolPlace::Behind,
            names: Names::Manual,
            distances: Distances::Signed,
            absolutes: Absolutes::Bracketed,
            comments: Comments::Named,
            comment_gap: 2,
        }
    }
}
