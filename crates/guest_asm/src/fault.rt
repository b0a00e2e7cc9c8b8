/// What is wrong with a line, the first of these that it has.
#[derive(Clone, Copy, Debug, PartialEq, Eq)]
pub enum AsmKind {
    /// The label stands on an earlier line.
    Twice,
    /// The first word of the statement is no mnemonic.
    Mnemonic,
    /// What follows the mnemonic isn't its operands in form.
    Syntax,
    /// An identifier in a register's place is no register.
    Register,
    /// A number is outside its range.
    Number,
    /// No line has the label.
    Label,
    /// The label's offset is odd or outside the instruction's range.
    Reach,
    /// The bytes up to the end of the line are more than `MAX_ASSEMBLED`.
    TooLarge,
}

/// Why a text gives no bytes.
#[derive(Clone, Copy, Debug, PartialEq, Eq)]
pub enum AsmFault {
    /// The first wrong line, counted from 1, and what is wrong with it.
    Line { line: u32, kind: AsmKind },
    NoMemory,
}
