/// What is wrong with an ELF file. The kinds stand in the order in which they are tested; the last four are tested
/// for each program header in turn.
#[derive(Clone, Copy, Debug, PartialEq, Eq)]
pub enum ElfKind {
    /// The file is shorter than a file header.
    Short,
    /// It isn't of 64 bits.
    Class,
    /// Its numbers aren't little-endian.
    Encoding,
    /// It isn't for RISC-V.
    Machine,
    /// Its program headers are of another size.
    EntrySize,
    /// A program header doesn't lie in the file.
    Table,
    /// A segment has more bytes in the file than in memory.
    Sizes,
    /// A segment's bytes don't lie in the file.
    Range,
    /// A segment's memory doesn't lie in RAM.
    Place,
}
