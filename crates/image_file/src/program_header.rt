ghost use Rattle.std.specs.Prelude.{◌≡◌, ◌+◌, ◌^◌, ◌<◌, ◌≤◌, length, true};
ghost use Rattle.image_file.specs.Elf.{half_at, word_at, xword_at, e_phnum, header_place};
ghost use Rattle.ram_block.specs.declared.limits.TheConstants.{MAX_RAM};

use ram_block::RAM_BASE;

/// The bytes of a program header.
pub(crate) const PHDR_LEN: u64 = 56;

/// The type of a segment that stands in memory.
pub(crate) const PT_LOAD: u32 = 1;

/// What counts of a program header, with the fields' names of ELF-64.
#[derive(Clone, Copy)]
pub(crate) struct ProgramHeader {
    pub(crate) p_type: u32,
    pub(crate) p_offset: u64,
    pub(crate) p_paddr: u64,
    pub(crate) p_filesz: u64,
    pub(crate) p_memsz: u64,
}

impl ProgramHeader {
    ghost use Rattle.image_file.specs.Elf.{program_header, is_placed, lies_in, reach_of};

    /// Program header j of a file, which has to lie in the file.
    #[tactic(auto, unfolding(crate::specs::Elf::program_header))]
    pub(crate) fn of(file: &[u8], j: u16) -> ProgramHeader
        requires header { 64 ≤ length file.now }
        requires in_file { header_place file.now j + PHDR_LEN ≤ length file.now }
        ensures { result ≡ program_header file.now j }
    {
        let at = (xword(file, 32) + PHDR_LEN * u64::from(j)) as usize;
        ProgramHeader {
            p_type: word(file, at),
            p_offset: xword(file, at + 8),
            p_paddr: xword(file, at + 24),
            p_filesz: xword(file, at + 32),
            p_memsz: xword(file, at + 40),
        }
    }

    /// Whether it is a segment with bytes in memory.
    pub(crate) fn is_placed(&self) -> bool
        ensures { result ≡ is_placed self.now }
    {
        self.p_type == PT_LOAD && self.p_memsz != 0
    }

    /// Whether all of its memory lies in RAM of so many bytes.
    pub(crate) fn lies_in(&self, ram: u64) -> bool
        requires { ram ≤ MAX_RAM }
        ensures { result ≡ lies_in self.now ram }
    {
        let end = u128::from(self.p_paddr) + u128::from(self.p_memsz);
        self.p_paddr >= RAM_BASE && end <= u128::from(RAM_BASE + ram)
    }

    /// How many bytes of RAM there are up to the segment's end.
    pub(crate) fn reach(&self) -> u64
        requires { is_placed self.now ≡ true → self.now.p_paddr + self.now.p_memsz < 2 ^ 64 }
        ensures { result ≡ reach_of self.now }
    {
        if !self.is_placed() {
            return 0;
        }
        (self.p_paddr + self.p_memsz).saturating_sub(RAM_BASE)
    }
}

/// The number of program headers.
pub(crate) fn header_count(file: &[u8]) -> u16
    requires { 64 ≤ length file.now }
    ensures { result ≡ e_phnum file.now }
{
    half(file, 56)
}

/// The two bytes at a place.
#[tactic(auto, unfolding(crate::specs::Elf::half_at))]
pub(crate) fn half(file: &[u8], at: usize) -> u16
    requires { at + 2 ≤ length file.now }
    ensures { result ≡ half_at file.now at }
{
    let mut bytes = [0; 2];
    bytes.copy_from_slice(&file[at..at + 2]);
    u16::from_le_bytes(bytes)
}

// The four bytes at a place.
#[tactic(auto, unfolding(crate::specs::Elf::word_at))]
fn word(file: &[u8], at: usize) -> u32
    requires { at + 4 ≤ length file.now }
    ensures { result ≡ word_at file.now at }
{
    let mut bytes = [0; 4];
    bytes.copy_from_slice(&file[at..at + 4]);
    u32::from_le_bytes(bytes)
}

/// The eight bytes at a place.
#[tactic(auto, unfolding(crate::specs::Elf::xword_at))]
pub(crate) fn xword(file: &[u8], at: usize) -> u64
    requires { at + 8 ≤ length file.now }
    ensures { result ≡ xword_at file.now at }
{
    let mut bytes = [0; 8];
    bytes.copy_from_slice(&file[at..at + 8]);
    u64::from_le_bytes(bytes)
}
