ghost use Rattle.std.specs.Prelude.{◌≡◌, [], ◌∷◌, ◌++◌};
ghost use Rattle.std.specs.Fmt.{decimal};
ghost use Rattle.vm_cli.specs.FaultLine.{asm_text, elf_text, fault_line, file_words, layer_words, number_then, order_words, peek_words, then_number, two_numbers, usage_text};
ghost use Rattle.vm_cli.specs.Parts.{parts_text};
ghost use Rattle.loader.specs.declared.refusal.Refusal.TheVariants.{Device as device_refusal, Header as header_refusal, Name as name_refusal};
ghost use Rattle.snap_layer.specs.declared.refusal.LayerRefusal.TheVariants.{Device as layer_device};

use crate::Fault;
use crate::parts::Part;
use device_state::DeviceFault;
use guest_asm::AsmKind;
use image_file::{ElfKind, ImageRefusal};
use loader::Refusal;
use mapped_ram_header::HeaderFault;
use order_log::OrderRefusal;
use page_peek::PeekRefusal;
use snap_layer::LayerRefusal;
use vm_words::UsageKind;

/// The end of a line.
const END: Part = Part::Text("\n");

/// Nothing more behind a line.
const NOTHING: Part = Part::Text("");

/// The line of a fault, with its line feed.
#[tactic(auto, unfolding(crate::specs::FaultLine::fault_line))]
pub(crate) fn fault_line(fault: Fault) -> [Part; 7]
    ensures { parts_text result ≡ fault_line fault }
{
    match fault {
        Fault::Usage { index, kind } => {
            number_and_word("fault 1 usage ", u64::from(index), usage_text(kind))
        }
        Fault::ImageRefused(ImageRefusal::Empty) => text("fault 2 image empty"),
        Fault::ImageRefused(ImageRefusal::TooLong(len)) => number("fault 2 image too-long ", len),
        Fault::ImageRefused(ImageRefusal::Elf { kind, at }) => {
            word_and_number("fault 2 image elf ", elf_text(kind), at)
        }
        Fault::FileRefused(refusal) => file_line(refusal),
        Fault::FileFault => text("fault 4 file-fault"),
        Fault::ConsoleFault => text("fault 5 console-fault"),
        Fault::ImageFault => text("fault 6 image-fault"),
        Fault::NoMemory => text("fault 7 no-memory"),
        Fault::NotEmpty { len } => number("fault 8 not-empty ", len),
        Fault::AsmRefused { line, kind } => {
            number_and_word("fault 9 assembly ", u64::from(line), asm_text(kind))
        }
        Fault::PeekRefused(refusal) => peek_line(refusal),
        Fault::LayerRefused(refusal) => layer_line(refusal),
        Fault::OrderRefused(refusal) => order_line(refusal),
    }
}

// The line of a file that is refused.
fn file_line(refusal: Refusal) -> [Part; 7]
    ensures { parts_text result ≡ file_words refusal ++ 10 ∷ [] }
{
    match refusal {
        Refusal::Truncated { at } => number("fault 3 file truncated ", at),
        Refusal::Magic(v) => number("fault 3 file magic ", u64::from(v)),
        Refusal::StreamVersion(v) => number("fault 3 file stream-version ", u64::from(v)),
        Refusal::Config { at, found } => {
            two_numbers("fault 3 file config ", at, u64::from(found))
        }
        Refusal::Section { at, found } => {
            two_numbers("fault 3 file section ", at, u64::from(found))
        }
        Refusal::RamVersion(v) => number("fault 3 file ram-version ", u64::from(v)),
        Refusal::Flags { at, v } => two_numbers("fault 3 file flags ", at, v),
        Refusal::Total(v) => number("fault 3 file total ", v),
        Refusal::Name { block, at, found } => name_line(block, at, found),
        Refusal::Length { block, v } => two_numbers("fault 3 file length ", u64::from(block), v),
        Refusal::Header { block, fault } => header_line(u64::from(block), fault),
        Refusal::Footer { at, found } => {
            two_numbers("fault 3 file footer ", at, u64::from(found))
        }
        Refusal::Device { at, fault } => device_line(at, fault),
        Refusal::Trailing { at } => number("fault 3 file trailing ", at),
    }
}

// The line of a block with another name.
fn name_line(block: u32, at: u64, found: u8) -> [Part; 7]
    ensures { parts_text result ≡ file_words (name_refusal block at found) ++ 10 ∷ [] }
{
    [
        Part::Text("fault 3 file name "),
        Part::Number(u64::from(block)),
        Part::Text(" "),
        Part::Number(at),
        Part::Text(" "),
        Part::Number(u64::from(found)),
        END,
    ]
}

// The line of a block with another mapped-ram header.
fn header_line(block: u64, fault: HeaderFault) -> [Part; 7]
    ensures { parts_text result ≡ file_words (header_refusal block fault) ++ 10 ∷ [] }
{
    match fault {
        HeaderFault::Version(v) => {
            two_numbers("fault 3 file header-version ", block, u64::from(v))
        }
        HeaderFault::PageSize(v) => two_numbers("fault 3 file header-page-size ", block, v),
        HeaderFault::BitmapOffset(v) => {
            two_numbers("fault 3 file header-bitmap-offset ", block, v)
        }
        HeaderFault::PagesOffset(v) => two_numbers("fault 3 file header-pages-offset ", block, v),
    }
}

// The line of a device with a number past its limit.
fn device_line(at: u64, fault: DeviceFault) -> [Part; 7]
    ensures { parts_text result ≡ file_words (device_refusal at fault) ++ 10 ∷ [] }
{
    match fault {
        DeviceFault::Steps(v) => two_numbers("fault 3 file device-steps ", at, v),
        DeviceFault::State(v) => two_numbers("fault 3 file device-state ", at, u64::from(v)),
        DeviceFault::SerialLength(v) => {
            two_numbers("fault 3 file device-serial-length ", at, u64::from(v))
        }
        DeviceFault::InputLength(v) => {
            two_numbers("fault 3 file device-input-length ", at, u64::from(v))
        }
        DeviceFault::Clock(v) => two_numbers("fault 3 file device-clock ", at, v),
    }
}

// The line of a file that isn't looked into.
fn peek_line(refusal: PeekRefusal) -> [Part; 7]
    ensures { parts_text result ≡ peek_words refusal ++ 10 ∷ [] }
{
    match refusal {
        PeekRefusal::Truncated { at } => number("fault 10 peek truncated ", at),
        PeekRefusal::Differs { at, found } => {
            two_numbers("fault 10 peek differs ", at, u64::from(found))
        }
    }
}

// The line of a layer that is refused.
fn layer_line(refusal: LayerRefusal) -> [Part; 7]
    ensures { parts_text result ≡ layer_words refusal ++ 10 ∷ [] }
{
    match refusal {
        LayerRefusal::Truncated { at } => number("fault 11 layer truncated ", at),
        LayerRefusal::Magic(v) => number("fault 11 layer magic ", u64::from(v)),
        LayerRefusal::Version(v) => number("fault 11 layer version ", u64::from(v)),
        LayerRefusal::Shape { at, v } => two_numbers("fault 11 layer shape ", at, u64::from(v)),
        LayerRefusal::Base { at, v } => two_numbers("fault 11 layer base ", at, v),
        LayerRefusal::Count(v) => number("fault 11 layer count ", u64::from(v)),
        LayerRefusal::Page { at, v } => two_numbers("fault 11 layer page ", at, u64::from(v)),
        LayerRefusal::Section { at, found } => {
            two_numbers("fault 11 layer section ", at, u64::from(found))
        }
        LayerRefusal::Footer { at, found } => {
            two_numbers("fault 11 layer footer ", at, u64::from(found))
        }
        LayerRefusal::Device { at, fault } => layer_device_line(at, fault),
        LayerRefusal::Vcpus(v) => number("fault 11 layer vcpus ", u64::from(v)),
        LayerRefusal::Trailing { at } => number("fault 11 layer trailing ", at),
        LayerRefusal::Late { clock } => number("fault 11 layer late ", clock),
    }
}

// The line of a layer that has a device with a number past its limit.
fn layer_device_line(at: u64, fault: DeviceFault) -> [Part; 7]
    ensures { parts_text result ≡ layer_words (layer_device at fault) ++ 10 ∷ [] }
{
    match fault {
        DeviceFault::Steps(v) => two_numbers("fault 11 layer device-steps ", at, v),
        DeviceFault::State(v) => two_numbers("fault 11 layer device-state ", at, u64::from(v)),
        DeviceFault::SerialLength(v) => {
            two_numbers("fault 11 layer device-serial-length ", at, u64::from(v))
        }
        DeviceFault::InputLength(v) => {
            two_numbers("fault 11 layer device-input-length ", at, u64::from(v))
        }
        DeviceFault::Clock(v) => two_numbers("fault 11 layer device-clock ", at, v),
    }
}

// The line of an order that is refused.
fn order_line(refusal: OrderRefusal) -> [Part; 7]
    ensures { parts_text result ≡ order_words refusal ++ 10 ∷ [] }
{
    match refusal {
        OrderRefusal::Truncated { at } => number("fault 12 order truncated ", at),
        OrderRefusal::Magic(v) => number("fault 12 order magic ", u64::from(v)),
        OrderRefusal::Version(v) => number("fault 12 order version ", u64::from(v)),
        OrderRefusal::Vcpus(v) => number("fault 12 order vcpus ", u64::from(v)),
        OrderRefusal::Count(v) => number("fault 12 order count ", v),
        OrderRefusal::Member { at, v } => {
            two_numbers("fault 12 order member ", at, u64::from(v))
        }
        OrderRefusal::Pad(v) => number("fault 12 order pad ", u64::from(v)),
        OrderRefusal::Trailing { at } => number("fault 12 order trailing ", at),
        OrderRefusal::Halted { place } => number("fault 12 order halted ", place),
    }
}

// A line of words.
fn text(words: &'static str) -> [Part; 7]
    ensures { parts_text result ≡ words.now ++ 10 ∷ [] }
{
    let words = Part::Text(words);
    [words, END, NOTHING, NOTHING, NOTHING, NOTHING, NOTHING]
}

// A line of words and a number.
fn number(words: &'static str, n: u64) -> [Part; 7]
    ensures { parts_text result ≡ (words.now ++ decimal n) ++ 10 ∷ [] }
{
    let words = Part::Text(words);
    let number = Part::Number(n);
    [words, number, END, NOTHING, NOTHING, NOTHING, NOTHING]
}

// A line of words and two numbers.
fn two_numbers(words: &'static str, m: u64, n: u64) -> [Part; 7]
    ensures { parts_text result ≡ (words.now ++ two_numbers m n) ++ 10 ∷ [] }
{
    let words = Part::Text(words);
    let first = Part::Number(m);
    let second = Part::Number(n);
    [words, first, Part::Text(" "), second, END, NOTHING, NOTHING]
}

// A line of words, a number and the word of a kind.
fn number_and_word(words: &'static str, n: u64, kind: &'static str) -> [Part; 7]
    ensures { parts_text result ≡ (words.now ++ number_then n kind.now) ++ 10 ∷ [] }
{
    let words = Part::Text(words);
    let number = Part::Number(n);
    let kind = Part::Text(kind);
    [words, number, Part::Text(" "), kind, END, NOTHING, NOTHING]
}

// A line of words, the word of a kind and a number.
fn word_and_number(words: &'static str, kind: &'static str, n: u64) -> [Part; 7]
    ensures { parts_text result ≡ (words.now ++ then_number kind.now n) ++ 10 ∷ [] }
{
    let words = Part::Text(words);
    let kind = Part::Text(kind);
    let number = Part::Number(n);
    [words, kind, Part::Text(" "), number, END, NOTHING, NOTHING]
}

// The word of what is wrong with the words of a line.
fn usage_text(kind: UsageKind) -> &'static str
    ensures { result.now ≡ usage_text kind }
{
    match kind {
        UsageKind::NoCommand => "no-command",
        UsageKind::Command => "command",
        UsageKind::NoEquals => "no-equals",
        UsageKind::Key => "key",
        UsageKind::Twice => "twice",
        UsageKind::Value => "value",
        UsageKind::Missing => "missing",
        UsageKind::NeedsThreads => "needs-threads",
    }
}

// The word of what is wrong with an ELF image.
fn elf_text(kind: ElfKind) -> &'static str
    ensures { result.now ≡ elf_text kind }
{
    match kind {
        ElfKind::Short => "short",
        ElfKind::Class => "class",
        ElfKind::Encoding => "encoding",
        ElfKind::Machine => "machine",
        ElfKind::EntrySize => "entry-size",
        ElfKind::Table => "table",
        ElfKind::Sizes => "sizes",
        ElfKind::Range => "range",
        ElfKind::Place => "place",
    }
}

// The word of what is wrong with a line of a text.
fn asm_text(kind: AsmKind) -> &'static str
    ensures { result.now ≡ asm_text kind }
{
    match kind {
        AsmKind::Twice => "twice",
        AsmKind::Mnemonic => "mnemonic",
        AsmKind::Syntax => "syntax",
        AsmKind::Register => "register",
        AsmKind::Number => "number",
        AsmKind::Label => "label",
        AsmKind::Reach => "reach",
        AsmKind::TooLarge => "too-large",
    }
}
