//! Guest images, flat and ELF: a source's bytes as the first bytes of RAM, or the first thing that is wrong with
//! them, with its place. No byte of a file is believed before it is tested, and no sum wraps. It stands on `medium`
//! and `ram_block`.
#![tactic(auto)]

mod elf;
mod elf_kind;
mod image;
mod image_fault;
mod image_refusal;
mod overlay;
mod program_header;
mod raw;

pub use elf_kind::ElfKind;
pub use image::read_image;
pub use image_fault::ImageFault;
pub use image_refusal::ImageRefusal;
pub use raw::{MOST_IMAGE, read_raw};

#[cfg(test)]
mod tests;
