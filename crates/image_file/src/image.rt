ghost use Rattle.std.specs.Prelude.{◌≡◌, ◌≤◌, ◌+◌, ℕ, List, [], Some, vec_len, IfOk, IfErr, IsOk};
ghost use Rattle.medium.specs.Count.{HasRisen};
ghost use Rattle.medium.specs.Members.{source_state};
ghost use Rattle.ram_block.specs.Shape.{ram_bytes_of};
ghost use Rattle.image_file.specs.Image.{image_of, image_within, Answers, behind, ReadsOn, IsReadToEnd, IsNoReadFault};
ghost use Rattle.image_file.specs.declared.image_fault.ImageFault.TheVariants.{ReadFault as read_fault};

use crate::elf::elf_image;
use crate::raw::{MOST_IMAGE, read_raw};
use crate::{ImageFault, ImageRefusal};
use medium::Source;
use ram_block::Shape;
use std::alloc::Global;

// The first bytes of an ELF file.
const ELF_MAGIC: [u8; 4] = [0x7f, 0x45, 0x4c, 0x46];

/// The image of a machine of a shape: the bytes of RAM from its start on. The source holds either these bytes or an
/// ELF file, whose segments stand at their physical addresses.
pub fn read_image<S: Source>(
    alloc: Global,
    source: &mut S,
    shape: &Shape,
) -> Result<Vec<u8>, ImageFault>
    ensures answer { (bytes : List ℕ) → S.left source.old ≡ Some bytes → Answers (λ image. image.items) (image_of bytes shape.now) result }
    ensures fits { IfOk result (λ image. vec_len image ≤ ram_bytes_of shape.now) }

    ensures read { ReadsOn (MOST_IMAGE + 1) (source_state S.Source source.old) (source_state S.Source source.new) }
    ensures read_to_end { IsReadToEnd result → (bytes : List ℕ) → S.left source.old ≡ Some bytes → S.left source.new ≡ Some (behind (MOST_IMAGE + 1) bytes) }
    ensures whole { IsOk result → (bytes : List ℕ) → S.left source.old ≡ Some bytes → S.left source.new ≡ Some [] }

    ensures fault { result ≡ Err read_fault → HasRisen (S.faults source.old) (S.faults source.new) }
{
    let file = read_raw(alloc, source, MOST_IMAGE)?;
    image_in(alloc, file, shape)
}

// The image that a file within the limit holds.
fn image_in(alloc: Global, file: Vec<u8>, shape: &Shape) -> Result<Vec<u8>, ImageFault>
    ensures answer { Answers (λ image. image.items) (image_within file.items shape.now) result }
    ensures fits { IfOk result (λ image. vec_len image ≤ ram_bytes_of shape.now) }
    ensures nothing_read { IfErr result IsNoReadFault }
{
    if file.is_empty() {
        return Err(ImageFault::Refused(ImageRefusal::Empty));
    }
    if file.starts_with(&ELF_MAGIC) {
        return elf_image(alloc, &file, shape);
    }
    let len = file.len() as u64;
    if len > shape.ram_bytes() {
        return Err(ImageFault::Refused(ImageRefusal::TooLong(len)));
    }
    Ok(file)
}
