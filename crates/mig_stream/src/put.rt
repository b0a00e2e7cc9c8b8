ghost use Rattle.std.specs.Prelude.{◌≡◌, ◌≤◌, ◌+◌, ◌++◌, length, vec_len, vec_capacity, is_ok, if◌then◌else◌};
ghost use Rattle.mig_stream.specs.Text.{be32, be64, start_text, part_text, footer_text};

use ram_block::NoMemory;

/// The type byte of the first header of a section that goes on.
pub const START: u8 = 0x01;

/// The type byte of the last header of a section that goes on.
pub const END: u8 = 0x03;

/// The type byte of the one header of a section.
pub const FULL: u8 = 0x04;

/// The first byte of a footer.
pub const FOOTER: u8 = 0x7e;

/// The last byte of a stream.
pub const EOF: u8 = 0x00;

/// Appends a number in four bytes, the highest first. After `NoMemory` the list is as before.
pub fn put_be32(out: &mut Vec<u8>, v: u32) -> Result<(), NoMemory>
    ensures { out.new.items ≡ (if is_ok result then out.old.items ++ be32 v else out.old.items) }
{
    out.reserve(4)?;
    append(out, &v.to_be_bytes());
    Ok(())
}

/// Appends a number in eight bytes, the highest first. After `NoMemory` the list is as before.
pub fn put_be64(out: &mut Vec<u8>, v: u64) -> Result<(), NoMemory>
    ensures { out.new.items ≡ (if is_ok result then out.old.items ++ be64 v else out.old.items) }
{
    out.reserve(8)?;
    append(out, &v.to_be_bytes());
    Ok(())
}

/// Appends the first header of a section. After `NoMemory` the list is as before.
pub fn put_start(
    out: &mut Vec<u8>,
    kind: u8,
    id: u32,
    name: &str,
    instance: u32,
    version: u32,
) -> Result<(), NoMemory>
    requires { length name.now ≤ 255 }
    ensures { out.new.items ≡ (if is_ok result then out.old.items ++ start_text kind id name.now instance version else out.old.items) }
{
    out.reserve(name.len() + 14)?;
    append(out, &[kind]);
    append(out, &id.to_be_bytes());
    append(out, &[name.len() as u8]);
    append(out, name.as_bytes());
    append(out, &instance.to_be_bytes());
    append(out, &version.to_be_bytes());
    Ok(())
}

/// Appends a later header of a section. After `NoMemory` the list is as before.
pub fn put_part(out: &mut Vec<u8>, kind: u8, id: u32) -> Result<(), NoMemory>
    ensures { out.new.items ≡ (if is_ok result then out.old.items ++ part_text kind id else out.old.items) }
{
    out.reserve(5)?;
    append(out, &[kind]);
    append(out, &id.to_be_bytes());
    Ok(())
}

/// Appends the footer of a section. After `NoMemory` the list is as before.
pub fn put_footer(out: &mut Vec<u8>, id: u32) -> Result<(), NoMemory>
    ensures { out.new.items ≡ (if is_ok result then out.old.items ++ footer_text id else out.old.items) }
{
    put_part(out, FOOTER, id)
}

// Appends where there is room.
fn append(out: &mut Vec<u8>, bytes: &[u8])
    requires { vec_len out.old + length bytes.now ≤ vec_capacity out.old }
    ensures items { out.new.items ≡ out.old.items ++ bytes.now }
    ensures len { vec_len out.new ≡ vec_len out.old + length bytes.now }
    ensures capacity { vec_capacity out.old ≤ vec_capacity out.new }
{
    if out.extend_from_slice(bytes).is_err() {
        unreachable!()
    }
}
