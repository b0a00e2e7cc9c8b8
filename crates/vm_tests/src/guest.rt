use snapshot_by_hand::GUEST;

/// The line that saves the guest.
pub(crate) const SAVE: [&str; 8] = [
    "save",
    "image=guest.img",
    "out=guest.snap",
    "vcpus=1",
    "blocks=1",
    "pages=1",
    "stop=0",
    "run=0",
];

/// The guest as an ELF file of 128 bytes: one segment, whose bytes are the guest's and whose memory is at the place
/// given.
pub(crate) fn elf_of_the_guest(place: u64) -> [u8; 128] {
    let mut elf = [0; 128];
    elf[..6].copy_from_slice(&[0x7f, 0x45, 0x4c, 0x46, 2, 1]);
    elf[18] = 243;
    elf[32] = 64;
    elf[54] = 56;
    elf[56] = 1;
    elf[64] = 1;
    elf[72] = 120;
    elf[88..96].copy_from_slice(&place.to_le_bytes());
    elf[96] = 8;
    elf[104] = 16;
    elf[120..].copy_from_slice(&GUEST);
    elf
}
