/// Each vCPU adds to a page of its own, pages 1 to 8, and to page 9, prints, reads the time, and sets the compare value, over
/// and over. All fetch from page 0.
pub(crate) static MEETS: [u32; 16] = [
    0x0000_0297, // auipc x5, 0
    0x00c5_1313, // slli x6, x10, 12
    0x0053_0333, // add x6, x6, x5
    0x0000_13b7, // lui x7, 1
    0x0073_0333, // add x6, x6, x7
    0x0000_9437, // lui x8, 9
    0x0054_0433, // add x8, x8, x5
    0x1000_04b7, // lui x9, 0x10000
    0x0200_0737, // lui x14, 0x2000
    0x0015_8593, // addi x11, x11, 1
    0x00b3_3023, // sd x11, 0(x6)
    0x00b4_362f, // amoadd.d x12, x11, (x8)
    0x00b4_8023, // sb x11, 0(x9)
    0x0007_3683, // ld x13, 0(x14)
    0x00d7_3423, // sd x13, 8(x14)
    0xfe9f_f06f, // jal x0, -24
];

/// Each vCPU prints a letter by its number, reads the time, and sets the compare value to it.
pub(crate) static PRINTS: [u32; 6] = [
    0x1000_02b7, // lui x5, 0x10000
    0x0415_0313, // addi x6, x10, 65
    0x0062_8023, // sb x6, 0(x5)
    0x0200_03b7, // lui x7, 0x2000
    0x0003_b403, // ld x8, 0(x7)
    0x0083_b423, // sd x8, 8(x7)
];
