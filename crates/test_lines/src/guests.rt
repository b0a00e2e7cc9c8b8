/// Each vCPU adds to the first word of a page of its own, over and over.
#[rattlefmt::skip]
pub const ADDS: [u8; 28] = [
    0x97, 0x22, 0x00, 0x00, // auipc x5, 2
    0x13, 0x13, 0xc5, 0x00, // slli x6, x10, 12
    0xb3, 0x82, 0x62, 0x00, // add x5, x5, x6
    0x83, 0xb3, 0x02, 0x00, // ld x7, 0(x5)
    0x93, 0x83, 0x13, 0x00, // addi x7, x7, 1
    0x23, 0xb0, 0x72, 0x00, // sd x7, 0(x5)
    0x6f, 0xf0, 0x5f, 0xff, // jal x0, -12
];

/// What the guest that adds has become on two vCPUs with 512 pages, once each has run 60,000 instructions.
pub const ADDED: &str = "clock 179998
cpu 0 running pc 0000000080000010 steps 60000
x5 0000000080002000
x7 0000000000003a97
cpu 1 running pc 0000000080000010 steps 60000
x5 0000000080003000
x6 0000000000001000
x7 0000000000003a97
x10 0000000000000001
serial 0 lost 0
timer 0000000000000000
ram pages 512 nonzero 3 sum 013a76b9ffd68e7a
";

/// addi x5, x5, 1 and jal x0, -4, and a byte in each of pages 1 and 2.
pub fn counting() -> [u8; 8193] {
    let mut image = [0; 8193];
    image[..8].copy_from_slice(&[0x93, 0x82, 0x12, 0, 0x6f, 0xf0, 0xdf, 0xff]);
    image[4096] = 1;
    image[8192] = 1;
    image
}
