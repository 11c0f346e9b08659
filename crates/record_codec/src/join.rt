//! The checksum of two lists of bytes one after another, from the checksums of each.
//!
//! A register is a polynomial: its highest bit is the coefficient of x^0, the next that of x^1. A bit of 0 that goes in
//! multiplies the register by x, modulo the polynomial of the checksum. So n bytes of 0 multiply it by x^(8n), which is
//! called the shift of n here: `times` multiplies by it in the same 32 steps for any n, and `shift_over` finds it.

ghost use Rattle.std.specs.Prelude.{◌≡◌, ℕ, ◌+◌, ◌*◌, ◌^◌, ◌<◌, ◌++◌, List, length};
ghost use Rattle.mq_bytes.specs.Bytes.{AreBytes};
ghost use Rattle.mq_bytes.specs.Crc.{bit_out, crc_of};
ghost use Rattle.mq_bytes.specs.Tables.{after};
ghost use Rattle.record_codec.specs.Join.{shift_of};

// The polynomial 1, which is the shift of 0.
const ONE: u32 = 0x8000_0000;

// Row j, column d holds the shift of d * 16^j. A ninth row would be the first: the power 2^32 of x is x.
static SHIFTS: [u32; 128] = [
    0x80000000, 0x00800000, 0x00008000, 0x00000080, 0xEDB88320, 0x3B83984B, 0xE1351B80, 0xED59B63B,
    0xB1E6B092, 0x1EB014D8, 0x8816EAF2, 0x533B85DA, 0x6655004F, 0xE6050901, 0x77E1359F, 0x60C76FE0,
    0x80000000, 0xA06A2517, 0xED627DAE, 0x15141C31, 0x88D14467, 0x4721589F, 0xE5B592B8, 0x6325605C,
    0xD7BBFE6A, 0xDB54814C, 0x0EAEE722, 0x784D2A56, 0x62B6CA4B, 0x291EA462, 0x6B1D2B53, 0x8FD2CD3C,
    0x80000000, 0xEC447F11, 0x8E7EA170, 0x05616C82, 0x6427800E, 0x5EF840E2, 0xBF110F7E, 0x118F848E,
    0x4D47BAE0, 0xA84BDC84, 0x0B19AE7F, 0xAF5619BC, 0x6347A4BD, 0xD91EF3CB, 0x13D40D42, 0x5B6CDA72,
    0x80000000, 0x09FE548F, 0x83852D0F, 0xE4B54665, 0x30362F1A, 0x668145E1, 0xF27674AD, 0xB8C9F94B,
    0x7B5A9CC3, 0x866744B2, 0xC99622B9, 0xAFE90854, 0xEC735CEA, 0xEFE9D761, 0x0F9F0002, 0xF014301E,
    0x80000000, 0x31FEC169, 0x9FEC022A, 0x169810B5, 0x6C8DEDC4, 0x2484F1BC, 0x0ABF1A4F, 0x31CA80C2,
    0x15D6874D, 0xBD2A626F, 0xADDC2F07, 0x6736439C, 0x07474644, 0xF4165146, 0xFB765627, 0xE2FAF430,
    0x80000000, 0x5FDE7A4E, 0xBAD90E37, 0x799A8CF7, 0x2E4E5EEF, 0x7AD256CC, 0x725D2AAD, 0xC340F13E,
    0x4EABA214, 0x05EFB6AD, 0x36A60923, 0x65B78F8D, 0xDFCD2365, 0x55252240, 0x2177BC48, 0x3446C848,
    0x80000000, 0xA8A472C0, 0x429A969E, 0x3E855758, 0x148D302A, 0xEC8302FA, 0x6633295B, 0x9DD77BF8,
    0xC40BA6D0, 0xC0262B6B, 0x9C7B4C60, 0x48536A3E, 0x966BBC20, 0x21476B31, 0xA1C375B0, 0x33F2D7B5,
    0x80000000, 0xC4E22C3C, 0x40000000, 0x6271161E, 0x20000000, 0x31388B0F, 0x10000000, 0xF524C6A7,
    0x08000000, 0x972AE073, 0x04000000, 0xA62DF319, 0x02000000, 0xBEAE7AAC, 0x01000000, 0x5F573D56,
];

// The register one bit of 0 on.
fn step(register: u32) -> u32
    ensures { result ≡ bit_out register }
{
    let half = register / 2;
    if register % 2 == 0 {
        half
    } else {
        half ^ 0xEDB8_8320
    }
}

// The register as many bytes of 0 on as the shift says: for each power of x that the register has, `moved` is the shift times
// that power. No step waits for the sum.
fn times(register: u32, shift: u32) -> u32
    ensures { (n : ℕ) → shift ≡ shift_of n → result ≡ after n register }
{
    let mut sum = 0;
    let mut moved = shift;
    for power in 0..32_u32 {
        let term = if (register >> (31 - power)) % 2 == 0 {
            0
        } else {
            moved
        };
        sum ^= term;
        moved = step(moved);
    }
    sum
}

// The shift of d * 16^j.
fn shift_at(j: usize, d: usize) -> u32
    requires { d < 16 }
    ensures { result ≡ shift_of (d * 16 ^ j) }
{
    SHIFTS[j % 8 * 16 + d]
}

// The shift of both lengths together. Where one is 0 there is nothing to multiply.
fn both(shift: u32, other: u32) -> u32
    ensures { (m n : ℕ) → shift ≡ shift_of m → other ≡ shift_of n → result ≡ shift_of (m + n) }
{
    if shift == ONE {
        other
    } else {
        times(shift, other)
    }
}

/// The shift of so many bytes: what `crc32_join` moves a checksum by.
pub fn shift_over(len: usize) -> u32
    ensures { result ≡ shift_of len }
{
    let mut shift = ONE;
    let mut rest = len;
    let mut row = 0;
    while rest != 0 {
        if rest % 16 != 0 {
            shift = both(shift, shift_at(row, rest % 16));
        }
        rest /= 16;
        row += 1;
    }
    shift
}

/// The CRC-32 of bytes whose CRC-32 is `first`, followed by bytes whose CRC-32 is `second`, and whose length has this shift.
pub fn crc32_join(first: u32, second: u32, shift: u32) -> u32
    ensures { (front back : List ℕ) → AreBytes front → AreBytes back → first ≡ crc_of front → second ≡ crc_of back
        → shift ≡ shift_of (length back) → result ≡ crc_of (front ++ back) }
{
    times(first, shift) ^ second
}
