// Numbers as little-endian bytes in a slice: whole numbers, and f64 bit patterns.
#![tactic(auto)]

ghost use Rattle.std.specs.Prelude.{◌≡◌, ◌+◌, ◌*◌, ◌^◌, ◌≤◌, ◌<◌, length, drop};
ghost use Rattle.std.proofs.lemmas.List.Edits.{sets};
ghost use Rattle.plate_laws.specs.Lists.{All};
ghost use Rattle.little_endian.specs.Bytes.{to_bytes, field, patterns, floats};
ghost use Rattle.little_endian.specs.Numbers.{NoNan};

// The lowest N bytes of x, from byte i on. (No `to_le_bytes`: it has eight bytes, and N may be more.)
pub fn put<const N: usize>(bytes: &mut [u8], i: usize, x: u64)
    requires { i + N ≤ length bytes.old }
    ensures { bytes.new ≡ sets bytes.old i (to_bytes N x) }
{
    let mut left = x;
    for byte in &mut bytes[i..i + N] {
        *byte = (left % 256) as u8;
        left /= 256;
    }
}

// The number of the N bytes from byte i on. (No `from_le_bytes`: two or four bytes would first be copied into an array of eight, which is no plainer.)
pub fn read<const N: usize>(bytes: &[u8], i: usize) -> u64
    requires within { i + N ≤ length bytes.now }
    requires fits { N ≤ 8 }
    ensures number { result ≡ field i N bytes.now }
    ensures small { result < 256 ^ N }
{
    let mut x = 0;
    for &b in bytes[i..i + N].iter().rev() {
        x = 256 * x + u64::from(b);
    }
    x
}

// The bit patterns of the numbers, from byte i on.
pub fn put_f64s(bytes: &mut [u8], i: usize, xs: &[f64])
    requires within { i + 8 * length xs.now ≤ length bytes.old }
    requires numbers { All NoNan xs.now }
    ensures { bytes.new ≡ sets bytes.old i (patterns xs.now) }
{
    for (j, x) in xs.iter().enumerate() {
        put::<8>(bytes, i + 8 * j, x.to_bits());
    }
}

// Every element becomes the number whose bit pattern stands there, from byte i on.
pub fn read_f64s(bytes: &[u8], i: usize, xs: &mut [f64])
    requires within { i + 8 * length xs.old ≤ length bytes.now }
    requires numbers { All NoNan (floats (length xs.old) (drop i bytes.now)) }
    ensures { xs.new ≡ floats (length xs.old) (drop i bytes.now) }
{
    for (j, x) in xs.iter_mut().enumerate() {
        *x = f64::from_bits(read::<8>(bytes, i + 8 * j));
    }
}
