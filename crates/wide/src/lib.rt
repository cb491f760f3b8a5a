// Numbers of 128 bits as two halves, and no u128: the documents ask that the sum is the program's own work over bits.
#![tactic(auto)]

ghost use Rattle.std.specs.Prelude.{◌≡◌, ◌+◌, ◌*◌, ◌/◌, ◌%◌, ◌^◌, ◌<◌, ◌≤◌};
ghost use Rattle.rounding.specs.StickyBit.{sticky_bit};
ghost use Rattle.rounding.specs.Wide.{wide};

// hi × 2^64 + lo
#[derive(Clone, Copy)]
pub struct Wide {
    pub hi: u64,
    pub lo: u64,
}

// What a shift to the right leaves, and the sticky bit of what it cut off.
// The bit is a number and no bool: rounding adds it below the last digit, as 2 * q + sticky, and the definitions of rounding take it as a number.
#[derive(Clone, Copy)]
pub struct Shifted {
    pub value: Wide,
    pub sticky: u64,
}

pub fn square(s: u64) -> Wide
    requires { s < 2 ^ 61 }
    ensures value { wide result.hi result.lo ≡ s * s }
    ensures low { result.lo < 2 ^ 64 }
{
    let a = s / 4294967296;
    let b = s % 4294967296;
    let m = 2 * a * b;
    let low = b * b;
    let c = low / 4294967296 + m % 4294967296;
    Wide {
        hi: a * a + m / 4294967296 + c / 4294967296,
        lo: c % 4294967296 * 4294967296 + low % 4294967296,
    }
}

pub fn sticky_bit(x: u64) -> u64
    ensures bit { result ≡ sticky_bit x }
    ensures most { result ≤ 1 }
{
    u64::from(x != 0)
}

fn shift_right_below_64(w: Wide, d: u64) -> Shifted
    requires { d < 64 }
    ensures value { wide result.value.hi result.value.lo ≡ wide w.hi w.lo / 2 ^ d }
    ensures sticky { result.sticky ≡ sticky_bit (wide w.hi w.lo % 2 ^ d) }
{
    if d == 0 {
        return Shifted {
            value: w,
            sticky: 0,
        };
    }
    let h = w.hi >> d;
    let l = w.lo >> d;
    let moved = (w.hi - (h << d)) << (64 - d);
    Shifted {
        value: Wide {
            hi: h,
            lo: moved + l,
        },
        sticky: sticky_bit(w.lo - (l << d)),
    }
}

pub fn shift_right(w: Wide, d: u64) -> Shifted
    ensures value { wide result.value.hi result.value.lo ≡ wide w.hi w.lo / 2 ^ d }
    ensures sticky { result.sticky ≡ sticky_bit (wide w.hi w.lo % 2 ^ d) }
{
    if d < 64 {
        return shift_right_below_64(w, d);
    }
    if d < 128 {
        let c = shift_right_below_64(Wide { hi: 0, lo: w.hi }, d - 64);
        return Shifted {
            value: Wide {
                hi: 0,
                lo: c.value.lo,
            },
            sticky: sticky_bit(c.sticky + sticky_bit(w.lo)),
        };
    }
    Shifted {
        value: Wide { hi: 0, lo: 0 },
        sticky: sticky_bit(sticky_bit(w.hi) + sticky_bit(w.lo)),
    }
}

// A sum that stays below 2^127.
pub fn plus(a: Wide, b: Wide) -> Wide
    requires { a.hi + b.hi < 2 ^ 63 }
    ensures value { wide result.hi result.lo ≡ wide a.hi a.lo + wide b.hi b.lo }
    ensures low { result.lo < 2 ^ 64 }
{
    let (lo, carried) = a.lo.overflowing_add(b.lo);
    Wide {
        hi: a.hi + b.hi + u64::from(carried),
        lo,
    }
}
