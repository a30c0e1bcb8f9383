// The range -M..M-1.
ghost use Rattle.std.specs.Prelude.{◌≡◌};
ghost use Rattle.model.specs.Parameters.{in_range};
ghost use Rattle.bounds.specs.Bounds.{IsLimit};

// z is in -M..M-1. Tried: one function over `Into<i64>` for both widths. A loop over 32-bit values, tested in 64 bits, took four times as long.
pub fn in_range(m: u32, z: i32) -> bool
    requires { IsLimit m }
    ensures { result ≡ in_range m z }
{
    let top = m as i32;
    (-top..top).contains(&z)
}

// The same of 64 bits.
pub fn in_range_wide(m: u32, z: i64) -> bool
    ensures { result ≡ in_range m z }
{
    let limit = i64::from(m);
    (-limit..limit).contains(&z)
}
