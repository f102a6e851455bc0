//! The order of addresses, and the bounds of signed fields.
ghost use Rattle.std.specs.Prelude.{◌≡◌};
ghost use Rattle.sbx_parts.specs.Rules.{admits, is_coefficient, is_fuel};

const FUEL: i64 = 1 << 40;

/// Where the next address may lie.
#[derive(Clone, Copy)]
pub enum Next {
    /// At this address alone.
    Exactly(u32),
    /// Past this address.
    Above(u32),
}

/// Whether an address may come next, in code that ends at `end`.
pub fn admits(end: u32, next: Next, address: u32) -> bool
    ensures { result ≡ admits end next address }
{
    match next {
        Next::Exactly(only) => address == only,
        Next::Above(last) => last < address && (address % 4 == 0 && address < end),
    }
}

/// Whether a coefficient is not 0.
pub fn is_coefficient(n: i32) -> bool
    ensures { result ≡ is_coefficient n }
{
    n < 0 || 0 < n
}

/// Whether a fuel constant is below 2^40 in magnitude.
pub fn is_fuel(fuel: i64) -> bool
    ensures { result ≡ is_fuel fuel }
{
    -FUEL < fuel && fuel < FUEL
}
