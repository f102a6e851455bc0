//! Numbers at the front of bytes, the most significant byte first.
ghost use Rattle.std.specs.Prelude.{◌≡◌, ◌≤◌, IfOk};
ghost use Rattle.std.specs.Int.{w8, w16, w32, w64};
ghost use Rattle.sbx_image.specs.Reading.{Gives, number_at, number_in, signed_at};

use sbx_parts::ImageFault;

pub fn u8_at(bytes: &[u8]) -> Result<(u8, &[u8]), ImageFault>
    ensures { Gives (λ x. (x.0, x.1.now)) result (number_at w8 bytes.now) }
{
    if bytes.len() < 1 {
        return Err(ImageFault::Short);
    }
    let (front, rest) = bytes.split_at(1);
    Ok((u8::from_be_bytes([front[0]]), rest))
}

pub fn u16_at(bytes: &[u8]) -> Result<(u16, &[u8]), ImageFault>
    ensures { Gives (λ x. (x.0, x.1.now)) result (number_at w16 bytes.now) }
{
    if bytes.len() < 2 {
        return Err(ImageFault::Short);
    }
    let (front, rest) = bytes.split_at(2);
    Ok((u16::from_be_bytes([front[0], front[1]]), rest))
}

pub fn u32_at(bytes: &[u8]) -> Result<(u32, &[u8]), ImageFault>
    ensures { Gives (λ x. (x.0, x.1.now)) result (number_at w32 bytes.now) }
{
    if bytes.len() < 4 {
        return Err(ImageFault::Short);
    }
    let (front, rest) = bytes.split_at(4);
    Ok((
        u32::from_be_bytes([front[0], front[1], front[2], front[3]]),
        rest,
    ))
}

pub fn u64_at(bytes: &[u8]) -> Result<(u64, &[u8]), ImageFault>
    ensures { Gives (λ x. (x.0, x.1.now)) result (number_at w64 bytes.now) }
{
    if bytes.len() < 8 {
        return Err(ImageFault::Short);
    }
    let (front, rest) = bytes.split_at(8);
    Ok((
        u64::from_be_bytes([
            front[0], front[1], front[2], front[3], front[4], front[5], front[6], front[7],
        ]),
        rest,
    ))
}

/// A number from `low` to `high`, else `bad`.
pub fn u8_in(bytes: &[u8], low: u8, high: u8, bad: ImageFault) -> Result<(u8, &[u8]), ImageFault>
    ensures reads { Gives (λ x. (x.0, x.1.now)) result (number_in w8 low high bad bytes.now) }
    ensures bound { IfOk result (λ x. (low ≤ x.0) × (x.0 ≤ high)) }
{
    let (n, rest) = u8_at(bytes)?;
    if !(low <= n && n <= high) {
        return Err(bad);
    }
    Ok((n, rest))
}

/// A number from `low` to `high`, else `bad`.
pub fn u16_in(
    bytes: &[u8],
    low: u16,
    high: u16,
    bad: ImageFault,
) -> Result<(u16, &[u8]), ImageFault>
    ensures reads { Gives (λ x. (x.0, x.1.now)) result (number_in w16 low high bad bytes.now) }
    ensures bound { IfOk result (λ x. (low ≤ x.0) × (x.0 ≤ high)) }
{
    let (n, rest) = u16_at(bytes)?;
    if !(low <= n && n <= high) {
        return Err(bad);
    }
    Ok((n, rest))
}

/// A number from `low` to `high`, else `bad`.
pub fn u32_in(
    bytes: &[u8],
    low: u32,
    high: u32,
    bad: ImageFault,
) -> Result<(u32, &[u8]), ImageFault>
    ensures reads { Gives (λ x. (x.0, x.1.now)) result (number_in w32 low high bad bytes.now) }
    ensures bound { IfOk result (λ x. (low ≤ x.0) × (x.0 ≤ high)) }
{
    let (n, rest) = u32_at(bytes)?;
    if !(low <= n && n <= high) {
        return Err(bad);
    }
    Ok((n, rest))
}

/// A number from `low` to `high`, else `bad`.
pub fn u64_in(
    bytes: &[u8],
    low: u64,
    high: u64,
    bad: ImageFault,
) -> Result<(u64, &[u8]), ImageFault>
    ensures reads { Gives (λ x. (x.0, x.1.now)) result (number_in w64 low high bad bytes.now) }
    ensures bound { IfOk result (λ x. (low ≤ x.0) × (x.0 ≤ high)) }
{
    let (n, rest) = u64_at(bytes)?;
    if !(low <= n && n <= high) {
        return Err(bad);
    }
    Ok((n, rest))
}

pub fn i32_at(bytes: &[u8]) -> Result<(i32, &[u8]), ImageFault>
    ensures { Gives (λ x. (x.0, x.1.now)) result (signed_at w32 bytes.now) }
{
    let (n, rest) = u32_at(bytes)?;
    Ok((n.cast_signed(), rest))
}

pub fn i64_at(bytes: &[u8]) -> Result<(i64, &[u8]), ImageFault>
    ensures { Gives (λ x. (x.0, x.1.now)) result (signed_at w64 bytes.now) }
{
    let (n, rest) = u64_at(bytes)?;
    Ok((n.cast_signed(), rest))
}
