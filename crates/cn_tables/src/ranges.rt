ghost use Rattle.std.specs.Prelude.{◌≡◌, ◌≤◌, IfSome};
ghost use Rattle.cn_tables.specs.Ranges as spec;

/// A number from `least` to `most`.
pub fn within(value: i64, least: u32, most: u32) -> Option<u32>
    ensures value { result ≡ spec.within least most value }
    ensures least { IfSome result (λ n. least ≤ n) }
    ensures most { IfSome result (λ n. n ≤ most) }
{
    if value < 0 || value < i64::from(least) || value > i64::from(most) {
        return None;
    }
    Some(value as u32)
}

/// A number of 32 bits with its sign.
pub fn word(value: i64) -> Option<i32>
    ensures { result ≡ spec.word value }
{
    if value < -2_147_483_648 || value > 2_147_483_647 {
        return None;
    }
    Some(value as i32)
}
