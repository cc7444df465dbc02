ghost use Rattle.std.specs.Prelude.{◌≡◌};
ghost use Rattle.cn_tables.specs.FillText as spec;

use cn_base::Fill;

/// The bytes that 2 to 128 hexadecimal digits spell, of either case.
pub fn fill_of(text: &[u8]) -> Option<Fill>
    ensures { result ≡ spec.fill_of text.now }
{
    if text.len() < 2 || text.len() > 128 {
        return None;
    }
    let mut bytes = [0; 64];
    let len = text.len() / 2;
    match hex::decode_to_slice(text, &mut bytes[..len]) {
        Ok(()) => Some(Fill::of(&bytes[..len])),
        Err(_) => None,
    }
}
