ghost use Rattle.std.specs.Prelude.{◌≡◌, ◌≤◌};
ghost use Rattle.catnap_words.specs.Words.{number_of};

/// A number word: 1 to `most` decimal digits, of a value of at most `limit`.
#[tactic(auto, using(crate::proofs::Digits::value_from_le))]
pub fn number(word: &str, most: usize, limit: u32) -> Option<u32>
    requires { limit ≤ 100000000 }
    ensures { result ≡ number_of most limit word.now }
{
    let bytes = word.as_bytes();
    if bytes.is_empty() || bytes.len() > most {
        return None;
    }
    let mut value = 0u32;
    let mut rest = word.as_bytes();
    while let [digit, after @ ..] = rest {
        if *digit < b'0' || *digit > b'9' {
            return None;
        }
        value = value * 10 + u32::from(*digit - b'0');
        if value > limit {
            return None;
        }
        rest = after;
    }
    Some(value)
}
