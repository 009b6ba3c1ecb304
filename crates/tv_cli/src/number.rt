ghost use Rattle.std.specs.Prelude.{◌≡◌, ◌≤◌, IfSome};
ghost use Rattle.tv_cli.specs.Words.{number_within};

/// The numbers that an option takes, and its default.
#[derive(Clone, Copy, Debug, PartialEq, Eq)]
pub struct Range {
    pub least: u64,
    pub most: u64,
    pub usual: u64,
}

/// The number in a text, as `parse` reads it, if it is in the range.
pub fn number_in(text: &str, range: Range) -> Option<u64>
    ensures value { result ≡ number_within range text.now }
    ensures within { IfSome result (λ n. (range.least ≤ n) × (n ≤ range.most)) }
{
    let most = range.most;
    match text.parse::<u64>() {
        Ok(number) => {
            if range.least <= number && number <= most {
                Some(number)
            } else {
                None
            }
        }
        Err(_) => None,
    }
}
