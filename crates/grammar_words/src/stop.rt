ghost use Rattle.std.specs.Prelude.{◌≡◌, length};
ghost use Rattle.grammar_words.specs.Coded.{stop_at, at_end};

/// Why reading stops.
#[derive(Clone, Copy, Debug, PartialEq, Eq)]
pub enum Why {
    /// The token is wrong: no text goes on so.
    Wrong,
    /// The token begins a part that is nested deeper than the limit.
    Deep,
    /// A loop has no more turns. A reading of a whole text never ends so.
    Spent,
}

/// Where reading stops: `left` tokens are left there, the one at fault among them.
#[derive(Clone, Copy, Debug, PartialEq, Eq)]
pub struct Stop {
    pub why: Why,
    pub left: usize,
}

/// The stop before these tokens.
pub fn stop_before<T: Sized>(why: Why, rest: &[T]) -> Stop
    ensures { result ≡ stop_at why (length rest.now) }
{
    Stop {
        why,
        left: rest.len(),
    }
}

/// That nothing stands behind the whole.
pub fn expect_end<T: Sized>(rest: &[T]) -> Result<(), Stop>
    ensures { result ≡ at_end rest.now }
{
    if rest.is_empty() {
        return Ok(());
    }
    Err(stop_before(Why::Wrong, rest))
}
