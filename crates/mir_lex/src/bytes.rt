ghost use Rattle.std.specs.Prelude.{◌≡◌, ◌≤◌, length, take, drop};
ghost use Rattle.std.specs.List.{list_all, prefix_len};
ghost use Rattle.mir_lex.specs.Bytes.{within, is_separator, is_blank, is_digit, is_hex, is_word_start, is_word_byte, is_quote, is_apostrophe, is_bracket, is_point, is_sign_byte, is_double, first_is, starts};

pub fn within(low: u8, high: u8, byte: u8) -> bool
    ensures { result ≡ within low high byte }
{
    low <= byte && byte <= high
}

pub fn is_separator(byte: u8) -> bool
    ensures { result ≡ is_separator byte }
{
    byte == b' ' || byte == b'\t' || byte == b'\r' || byte == b'\n'
}

pub fn is_blank(byte: u8) -> bool
    ensures { result ≡ is_blank byte }
{
    byte == b' ' || byte == b'\t'
}

pub fn is_digit(byte: u8) -> bool
    ensures { result ≡ is_digit byte }
{
    within(b'0', b'9', byte)
}

fn is_hex(byte: u8) -> bool
    ensures { result ≡ is_hex byte }
{
    is_digit(byte) || within(b'a', b'f', byte) || within(b'A', b'F', byte)
}

pub fn is_word_start(byte: u8) -> bool
    ensures { result ≡ is_word_start byte }
{
    within(b'a', b'z', byte) || within(b'A', b'Z', byte) || byte == b'_'
}

/// An ASCII letter, a digit or `_`: what a word goes on with.
pub fn is_word_byte(byte: u8) -> bool
    ensures { result ≡ is_word_byte byte }
{
    is_word_start(byte) || is_digit(byte)
}

/// How many word bytes stand at the front.
pub fn word_len(bytes: &[u8]) -> usize
    ensures value { result ≡ prefix_len is_word_byte bytes.now }
    ensures within { result ≤ length bytes.now }
{
    bytes.iter().take_while(|b| is_word_byte(**b)).count()
}

/// How many digits stand at the front.
pub fn digits_len(bytes: &[u8]) -> usize
    ensures value { result ≡ prefix_len is_digit bytes.now }
    ensures within { result ≤ length bytes.now }
{
    bytes.iter().take_while(|b| is_digit(**b)).count()
}

pub fn are_digits(bytes: &[u8]) -> bool
    ensures { result ≡ list_all is_digit bytes.now }
{
    let mut left = bytes;
    while let [byte, rest @ ..] = left {
        if !is_digit(*byte) {
            return false;
        }
        left = rest;
    }
    true
}

/// How many hexadecimal digits stand at the front.
pub fn hex_len(bytes: &[u8]) -> usize
    ensures value { result ≡ prefix_len is_hex bytes.now }
    ensures within { result ≤ length bytes.now }
{
    bytes.iter().take_while(|b| is_hex(**b)).count()
}

/// A word byte stands at the front.
pub fn goes_on(bytes: &[u8]) -> bool
    ensures { result ≡ first_is is_word_byte bytes.now }
{
    match bytes {
        [] => false,
        [byte, ..] => is_word_byte(*byte),
    }
}

/// A letter or `_` stands at the front: what a word begins with.
pub fn begins_word(bytes: &[u8]) -> bool
    ensures { result ≡ first_is is_word_start bytes.now }
{
    match bytes {
        [] => false,
        [byte, ..] => is_word_start(*byte),
    }
}

pub fn begins_with_apostrophe(bytes: &[u8]) -> bool
    ensures { result ≡ first_is is_apostrophe bytes.now }
{
    match bytes {
        [] => false,
        [byte, ..] => *byte == b'\'',
    }
}

/// The bytes begin with those of `needle`.
pub fn starts(needle: &[u8], bytes: &[u8]) -> bool
    ensures { result ≡ starts needle.now bytes.now }
{
    match needle {
        [] => true,
        [wanted, more @ ..] => match bytes {
            [] => false,
            [byte, rest @ ..] => *byte == *wanted && starts(more, rest),
        },
    }
}

pub fn is_sign_byte(byte: u8) -> bool
    ensures { result ≡ is_sign_byte byte }
{
    is_bracket(byte) || is_point(byte)
}

fn is_bracket(byte: u8) -> bool
    ensures { result ≡ is_bracket byte }
{
    byte == b'('
        || byte == b')'
        || byte == b'{'
        || byte == b'}'
        || byte == b'['
        || byte == b']'
        || byte == b'<'
        || byte == b'>'
}

fn is_point(byte: u8) -> bool
    ensures { result ≡ is_point byte }
{
    byte == b','
        || byte == b';'
        || byte == b':'
        || byte == b'.'
        || byte == b'='
        || byte == b'&'
        || byte == b'*'
        || byte == b'!'
        || byte == b'+'
        || byte == b'-'
}

/// A sign of two bytes.
pub fn is_double(first: u8, second: u8) -> bool
    ensures { result ≡ is_double first second }
{
    (first == b'-' && second == b'>')
        || (first == b'=' && second == b'>')
        || (first == b':' && second == b':')
}

/// The bytes behind the first `len`.
pub fn behind(bytes: &[u8], len: usize) -> &[u8]
    ensures { result.now ≡ drop len bytes.now }
{
    if len <= bytes.len() {
        &bytes[len..]
    } else {
        &[]
    }
}

/// The first `len` bytes, or all.
pub fn front(bytes: &[u8], len: usize) -> &[u8]
    ensures { result.now ≡ take len bytes.now }
{
    if len <= bytes.len() {
        &bytes[..len]
    } else {
        bytes
    }
}
