// Classes of bytes.
ghost use Rattle.std.specs.Prelude.{◌≡◌};
ghost use Rattle.model.specs.Numbers.{is_blank, is_digit, upper};
ghost use Rattle.model.specs.Load.{is_separator, is_comment};

// Space, tab, CR and LF: what stands between the numbers of an input. Most bytes are none by one test.
pub fn is_blank(b: u8) -> bool
    ensures { result ≡ is_blank b }
{
    b <= b' ' && matches!(b, b' ' | b'\t' | b'\r' | b'\n')
}

// Space, tab, CR and comma: what stands between the words of a line.
pub fn is_separator(b: u8) -> bool
    ensures { result ≡ is_separator b }
{
    matches!(b, b' ' | b'\t' | b'\r' | b',')
}

// `/`, `#` and `;`: what begins a comment.
pub fn is_comment(b: u8) -> bool
    ensures { result ≡ is_comment b }
{
    matches!(b, b'/' | b'#' | b';')
}

// 0 to 9.
pub fn is_digit(b: u8) -> bool
    ensures { result ≡ is_digit b }
{
    b.is_ascii_digit()
}

// a to z as A to Z.
pub fn upper(b: u8) -> u8
    ensures { result ≡ upper b }
{
    b.to_ascii_uppercase()
}
