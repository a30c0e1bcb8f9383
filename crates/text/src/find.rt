// Looking for a byte.
ghost use Rattle.std.specs.Prelude.{◌≤◌, length};
ghost use Rattle.text.specs.Find.{FindsFirst, FindsFrom};

// The place of the first byte that passes the test, or the text's end.
pub(crate) fn find<F: Fn(u8) -> bool>(t: &[u8], test: F) -> usize
    requires { F.IsAlwaysCallable test }
    ensures bound { result ≤ length t.now }
    ensures place { FindsFirst (F.post test) t.now result }
{
    t.iter().position(|&b| test(b)).unwrap_or(t.len())
}

// The same from p on.
pub(crate) fn find_from<F: Fn(u8) -> bool>(t: &[u8], p: usize, test: F) -> usize
    requires callable { F.IsAlwaysCallable test }
    requires place { p ≤ length t.now }
    ensures bound { result ≤ length t.now }
    ensures place { FindsFrom (F.post test) t.now p result }
{
    p + find(&t[p..], test)
}
