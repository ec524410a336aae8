ghost use Rattle.std.specs.Prelude.{◌≡◌, ◌++◌};
ghost use Rattle.zb_types.specs.Names.{is_below};
ghost use Rattle.zb_names.specs.Placing.{is_less};

// Whether a path is less by its bytes than the one with these two parts.
pub(crate) fn is_less(path: &[u8], head: &[u8], tail: &[u8]) -> bool
    ensures { result ≡ is_less path.now (head.now ++ tail.now) }
{
    if path.len() < head.len() {
        return path.cmp(head).is_lt();
    }
    let (front, rest) = path.split_at(head.len());
    front.cmp(head).then(rest.cmp(tail)).is_lt()
}

// Whether the other path begins with the path and a slash.
pub(crate) fn is_below(path: &[u8], other: &[u8]) -> bool
    ensures { result ≡ is_below path.now other.now }
{
    match other.get(path.len()) {
        None => false,
        Some(next) => *next == b'/' && other.starts_with(path),
    }
}
