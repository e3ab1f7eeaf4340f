//! Texts in byte order.

ghost use Rattle.std.specs.Prelude.{◌≡◌, option_map};
ghost use Rattle.eds_tree.specs.ByteOrder.{precedes as is_before, first_of as first_in};

fn precedes(a: &str, b: &str) -> bool
    ensures { result ≡ is_before a.now b.now }
{
    a < b
}

/// The first of two texts, of which the one may not be there.
pub(crate) fn first_of<'a>(found: Option<&'a str>, text: &'a str) -> Option<&'a str>
    ensures { option_map (λ w. w.now) result ≡ first_in (option_map (λ w. w.now) found.entry) text.now }
{
    match found {
        None => Some(text),
        Some(other) => {
            if precedes(text, other) {
                Some(text)
            } else {
                Some(other)
            }
        }
    }
}
