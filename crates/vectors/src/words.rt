// The words of a line of text. Spaces, tabs and the carriage returns that some editors put at a line's end are blank.
ghost use Rattle.std.specs.Prelude.{◌≤◌, length};

pub fn is_blank(byte: u8) -> bool {
    matches!(byte, b' ' | b'\t' | b'\r')
}

pub fn is_word(byte: u8) -> bool {
    !is_blank(byte)
}

// The first place from `from` on whose byte is sought, or where the text ends.
pub fn find<F: Fn(u8) -> bool>(text: &[u8], from: usize, is_sought: F) -> usize
    requires start { from ≤ length text.now }
    requires test { F.IsAlwaysCallable is_sought }
    ensures { (from ≤ result) × (result ≤ length text.now) }
{
    match text[from..].iter().position(|&byte| is_sought(byte)) {
        Some(n) => from + n,
        None => text.len(),
    }
}

// How long a line is without the blanks at its end.
pub fn content(text: &[u8]) -> usize
    ensures { result ≤ length text.now }
{
    match text.iter().rposition(|&byte| !is_blank(byte)) {
        Some(last) => last + 1,
        None => 0,
    }
}

// Where a text begins after the byte-order mark that some editors put first.
pub fn begin(text: &[u8]) -> usize
    ensures { result ≤ length text.now }
{
    if text.starts_with(b"\xEF\xBB\xBF") {
        3
    } else {
        0
    }
}
