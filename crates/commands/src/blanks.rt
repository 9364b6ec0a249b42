// Blanks at the ends of a line.
ghost use Rattle.std.specs.Prelude.{◌≡◌, ◌-◌, ◌≤◌, [], length};
ghost use Rattle.std.specs.Bool.{Decides};
ghost use Rattle.std.specs.List.{prefix_len, suffix_len};
ghost use Rattle.commands.specs.Commands as read;

/// A space or a tab.
pub fn is_blank(byte: u8) -> bool
    ensures { result ≡ read.is_blank byte }
{
    byte == b' ' || byte == b'\t'
}

// How many blanks stand at the front.
fn blanks_at_front(line: &[u8]) -> usize
    ensures value { result ≡ prefix_len read.is_blank line.now }
    ensures within { result ≤ length line.now }
{
    let mut count = 0;
    while count < line.len() && is_blank(line[count]) {
        count += 1;
    }
    count
}

// How many bytes stand before the blanks at the end.
fn len_before_blanks(line: &[u8]) -> usize
    ensures value { result ≡ length line.now - suffix_len read.is_blank line.now }
    ensures within { result ≤ length line.now }
{
    let mut len = line.len();
    while len > 0 && is_blank(line[len - 1]) {
        len -= 1;
    }
    len
}

/// What stands behind the blanks at the front.
#[tactic(auto, using(crate::proofs::Boundaries::behind_front))]
pub fn behind_blanks(line: &str) -> &str
    ensures value { result.now ≡ read.behind_blanks line.now }
    ensures len { length result.now ≤ length line.now }
{
    line.split_at(blanks_at_front(line.as_bytes())).1
}

/// What stands before the blanks at the end.
#[tactic(auto, using(crate::proofs::Boundaries::before_end))]
pub fn before_blanks(line: &str) -> &str
    ensures value { result.now ≡ read.before_blanks line.now }
    ensures len { length result.now ≤ length line.now }
{
    line.split_at(len_before_blanks(line.as_bytes())).0
}

/// The line without the blanks at both ends.
pub fn trimmed(line: &str) -> &str
    ensures value { result.now ≡ read.trimmed line.now }
    ensures len { length result.now ≤ length line.now }
{
    before_blanks(behind_blanks(line))
}

/// Whether the line has blanks alone, or no byte.
pub fn is_blank_line(line: &[u8]) -> bool
    ensures { Decides result (read.trimmed line.now ≡ []) }
{
    blanks_at_front(line) == line.len()
}

/// The line without one carriage return at its end.
pub fn without_return(line: &[u8]) -> &[u8]
    ensures value { result.now ≡ read.without_return line.now }
    ensures len { length result.now ≤ length line.now }
{
    match line {
        [before @ .., b'\r'] => before,
        _ => line,
    }
}
