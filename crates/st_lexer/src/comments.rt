// Comments and pragmas: where they end.

ghost use Rattle.std.specs.Prelude.{◌≡◌, ◌≤◌, length, IfSome};
ghost use Rattle.st_lexer.specs.Texts as texts;
ghost use Rattle.st_lexer.specs.Front as fronts;

/// The styles of comments that have an end: `(* *)` and `/* */`.
#[derive(Clone, Copy, Debug, PartialEq, Eq)]
pub(crate) enum Style {
    Parentheses,
    Slashes,
}

/// The byte before the star that opens a comment.
fn opener(style: Style) -> u8
    ensures { result ≡ texts.opener style }
{
    match style {
        Style::Parentheses => b'(',
        Style::Slashes => b'/',
    }
}

/// The byte behind the star that closes a comment.
fn closer(style: Style) -> u8
    ensures { result ≡ texts.closer style }
{
    match style {
        Style::Parentheses => b')',
        Style::Slashes => b'/',
    }
}

fn is_pair(x: u8, y: u8, first: u8, second: u8) -> bool
    ensures { result ≡ texts.is_pair x y first second }
{
    first == x && second == y
}

/// Behind how many bytes a comment ends whose opening mark was read.
#[tactic(auto, unfolding(crate::specs::Texts::closes))]
pub(crate) fn comment_length(style: Style, bytes: &[u8]) -> Option<usize>
    ensures value { result ≡ texts.closes style 0 bytes.now }
    ensures within { IfSome result (λ n. n ≤ length bytes.now) }
{
    let opening = opener(style);
    let closing = closer(style);
    let mut depth: usize = 0;
    let mut count: usize = 0;
    let mut rest = bytes;
    'more: while let Some((byte, others)) = rest.split_first() {
        let Some((next, further)) = others.split_first() else {
            return None;
        };
        if is_pair(opening, b'*', *byte, *next) {
            depth += 1;
            count += 2;
            rest = further;
        } else if is_pair(b'*', closing, *byte, *next) {
            count += 2;
            if depth == 0 {
                return Some(count);
            }
            depth -= 1;
            rest = further;
        } else {
            count += 1;
            rest = others;
        }
    }
    None
}

/// Behind how many bytes a pragma ends whose `{` was read.
#[tactic(auto, unfolding(crate::specs::Front::pragma_at))]
pub(crate) fn pragma_length(bytes: &[u8]) -> Option<usize>
    ensures value { result ≡ fronts.pragma_at bytes.now }
    ensures within { IfSome result (λ n. n ≤ length bytes.now) }
{
    let mut count: usize = 0;
    let mut rest = bytes;
    'more: while let Some((byte, others)) = rest.split_first() {
        count += 1;
        if *byte == b'}' {
            return Some(count);
        }
        rest = others;
    }
    None
}
