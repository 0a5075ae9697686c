//! Splits a text into lines of rules. A line of rules ends where its source line ends, but not inside parentheses: there a line end is a
//! blank. `;`, `{` and `}` end a line of rules earlier.

ghost use Rattle.std.specs.Prelude.{◌≡◌, ◌+◌, ◌≤◌, ◌<◌, ◌^◌, ◌∷◌, [], length, MatchOption, IfSome};
ghost use Rattle.rules_text.specs.ContinuedLines.{around_after, around_next, closes_block, ends_rule_line, is_line_end, nothing_around, rule_lines};
ghost use Rattle.rules_text.specs.inner.SeenLines.{around_seen, line_size};

/// What encloses an octet of a line: open parentheses, and perhaps a comment.
#[derive(Clone, Copy)]
struct Around {
    /// How many parentheses are open.
    parentheses: usize,
    /// Whether the octet is in a comment.
    comment: bool,
}

impl Around {
    /// What is around the first octet of a line.
    fn nothing() -> Around
        ensures seen { around_seen result ≡ nothing_around }
        ensures none { result.parentheses ≡ 0 }
    {
        Around {
            parentheses: 0,
            comment: false,
        }
    }

    /// Whether a line of rules ends with this octet, whatever comes after it.
    fn ends_with(self, octet: u8) -> bool
        ensures { result ≡ is_line_end (around_seen self) octet }
    {
        if octet == b'\n' {
            return self.parentheses == 0;
        }
        !self.comment && (octet == b';' || (octet == b'{' || octet == b'}'))
    }

    /// Whether octets begin with a `}` that ends a block: one outside of comments.
    fn closes_block(self, octets: &[u8]) -> bool
        ensures { result ≡ closes_block (around_seen self) octets.now }
    {
        match octets {
            [] => false,
            [octet, ..] => !self.comment && *octet == b'}',
        }
    }

    /// As many open parentheses, in a comment or not.
    fn commented(self, comment: bool) -> Around
        ensures seen { around_seen result ≡ record { parentheses = self.parentheses; comment = comment } }
        ensures same { result.parentheses ≡ self.parentheses }
    {
        Around {
            parentheses: self.parentheses,
            comment,
        }
    }

    /// What is around the octet after `octet`, which is in no comment.
    fn after(self, octet: u8) -> Around
        requires { self.parentheses < 2 ^ 63 }
        ensures seen { around_seen result ≡ around_after (around_seen self) octet }
        ensures more { result.parentheses ≤ self.parentheses + 1 }
    {
        let parentheses = match octet {
            b'#' => return self.commented(true),
            b'(' => self.parentheses + 1,
            b')' => self.parentheses.saturating_sub(1),
            // `->` ends a test, so no parenthesis is open after it.
            b'-' => 0,
            _ => return self,
        };
        Around {
            parentheses,
            comment: self.comment,
        }
    }

    /// What is around the octet after `octet`.
    fn next(self, octet: u8) -> Around
        requires { self.parentheses < 2 ^ 63 }
        ensures seen { around_seen result ≡ around_next (around_seen self) octet }
        ensures more { result.parentheses ≤ self.parentheses + 1 }
    {
        if !self.comment {
            return self.after(octet);
        }
        if octet == b'\n' {
            self.commented(false)
        } else {
            self
        }
    }
}

/// How many octets the first line of rules has.
#[tactic(auto, unfolding(crate::specs::inner::SeenLines::line_size))]
fn rule_line_len(text: &[u8]) -> usize
    ensures within { result ≤ length text.now }
    ensures size { result ≡ line_size nothing_around text.now }
{
    let mut around = Around::nothing();
    let mut left = text;
    let mut at = 0;
    while let [octet, rest @ ..] = left {
        let next = around.next(*octet);
        at += 1;
        if around.ends_with(*octet) || next.closes_block(rest) {
            return at;
        }
        around = next;
        left = rest;
    }
    at
}

/// Returns the first line of rules of a text, and the rest of the text. The line has the octet that ends it: a line feed, `;`, `{` or `}`.
/// Before a `}` it ends without one. None if the text is empty.
pub fn next_rule_line(text: &[u8]) -> Option<(&[u8], &[u8])>
    ensures lines { MatchOption result (rule_lines text.now ≡ [])
        (λ found. rule_lines text.now ≡ found.0.now ∷ rule_lines found.1.now) }
    ensures shorter { IfSome result (λ found. length found.1.now < length text.now) }
    ensures within { IfSome result (λ found. length found.0.now + length found.1.now ≡ length text.now) }
{
    if text.is_empty() {
        return None;
    }
    let at = rule_line_len(text);
    Some((&text[..at], &text[at..]))
}
