// A reader that takes the input in fragments and holds an unfinished line.
ghost use Rattle.std.specs.Prelude.{◌≡◌, ◌==◌, position};
ghost use Rattle.uplink.specs.Fragments.{held, fresh, hold_all, line_held, last_line, FedBy};

use crate::{Fed, Line, MOST_LINE, Reader};

// Where the first LF stands.
fn first_lf(s: &[u8]) -> Option<usize>
    ensures { result ≡ position (λ b. b == 10) s.now }
{
    s.iter().position(|b| *b == b'\n')
}

impl Reader {
    #[tactic(auto, unfolding(crate::specs::Fragments::held))]
    pub fn new() -> Reader
        ensures { held result ≡ fresh }
    {
        Reader {
            line: [0; MOST_LINE],
            len: 0,
            over: false,
        }
    }

    // Takes the bytes of a fragment from a position on, up to and with the first LF. Where there is none the fragment is used up.
    pub fn feed(&mut self, fragment: &[u8], from: usize) -> Fed
        ensures { FedBy (held self.old) fragment.now from result (held self.new) }
    {
        let rest = &fragment[from.min(fragment.len())..];
        match first_lf(rest) {
            Some(n) => {
                self.hold(&rest[..n]);
                Fed {
                    next: from + n + 1,
                    line: Some(self.take()),
                }
            }
            None => {
                self.hold(rest);
                Fed {
                    next: from + rest.len(),
                    line: None,
                }
            }
        }
    }

    // Holds more bytes of the line. Of those that are more than a line has it keeps only that there are some.
    fn hold(&mut self, bytes: &[u8])
        ensures { held self.new ≡ hold_all (held self.old) bytes.now }
    {
        let taken = bytes.len().min(MOST_LINE - self.len);
        let end = self.len + taken;
        self.line[self.len..end].copy_from_slice(&bytes[..taken]);
        self.len = end;
        if taken < bytes.len() {
            self.over = true;
        }
    }

    // The end of the input: an unfinished line counts if it has a byte. The reader is as new.
    #[tactic(auto, unfolding(crate::specs::Fragments::held, crate::specs::Fragments::last_line, crate::specs::Fragments::line_held))]
    pub fn finish(&mut self) -> Option<Line>
        ensures ready { held self.new ≡ fresh }
        ensures line { result ≡ last_line (held self.old) }
    {
        if self.len == 0 && !self.over {
            return None;
        }
        Some(self.take())
    }

    // The call that the held line is; one that is too long is bad whatever its bytes are. The reader is as new.
    #[tactic(auto, unfolding(crate::specs::Fragments::held, crate::specs::Fragments::line_held))]
    fn take(&mut self) -> Line
        ensures ready { held self.new ≡ fresh }
        ensures line { result ≡ line_held (held self.old) }
    {
        let Reader { line, len, over } = *self;
        *self = Reader::new();
        if over {
            Line::Bad
        } else {
            crate::grammar::parse(&line[..len])
        }
    }
}
