ghost use Rattle.std.specs.Prelude.{◌≡◌, ◌≤◌, ◌+◌, ◌<◌, ◌^◌, ◌==◌, length, position, IfOk, OnErr};
ghost use Rattle.std.specs.List.{list_any};
ghost use Rattle.zb_claims.specs.Text.{max_script};
ghost use Rattle.zb_claims.specs.Script.{is_comment};
ghost use Rattle.zb_script.specs.Places.{script_start, passed, size_of, count_of, IsNext, IsWhole};

use crate::header::read_header;
use crate::lines::read_line;
use std::alloc::Global;
use std::marker::Model;
use zb_types::{Geometry, Line, Mem, NoMemory};

/// How many bytes a line has at most, without its line end.
pub const MAX_LINE: usize = 17_000;

/// How many bytes a script has at most.
const MAX_SCRIPT: usize = 67_108_864;

/// What the next bytes of a script are. A line with its end has `used` bytes.
#[derive(Drop)]
pub enum Parsed {
    Header { geo: Geometry, used: usize },
    Line { line: Line, used: usize },
    /// An empty line or a comment.
    Skipped { used: usize },
    /// The first bytes of a line whose end isn't there yet.
    More,
    /// The line with this number, from 1, isn't one of the language, or ends past the limit of a script.
    Bad { number: u64 },
}

/// Where the first line ends.
pub fn line_end(bytes: &[u8]) -> Option<usize>
    ensures { result ≡ position (λ b. b == 10) bytes.now }
{
    bytes.iter().position(|b| *b == b'\n')
}

fn has_end(bytes: &[u8]) -> bool
    ensures { result ≡ list_any (λ c. c == 10) bytes.now }
{
    bytes.iter().any(|b| *b == b'\n')
}

// Whether a line, without its end, says nothing.
fn is_comment(line: &[u8]) -> bool
    ensures { result ≡ is_comment line.now }
{
    let [first, rest @ ..] = line else {
        return true;
    };
    *first == b'#' && !has_end(rest) && rest.len() < MAX_LINE
}

/// A script that is being read: the system of its header, and how much of it was read.
#[derive(Drop)]
pub struct Script {
    geo: Option<Geometry>,
    lines: usize,
    used: usize,
}

impl Model for Script {
    ghost use Rattle.std.specs.Prelude.{◌≤◌};
    ghost use Rattle.zb_claims.specs.Text.{max_script};
    ghost use Rattle.zb_script.specs.Places.{Place};

    ghost Value = { Place };

    ghost view = { λ a. record { geo = a.geo; lines = a.lines; used = a.used } };

    ghost invariant = { λ a. (a.used ≤ max_script) × (a.lines ≤ a.used) };
}

impl Script {
    /// A script of which nothing was read.
    pub fn new() -> Script
        ensures { result ≡ script_start }
    {
        Script {
            geo: None,
            lines: 0,
            used: 0,
        }
    }

    /// The number of the line at hand, from 1.
    pub fn line_number(&self) -> u64
        ensures { result ≡ self.now.lines + 1 }
    {
        self.lines as u64 + 1
    }

    // What a whole line is, given without its end.
    fn whole(&self, alloc: Global, words: &[u8]) -> Mem<Parsed>
        requires { length words.now < 2 ^ 63 }
        ensures { IfOk result (IsWhole self.now words.now) }
    {
        let used = words.len() + 1;
        let number = self.line_number();
        if is_comment(words) {
            return Ok(Parsed::Skipped { used });
        }
        let Some(geo) = self.geo else {
            return Ok(match read_header(words) {
                Some(geo) => Parsed::Header { geo, used },
                None => Parsed::Bad { number },
            });
        };
        Ok(match read_line(alloc, &geo, words)? {
            Some(line) => Parsed::Line { line, used },
            None => Parsed::Bad { number },
        })
    }

    // Moves behind what was read.
    fn pass(&mut self, parsed: &Parsed)
        requires limit { self.old.used + size_of parsed.now ≤ max_script }
        requires counted { count_of parsed.now ≤ size_of parsed.now }
        ensures { self.new ≡ passed self.old parsed.now }
    {
        let used = match parsed {
            Parsed::Header { used, .. } | Parsed::Line { used, .. } | Parsed::Skipped { used } =>
                *used,
            Parsed::More | Parsed::Bad { .. } => return,
        };
        if let Parsed::Header { geo, .. } = parsed {
            self.geo = Some(*geo);
        }
        self.lines += 1;
        self.used += used;
    }

    /// Reads the next line of a script from the bytes that follow what was read, and moves behind it. A line is whole
    /// with its end; `bytes` may have any more behind it.
    ///
    /// `More` comes exactly where there is no line end and there are at most 17,000 bytes, and `Bad` exactly where the
    /// line isn't in the language or ends past byte 67,108,864. After both, and after want of memory, the place is as
    /// it was.
    pub fn next(&mut self, alloc: Global, bytes: &[u8]) -> Mem<Parsed>
        ensures next { IfOk result (IsNext self.old bytes.now) }
        ensures place { IfOk result (λ parsed. self.new ≡ passed self.old parsed) }
        ensures err { OnErr result (self.new ≡ self.old) }
    {
        let number = self.line_number();
        let Some(end) = line_end(bytes) else {
            return Ok(if bytes.len() <= MAX_LINE {
                Parsed::More
            } else {
                Parsed::Bad { number }
            });
        };
        if end >= MAX_SCRIPT - self.used {
            return Ok(Parsed::Bad { number });
        }
        let (words, _) = bytes.split_at(end);
        let parsed = self.whole(alloc, words)?;
        self.pass(&parsed);
        Ok(parsed)
    }
}
