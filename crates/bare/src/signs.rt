// Rows of signs as numbers, so that runs that show the same are found by comparing numbers.
ghost use Rattle.std.specs.Prelude.{◌+◌, ◌<◌, IfSome};
ghost use Rattle.std.specs.Iterator.{at_most};
ghost use Rattle.std.specs.Option.{option_map_or};

use std::fmt;

// A 1, and behind it three bits for each sign, the latest lowest. Ten signs up to 7 fit.
#[derive(Clone, Copy, PartialEq, Eq, PartialOrd, Ord)]
pub struct Signs {
    code: u32,
}

impl Signs {
    pub const NONE: Signs = Signs { code: 1 };

    // The row with one sign more, if there is one.
    pub fn then(self, sign: Option<u16>) -> Signs {
        match sign {
            Some(sign) => Signs {
                code: self.code.wrapping_mul(8).wrapping_add(u32::from(sign)),
            },
            None => self,
        }
    }

    // The row and its first parts, the longest first.
    pub fn parts(self) -> Parts {
        Parts { next: Some(self) }
    }

    // The row without its last sign, if it has one.
    fn first_part(self) -> Option<Signs>
        ensures { IfSome result (λ part. part.code < self.code) }
    {
        match self.code / 8 {
            0 => None,
            code => Some(Signs { code }),
        }
    }

    pub fn last(self) -> Option<u16> {
        if self == Signs::NONE {
            return None;
        }
        Some((self.code % 8) as u16)
    }
}

// The signs as digits, or 0 if there are none.
impl fmt::Display for Signs {
    fn fmt<W: fmt::Write>(&self, f: &mut fmt::Formatter<W>) -> fmt::Result {
        let first = self.code.checked_ilog2().unwrap_or(0);
        let digits = self.code ^ 1u32.wrapping_shl(first);
        write!(f, "{digits:o}")
    }
}

#[derive(Clone, Copy)]
pub struct Parts {
    next: Option<Signs>,
}

impl Iterator for Parts {
    type Item = Signs;

    ghost remaining = { λ s. at_most (option_map_or (λ part. part.code + 1) s.next 0) };

    fn next(&mut self) -> Option<Signs> {
        let part = self.next?;
        self.next = part.first_part();
        Some(part)
    }
}
