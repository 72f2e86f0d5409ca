//! Citations.

ghost use Rattle.std.specs.Prelude.{◌≡◌, ◌+◌, ◌<◌, ◌^◌, Some, None};
ghost use Rattle.hq_cert.specs.View.{cited};

/// What stands for `=`: no line has this number.
const SAME: u32 = u32::MAX;

/// What a line or a pair line cites: a line by its number, or `=`, that two packets are one. It takes four bytes,
/// since large certificates have millions of them.
#[derive(Clone, Copy, Debug, PartialEq, Eq)]
pub struct Citation {
    code: u32,
}

impl Citation {
    /// The citation `=`.
    pub fn same() -> Citation
        ensures { cited result ≡ None }
    {
        Citation { code: SAME }
    }

    /// The citation of a line by its number.
    pub fn line(number: u32) -> Citation
        requires { number + 1 < 2 ^ 32 }
        ensures { cited result ≡ Some number }
    {
        Citation { code: number }
    }

    /// The number of the line, or None for `=`.
    pub fn number(self) -> Option<u32>
        ensures { result ≡ cited self }
    {
        if self.code == SAME {
            None
        } else {
            Some(self.code)
        }
    }
}
