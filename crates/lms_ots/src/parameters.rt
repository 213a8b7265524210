// The parameter sets of LM-OTS (RFC 8554, 4.1).

ghost use Rattle.std.specs.Prelude.{◌≡◌, ◌≢◌, ℕ, IfSome, IfNone};

/// A parameter set of LM-OTS with SHA-256 and n = 32, named by the width w of its digits in bits
/// (RFC 8554, 4.1).
#[derive(Clone, Copy, PartialEq, Eq, Debug)]
pub enum OtsType {
    W1,
    W2,
    W4,
    W8,
}

/// A row of the table of parameter sets.
#[derive(Clone, Copy)]
pub struct OtsParameters {
    /// The number that names the set in signatures and keys.
    pub code: u32,
    /// w, the bits of a digit.
    pub width: usize,
    /// p, the number of chains.
    pub chains: u16,
    /// ls, how far the checksum is shifted to the left.
    pub shift: u32,
    /// The bytes of a signature.
    pub sig_len: usize,
}

impl OtsType {
    ghost use Rattle.lms_ots.specs.Parameters.{parameters, FollowsRule};

    /// The type's row of the table.
    pub fn parameters(self) -> OtsParameters
        ensures row { result ≡ parameters self }
        ensures rule { FollowsRule result }
    {
        match self {
            OtsType::W1 => row(1, 1, 265, 7, 8516),
            OtsType::W2 => row(2, 2, 133, 6, 4292),
            OtsType::W4 => row(3, 4, 67, 4, 2180),
            OtsType::W8 => row(4, 8, 34, 0, 1124),
        }
    }
}

fn row(code: u32, width: usize, chains: u16, shift: u32, sig_len: usize) -> OtsParameters
    ensures { result ≡ record { code = code; width = width; chains = chains; shift = shift; sig_len = sig_len } }
{
    OtsParameters {
        code,
        width,
        chains,
        shift,
        sig_len,
    }
}
