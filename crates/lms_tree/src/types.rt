// The parameter sets of LMS (RFC 8554, 5.1), and levels.

ghost use Rattle.std.specs.Prelude.{◌≡◌};

use lms_ots::OtsType;

/// A parameter set of LMS with SHA-256 and m = 32, named by the height of its trees (RFC 8554, 5.1).
#[derive(Clone, Copy, PartialEq, Eq, Debug)]
pub enum LmsType {
    H5,
    H10,
    H15,
    H20,
    H25,
}

/// A row of the table of parameter sets.
#[derive(Clone, Copy)]
pub struct LmsParameters {
    /// The number that names the set in signatures and keys.
    pub code: u32,
    /// h, the height of a tree.
    pub height: u32,
}

/// The types of a tree and of its one-time keys.
#[derive(Clone, Copy, PartialEq, Eq, Debug)]
pub struct Level {
    pub lms: LmsType,
    pub ots: OtsType,
}

impl LmsType {
    ghost use Rattle.lms_tree.specs.Types.{lms_parameters};

    /// The type's row of the table.
    pub fn parameters(self) -> LmsParameters
        ensures { result ≡ lms_parameters self }
    {
        match self {
            LmsType::H5 => row(5, 5),
            LmsType::H10 => row(6, 10),
            LmsType::H15 => row(7, 15),
            LmsType::H20 => row(8, 20),
            LmsType::H25 => row(9, 25),
        }
    }
}

fn row(code: u32, height: u32) -> LmsParameters
    ensures { result ≡ record { code = code; height = height } }
{
    LmsParameters { code, height }
}
