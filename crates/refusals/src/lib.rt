// What the checks of an operation find: nothing, or a refusal. The paper: "A refusal is its number, with a lowest channel (17) or node (18), else place 0."
#![tactic(auto)]

ghost use Rattle.std.specs.Prelude.{◌≡◌};
ghost use Rattle.refusals.specs.Refused.{refused};

// The number of the first check that holds, and its place. The numbers are the paper's, which C and the course book name too.
#[derive(Clone, Copy, Debug, PartialEq, Eq)]
pub struct Refusal {
    pub number: u8,
    pub place: u16,
}

// A refusal with no lowest edge or node to name: place 0.
pub fn refused<T>(number: u8) -> Result<T, Refusal>
    ensures { result ≡ refused number 0 }
{
    refused_at(number, 0)
}

// A refusal that names a lowest edge or node.
pub fn refused_at<T>(number: u8, place: u16) -> Result<T, Refusal>
    ensures { result ≡ refused number place }
{
    Err(Refusal { number, place })
}
