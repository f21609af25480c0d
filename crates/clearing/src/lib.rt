// The mathematics of clearing: networks, divisions, payment matrices and the least clearing matrix. Its
// definitions stand in specs/ and its theorems in proofs/; the book's contracts rest on both.
#![tactic(auto)]

ghost use Rattle.clearing.specs.Promises.{LeastExists};

// Every network has a least clearing matrix under every lawful division.
pub fn least_exists() -> bool
    ensures { LeastExists }
{
    true
}
