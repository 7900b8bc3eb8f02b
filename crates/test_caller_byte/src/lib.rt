// The caller that a byte names, for the programs of tests.
#![tactic(auto)]

ghost use Rattle.std.specs.Prelude.{◌≡◌};
ghost use Rattle.test_caller_byte.specs.Named.{caller_of as caller_for};

use model::Caller;

// 02, wish 9: "a call names only which of the two it is". Here by a byte: 0 the server, any other the cart.
// Kept: a function, since an impl of From must stand beside Caller, in `model`, and the byte is the tests' own: no plainer.
pub fn caller_of(named: u8) -> Caller
    ensures { result ≡ caller_for named }
{
    if named == 0 {
        Caller::Server
    } else {
        Caller::Cart
    }
}
