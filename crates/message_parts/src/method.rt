// The method of a request.
ghost use Rattle.std.specs.Prelude.{◌≡◌, ◌∷◌, [], codes, IfOk, IfSome};
ghost use Rattle.std.specs.List.{concat};

use crate::piece::{HeadText, Piece};
use std::alloc::{AllocError, Global};
use std::marker::Model;

/// A request's method, such as `GET`, as it was sent: methods are compared byte for byte (RFC 9110
/// 9.1). A contract sees the list of its bytes.
#[derive(Drop)]
pub struct Method {
    name: Piece,
}

impl Model for Method {
    ghost use Rattle.std.specs.Prelude.{ℕ, List};

    ghost Value = { List ℕ };

    ghost view = { λ m. m.name };
}

impl Method {
    /// The method that this piece of a head names. Takes no memory.
    pub fn new(name: Piece) -> Method
        ensures { result ≡ name }
    {
        Method { name }
    }

    /// The method of this name, in a text of its own. Fails when out of memory.
    pub fn from_slice(alloc: Global, name: &[u8]) -> Result<Method, AllocError>
        ensures { IfOk result (λ method. method ≡ name.now) }
    {
        let text = HeadText::new(alloc, Vec::from_slice(alloc, name)?)?;
        Ok(Method::new(text.piece(0, name.len())?))
    }

    /// Its name in place.
    pub fn as_slice(&self) -> &[u8]
        ensures { result.now ≡ self.now }
    {
        self.name.as_slice()
    }

    /// The first line of its request as the head has it, from the method through CR LF, where that
    /// is `method target HTTP/1.1` with this target and single spaces; none elsewhere.
    pub fn first_line(&self, target: &[u8]) -> Option<&[u8]>
        ensures { IfSome result (λ line. line.now
            ≡ concat (self.now ∷ codes " " ∷ target.now ∷ codes " HTTP/1.1\r\n" ∷ [])) }
    {
        self.name.first_line(target)
    }
}
