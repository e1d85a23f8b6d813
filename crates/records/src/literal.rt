// The literals of a rule's body.
ghost use Rattle.std.specs.Prelude.{◌≡◌};
ghost use Rattle.std.specs.List.{flat_map};
ghost use Rattle.records.specs.Faults.{all_are};
ghost use Rattle.records.specs.Literals.{literal_of, pair_of, body_of, body_rule};

use crate::fault::all_are;
use std::array;

#[derive(Clone, Copy, Debug, PartialEq, Eq)]
pub enum Literal {
    Atom(u8),
    NotAtom(u8),
    Source(u8),
    NotSource(u8),
}

// The codes of the literals. No literal has the code 0.
const ATOM: u8 = 1;

const NOT_ATOM: u8 = 2;

const SOURCE: u8 = 3;

const NOT_SOURCE: u8 = 4;

// The literal that a code and a number write, if they do. A TryFrom would be no plainer: nothing reads an error of it, and None is a place as good as any.
fn read_literal(code: u8, number: u8) -> Option<Literal>
    ensures { result ≡ literal_of code number }
{
    match code {
        ATOM if number < 255 => Some(Literal::Atom(number)),
        NOT_ATOM if number < 255 => Some(Literal::NotAtom(number)),
        SOURCE if number < 64 => Some(Literal::Source(number)),
        NOT_SOURCE if number < 64 => Some(Literal::NotSource(number)),
        _ => None,
    }
}

fn pair_of(place: Option<Literal>) -> [u8; 2]
    ensures { result ≡ pair_of place }
{
    match place {
        None => [0, 0],
        Some(Literal::Atom(n)) => [ATOM, n],
        Some(Literal::NotAtom(n)) => [NOT_ATOM, n],
        Some(Literal::Source(n)) => [SOURCE, n],
        Some(Literal::NotSource(n)) => [NOT_SOURCE, n],
    }
}

// The sixteen places of a body.
pub(crate) fn read_body(bytes: &[u8; 32]) -> [Option<Literal>; 16]
    ensures { result ≡ body_of bytes.now }
{
    array::from_fn(|i| read_literal(bytes[2 * i], bytes[2 * i + 1]))
}

pub(crate) fn body_bytes(body: &[Option<Literal>; 16]) -> [u8; 32]
    ensures { result ≡ flat_map pair_of body.now }
{
    let pairs = body.map(pair_of);
    *pairs.as_flattened().as_array().unwrap()
}

// Whether nothing is written at a place.
fn is_unused(pair: &[u8; 2]) -> bool
    ensures { result ≡ all_are 0 pair.now }
{
    all_are(pair, 0)
}

// Whether the bytes are literals, and then nothing.
pub(crate) fn body_keeps(bytes: &[u8; 32]) -> bool
    ensures { result ≡ body_rule bytes.now }
{
    let (pairs, _) = bytes.as_chunks::<2>();
    pairs
        .iter()
        .skip_while(|pair| read_literal(pair[0], pair[1]).is_some())
        .all(|pair| is_unused(pair))
}
