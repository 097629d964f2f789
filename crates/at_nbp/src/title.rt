//! What a name is found by.
ghost use Rattle.std.specs.Prelude.{◌≡◌};
ghost use Rattle.at_ddp.specs.Text.{folded};
ghost use Rattle.at_nbp.specs.Titles.{titled};

use arrayvec::ArrayVec;
use at_ddp::Pascal;

/// The object and the type of a name in capitals, so that names which differ by the case of letters alone have one
/// title.
#[derive(Drop, PartialEq, Eq, Hash)]
pub(crate) struct Title {
    object: Pascal,
    kind: Pascal,
}

impl Title {
    pub(crate) fn of(object: &Pascal, kind: &Pascal) -> Title
        ensures { result ≡ titled object.now kind.now }
    {
        Title {
            object: in_capitals(object),
            kind: in_capitals(kind),
        }
    }
}

fn in_capitals(text: &Pascal) -> Pascal
    ensures { result ≡ folded text.now }
{
    let mut capitals: ArrayVec<u8, 32> = ArrayVec::new();
    capitals.try_extend_from_slice(text.bytes()).unwrap();
    capitals.as_mut_slice().make_ascii_uppercase();
    Pascal::new(capitals.as_slice()).unwrap()
}
