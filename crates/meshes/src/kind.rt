// The kinds of mesh, of which a bound names one by its number.
ghost use Rattle.std.specs.Prelude.{◌≡◌};
ghost use Rattle.meshes.specs.Checks.{kind_of};

use crate::PrepareRefusal;

// A mesh without a tree, whose vertices are shrunk and listed by octants, or one with a tree.
#[derive(Clone, Copy, Debug, PartialEq, Eq)]
pub enum Kind {
    Geometry,
    Bvh,
}

impl TryFrom<u32> for Kind {
    type Error = PrepareRefusal;

    ghost try_from_gives = { λ number r. r ≡ kind_of number };

    fn try_from(number: u32) -> Result<Self, PrepareRefusal> {
        match number {
            4 => Ok(Kind::Geometry),
            8 => Ok(Kind::Bvh),
            _ => Err(PrepareRefusal::UnknownKind),
        }
    }
}
