// What the stage reads, and that the rows of the call or of a frame have let it through.
ghost use Rattle.filter.specs.Input.{given};
ghost use Rattle.filter.specs.inner.Steps.{Sound};

use crate::FilterParams;
use mesh::Positions;

#[derive(Clone, Copy)]
pub(crate) struct Checked<'a> {
    pub corners: Positions<'a>,
    pub quads: &'a [u32],
    pub params: FilterParams,
    ghost sound: { Sound (given corners quads params) },
}
